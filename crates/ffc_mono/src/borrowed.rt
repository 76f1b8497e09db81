//! Borrowed monomials.
ghost use Rattle.std.specs.Prelude.{◌≡◌, ◌≤◌, ◌↔◌, length, IsTrue, IsOk, IfOk};
ghost use Rattle.ffc_ring.specs.Monomial.{IsMonomial, degree, Divides, AreCoprime, same_monomial};
ghost use Rattle.ffc_mono.specs.Masks.{mask_of};
ghost use Rattle.ffc_mono.specs.OneProof.{one_proof};

use crate::mono::Mono;
use crate::powers::{self, Power};
use std::alloc::{AllocError, Global};

/// A borrowed monomial, of a `Mono` or in a row. A clause sees its powers, the list of pairs of variable and exponent.
#[derive(Clone, Copy, Debug)]
pub struct MonoRef<'a> {
    pub(crate) powers: &'a [Power],
    pub(crate) total_degree: u32,
    pub(crate) mask: u32,
    pub ghost is_monomial: { IsMonomial powers.now } by { one_proof powers.now },
    pub ghost degree_is: { total_degree ≡ degree powers.now },
    pub ghost within: { total_degree ≤ 1024 },
    pub ghost mask_is: { mask ≡ mask_of powers.now },
}

impl<'a> PartialEq for MonoRef<'a> {
    ghost use Rattle.std.specs.Cmp.{partial_equiv_from_equiv};
    ghost use Rattle.ffc_ring.specs.Monomial.{same_monomial};
    ghost use Rattle.ffc_mono.specs.EqualityLaws.{same_powers_equivalence};

    ghost eq = { λ m n. same_monomial m.powers.now n.powers.now };

    ghost laws = { partial_equiv_from_equiv (same_powers_equivalence (λ m. m.powers.now)) };

    fn eq(&self, other: &MonoRef<'a>) -> bool
        ensures value { result ≡ same_monomial self.now.powers.now other.now.powers.now }
        ensures list { IsTrue result ↔ (self.now.powers.now ≡ other.now.powers.now) }
    {
        self.powers == other.powers
    }
}

impl<'a> Eq for MonoRef<'a> {
    ghost use Rattle.ffc_mono.specs.EqualityLaws.{same_powers_equivalence};

    ghost laws = { same_powers_equivalence (λ m. m.powers.now) };
}

impl<'a> MonoRef<'a> {
    /// The pairs of variable and exponent.
    pub fn pairs(self) -> &'a [Power]
        ensures value { result.now ≡ self.entry.powers.now }
        ensures monomial { IsMonomial self.entry.powers.now }
        ensures fits { degree self.entry.powers.now ≤ 1024 }
    {
        self.powers
    }

    /// The total degree.
    pub fn degree(self) -> u32
        ensures value { result ≡ degree self.entry.powers.now }
        ensures monomial { IsMonomial self.entry.powers.now }
        ensures fits { result ≤ 1024 }
    {
        self.total_degree
    }

    /// Whether this monomial divides the other. The masks answer most cases that it does not. It takes no memory.
    pub fn divides(self, other: MonoRef<'_>) -> bool
        ensures { IsTrue result ↔ Divides self.entry.powers.now other.entry.powers.now }
    {
        if powers::may_divide(self.mask, other.mask) {
            powers::divides(self.powers, other.powers)
        } else {
            false
        }
    }

    /// Whether no variable occurs in both. It takes no memory.
    pub fn is_coprime(self, other: MonoRef<'_>) -> bool
        ensures { IsTrue result ↔ AreCoprime self.entry.powers.now other.entry.powers.now }
    {
        powers::are_coprime(self.powers, other.powers)
    }

    /// This monomial as one of its own.
    pub fn to_mono(self, alloc: Global) -> Result<Mono, AllocError>
        ensures value { IfOk result (λ m. m ≡ self.entry.powers.now) }
        ensures short { length self.entry.powers.now ≤ 4 → IsOk result }
    {
        Mono::from_borrowed(alloc, self)
    }
}
