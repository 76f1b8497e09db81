//! Monomials.
ghost use Rattle.std.specs.Prelude.{◌≡◌, ℕ, ◌≤◌, ◌<◌, ◌↔◌, List, max, ◌+◌, ◌-◌, length, IsTrue, IsOk, IfOk, OnOk};
ghost use Rattle.std.specs.Prelude.{IsErrOf};
ghost use Rattle.ffc_ring.specs.Monomial.{IsMonomial, degree, exponent, Divides, AreCoprime, mono_mul, mono_lcm};

use crate::borrowed::MonoRef;
use crate::powers::{self, Joining, Power, Powers};
use smallvec::SmallVec;
use std::alloc::{AllocError, Global};
use std::hash::{Hash, Hasher};
use std::marker::Model;
use thiserror::Error;

/// The greatest total degree.
pub const DEGREE_LIMIT: u32 = 1024;

/// Why a monomial was not made.
#[derive(Clone, Copy, Debug, PartialEq, Eq, Drop, Error)]
pub enum MonoStop {
    /// The total degree would pass the limit.
    #[error("the total degree passes the limit")]
    DegreeOver,
    /// Out of memory.
    #[error("out of memory")]
    Memory,
}

impl From<AllocError> for MonoStop {
    ghost use Rattle.std.specs.Prelude.{◌≡◌};
    ghost use Rattle.ffc_mono.specs.declared.mono.MonoStop.TheVariants.{Memory};

    ghost from_gives = { λ _ stop. stop ≡ Memory };

    fn from(_: AllocError) -> MonoStop {
        MonoStop::Memory
    }
}

/// A monomial of total degree at most 1,024: the list of its pairs of variable and exponent, with strictly
/// increasing variables and exponents of at least 1. One of up to four variables takes no memory of its own. It can be a
/// key of a map, by its powers.
#[derive(Debug, Drop)]
pub struct Mono {
    powers: Powers,
    total_degree: u32,
    mask: u32,
}

impl Model for Mono {
    ghost use Rattle.std.specs.Prelude.{◌≡◌, ℕ, ◌≤◌, List};
    ghost use Rattle.ffc_ring.specs.Monomial.{IsMonomial, degree};
    ghost use Rattle.ffc_mono.specs.Masks.{mask_of};

    ghost Value = { List (ℕ × ℕ) };

    ghost view = { λ m. m.powers.items };

    ghost invariant = { λ m. IsMonomial m.powers.items × (m.total_degree ≡ degree m.powers.items)
        × (m.total_degree ≤ 1024)
        × (m.mask ≡ mask_of m.powers.items) };
}

impl Mono {
    /// The monomial with these powers.
    pub fn from_pairs(alloc: Global, pairs: &[Power]) -> Result<Mono, MonoStop>
        requires { IsMonomial pairs.now }
        ensures value { IfOk result (λ m. m ≡ pairs.now) }
        ensures fits { OnOk result (degree pairs.now ≤ DEGREE_LIMIT) }
        ensures degree_over { IsErrOf result MonoStop.DegreeOver ↔ (DEGREE_LIMIT < degree pairs.now) }
        ensures short { length pairs.now ≤ 4 → degree pairs.now ≤ DEGREE_LIMIT → IsOk result }
    {
        let Some(total_degree) = powers::degree_within(pairs, DEGREE_LIMIT) else {
            return Err(MonoStop::DegreeOver);
        };
        let powers = SmallVec::from_slice(alloc, pairs)?;
        Ok(Mono {
            powers,
            total_degree,
            mask: powers::mask_of(pairs),
        })
    }

    /// The pairs of variable and exponent.
    pub fn pairs(&self) -> &[Power]
        ensures value { result.now ≡ self.now }
        ensures monomial { IsMonomial self.now }
        ensures fits { degree self.now ≤ DEGREE_LIMIT }
    {
        self.powers.as_slice()
    }

    /// The total degree.
    pub fn degree(&self) -> u32
        ensures value { result ≡ degree self.now }
        ensures monomial { IsMonomial self.now }
        ensures fits { result ≤ DEGREE_LIMIT }
    {
        self.total_degree
    }

    /// The product, in one walk over both. Whether it has too high a degree is seen before.
    pub fn mul(&self, other: &Mono) -> Result<Mono, MonoStop>
        ensures value { IfOk result (λ m. m ≡ mono_mul self.now other.now) }
        ensures exponents { IfOk result (λ m. (x : ℕ) → exponent m x ≡ exponent self.now x + exponent other.now x) }
        ensures fits { OnOk result (degree self.now + degree other.now ≤ DEGREE_LIMIT) }
        ensures degree_over { IsErrOf result MonoStop.DegreeOver ↔ (DEGREE_LIMIT < degree self.now + degree other.now) }
    {
        let total_degree = self.total_degree + other.total_degree;
        if total_degree > DEGREE_LIMIT {
            return Err(MonoStop::DegreeOver);
        }
        let alloc = *self.powers.allocator();
        let powers = powers::joined(alloc, Joining::Sum, self.pairs(), other.pairs())?;
        Ok(Mono {
            powers,
            total_degree,
            mask: self.mask | other.mask,
        })
    }

    /// The least common multiple, in one walk over both. Whether it has too high a degree is seen before, in another.
    pub fn lcm(&self, other: &Mono) -> Result<Mono, MonoStop>
        ensures value { IfOk result (λ m. m ≡ mono_lcm self.now other.now) }
        ensures exponents { IfOk result (λ m. (x : ℕ) → exponent m x
            ≡ max (exponent self.now x) (exponent other.now x)) }
        ensures fits { OnOk result (degree (mono_lcm self.now other.now) ≤ DEGREE_LIMIT) }
        ensures degree_over { IsErrOf result MonoStop.DegreeOver
            ↔ (DEGREE_LIMIT < degree (mono_lcm self.now other.now)) }
    {
        let first = self.pairs();
        let second = other.pairs();
        let degree = powers::lcm_degree(first, second);
        if degree > DEGREE_LIMIT {
            return Err(MonoStop::DegreeOver);
        }
        let alloc = *self.powers.allocator();
        let powers = powers::joined(alloc, Joining::Maximum, first, second)?;
        Ok(Mono {
            powers,
            total_degree: degree,
            mask: self.mask | other.mask,
        })
    }

    /// The monomial borrowed.
    pub fn as_ref(&self) -> MonoRef<'_>
        ensures { result.powers.now ≡ self.now }
    {
        MonoRef {
            powers: self.powers.as_slice(),
            total_degree: self.total_degree,
            mask: self.mask,
        }
    }

    /// A borrowed monomial as one of its own.
    pub(crate) fn from_borrowed(alloc: Global, m: MonoRef<'_>) -> Result<Mono, AllocError>
        ensures value { IfOk result (λ n. n ≡ m.entry.powers.now) }
        ensures short { length m.entry.powers.now ≤ 4 → IsOk result }
    {
        let powers = SmallVec::from_slice(alloc, m.powers)?;
        Ok(Mono {
            powers,
            total_degree: m.total_degree,
            mask: m.mask,
        })
    }

    /// Whether this monomial divides the other. It takes no memory.
    pub fn divides(&self, other: &Mono) -> bool
        ensures { IsTrue result ↔ Divides self.now other.now }
    {
        self.as_ref().divides(other.as_ref())
    }

    /// Whether no variable occurs in both. It takes no memory.
    pub fn is_coprime(&self, other: &Mono) -> bool
        ensures { IsTrue result ↔ AreCoprime self.now other.now }
    {
        self.as_ref().is_coprime(other.as_ref())
    }

    /// The monomial that times `by` is this one.
    pub fn quotient(&self, by: &Mono) -> Result<Mono, AllocError>
        requires { Divides by.now self.now }
        ensures value { IfOk result (λ m. mono_mul by.now m ≡ self.now) }
        ensures exponents { IfOk result (λ m. (x : ℕ) → exponent m x ≡ exponent self.now x - exponent by.now x) }
        ensures degree { IfOk result (λ m. degree m ≡ degree self.now - degree by.now) }
    {
        let alloc = *self.powers.allocator();
        let powers = powers::quotient(alloc, self.pairs(), by.pairs())?;
        let total_degree = self.total_degree - by.total_degree;
        let mask = powers::mask_of(powers.as_slice());
        Ok(Mono {
            powers,
            total_degree,
            mask,
        })
    }
}

impl Clone for Mono {
    ghost use Rattle.std.specs.Prelude.{◌≡◌, ◌≤◌, length};

    ghost is_clone = { λ m n. n ≡ m };

    ghost is_infallible = { λ m. length m ≤ 4 };

    fn clone(&self) -> Result<Mono, AllocError> {
        let powers = SmallVec::from_slice(*self.powers.allocator(), self.powers.as_slice())?;
        Ok(Mono {
            powers,
            total_degree: self.total_degree,
            mask: self.mask,
        })
    }
}

impl PartialEq for Mono {
    ghost use Rattle.std.specs.Cmp.{partial_equiv_from_equiv};
    ghost use Rattle.ffc_ring.specs.Monomial.{same_monomial};
    ghost use Rattle.ffc_mono.specs.EqualityLaws.{same_monomial_equivalence};

    ghost eq = { same_monomial };

    ghost laws = { partial_equiv_from_equiv same_monomial_equivalence };

    fn eq(&self, other: &Mono) -> bool
        ensures value { result ≡ same_monomial self.now other.now }
        ensures list { IsTrue result ↔ (self.now ≡ other.now) }
    {
        self.pairs() == other.pairs()
    }
}

impl Eq for Mono {
    ghost use Rattle.ffc_mono.specs.EqualityLaws.{same_monomial_equivalence};

    ghost laws = { same_monomial_equivalence };
}

impl Hash for Mono {
    ghost use Rattle.ffc_mono.specs.EqualityLaws.{monomial_hash, monomials_hash_alike};

    ghost hash_input = { monomial_hash };

    ghost respects_eq = { monomials_hash_alike };

    fn hash<H: Hasher>(&self, state: &mut H) {
        self.pairs().hash(state);
    }
}
