//! The machine words in which residues are kept.
ghost use Rattle.std.specs.Prelude.{◌≡◌, ℕ, ◌<◌, ◌≤◌, ◌^◌, ◌↔◌, IsTrue};
ghost use Rattle.std.proofs.Common.{rules};

/// A machine word of at most 64 bits, as the number that it holds.
pub trait Word: Copy + Eq {
    /// The number that a word holds.
    ghost number: { Self → ℕ };

    /// How many numbers a word can hold: those from 0 on.
    ghost CAPACITY: { ℕ };

    /// The word that holds a number.
    fn narrow(n: u64) -> Self
        requires { n < CAPACITY }
        ensures { number result ≡ n };

    /// The number that the word holds.
    fn widen(self) -> u64
        ensures { result ≡ number self };

    /// A word has at most 64 bits.
    ghost fits: { CAPACITY ≤ 2 ^ 64 };

    /// Two words are equal exactly where their numbers are.
    ghost one_number: { (x y : Self) → number x ≡ number y → x ≡ y };

    /// `==` compares the numbers.
    ghost eq_is: { (x y : Self) → IsTrue (Self.eq x y) ↔ (number x ≡ number y) };
}

impl Word for u8 {
    ghost number = { λ word. word };

    ghost CAPACITY = { 2 ^ 8 };

    ghost fits = { Prim.search rules };

    ghost one_number = { λ x y same. same };

    ghost eq_is = { Prim.search rules };

    fn narrow(n: u64) -> u8 {
        n as u8
    }

    fn widen(self) -> u64 {
        u64::from(self)
    }
}

impl Word for u32 {
    ghost number = { λ word. word };

    ghost CAPACITY = { 2 ^ 32 };

    ghost fits = { Prim.search rules };

    ghost one_number = { λ x y same. same };

    ghost eq_is = { Prim.search rules };

    fn narrow(n: u64) -> u32 {
        n as u32
    }

    fn widen(self) -> u64 {
        u64::from(self)
    }
}

impl Word for u64 {
    ghost number = { λ word. word };

    ghost CAPACITY = { 2 ^ 64 };

    ghost fits = { Prim.search rules };

    ghost one_number = { λ x y same. same };

    ghost eq_is = { Prim.search rules };

    fn narrow(n: u64) -> u64 {
        n
    }

    fn widen(self) -> u64 {
        self
    }
}
