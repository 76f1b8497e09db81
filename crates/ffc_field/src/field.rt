//! A field of prime order, and its laws.
ghost use Rattle.std.specs.Prelude.{◌≡◌, ℕ, ◌%◌, ◌<◌, ◌≤◌, ◌^◌, ◌↔◌, IsTrue, IsNone, IfSome};
ghost use Rattle.ffc_field.specs.Modular.{add_mod, sub_mod, mul_mod, neg_mod, pow_mod, IsPrime};

/// The integers modulo a prime of at most 64 bits. No call takes memory.
pub trait Field: Copy + Eq {
    ghost ORDER: { ℕ };

    /// The residue of an element.
    ghost value: { Self → ℕ };

    /// How many elements there are.
    const ORDER: u64;

    /// The element of a number.
    fn of(n: u128) -> Self
        ensures { value result ≡ n % ORDER };

    /// The residue, below the order.
    fn residue(self) -> u64
        ensures value { result ≡ value self }
        ensures below { result < ORDER };

    fn add(self, other: Self) -> Self
        ensures { value result ≡ add_mod ORDER (value self) (value other) };

    fn sub(self, other: Self) -> Self
        ensures { value result ≡ sub_mod ORDER (value self) (value other) };

    fn mul(self, other: Self) -> Self
        ensures { value result ≡ mul_mod ORDER (value self) (value other) };

    /// The sum with a product, for rows and sums of multiples: one reduction in place of two.
    fn add_scaled(self, scale: Self, other: Self) -> Self
        ensures { value result ≡ add_mod ORDER (value self) (mul_mod ORDER (value scale) (value other)) };

    fn neg(self) -> Self
        ensures { value result ≡ neg_mod ORDER (value self) };

    /// To the power `e`; to the power 0 each element is 1. At most 127 products.
    fn pow(self, e: u64) -> Self
        ensures { value result ≡ pow_mod ORDER (value self) e };

    /// The element that times this one is 1; 0 has none. At most 127 products.
    fn inv(self) -> Option<Self>
        ensures zero { IsNone result ↔ (value self ≡ 0) }
        ensures inverse { IfSome result (λ y. mul_mod ORDER (value self) (value y) ≡ 1) };

    /// The order is prime.
    ghost prime: { IsPrime ORDER };

    /// The order fits 64 bits.
    ghost fits: { ORDER < 2 ^ 64 };

    /// A residue is below the order.
    ghost below: { (x : Self) → value x < ORDER };

    /// Two elements are equal exactly where their residues are.
    ghost one_value: { (x y : Self) → value x ≡ value y → x ≡ y };

    /// `==` compares the residues.
    ghost eq_is: { (x y : Self) → IsTrue (Self.eq x y) ↔ (value x ≡ value y) };
}
