//! Coefficients of products of rows: sums of products of residues, each sum reduced once.
ghost use Rattle.std.specs.Prelude.{◌≡◌, ◌+◌, ◌-◌, ◌*◌, ◌%◌, ◌^◌, ◌<◌, ◌≤◌, length, map, drop};
ghost use Rattle.ffc_uni.specs.Rows.{shifted};
ghost use Rattle.ffc_uni.specs.Univariate.{coefficient_at, times};

use ffc_field::Field;

/// 2^64.
const RADIX: u128 = 1 << 64;

/// The low and the high half of a product of two words.
fn halves(x: u64, y: u64) -> (u128, u128)
    ensures product { result.0 + 2 ^ 64 * result.1 ≡ x * y }
    ensures low { result.0 < 2 ^ 64 }
    ensures high { result.1 < 2 ^ 64 }
{
    let product = u128::from(x) * u128::from(y);
    (product % RADIX, product / RADIX)
}

/// The element of `low + 2^64 * high`.
fn reduced<F: Field>(low: u128, high: u128) -> F
    requires { high ≤ 2 ^ 128 - 2 ^ 64 }
    ensures { F.value result ≡ (low + 2 ^ 64 * high) % F.ORDER }
{
    let half = F::of(1 << 32);
    let rest = F::of(low / RADIX + high);
    F::of(low % RADIX).add_scaled(half.mul(half), rest)
}

/// The coefficient of X^place in the product of two rows, without what the coefficients of the first one before `from`
/// give. The low and the high halves of the products are summed apart, so that neither sum overflows.
pub fn coefficient_from<F: Field>(a: &[F], b: &[F], from: usize, place: usize) -> F
    requires { place < from + length b.now }
    ensures { F.value result ≡ coefficient_at (shifted from (times (drop from (map F.value a.now)) (map F.value b.now)))
        place % F.ORDER }
{
    let to = a.len().min(place.saturating_add(1));
    let mut low: u128 = 0;
    let mut high: u128 = 0;
    for i in from..to {
        let below = place - i;
        let x = a[i].residue();
        let y = b[below].residue();
        let product = halves(x, y);
        low += product.0;
        high += product.1;
    }
    reduced(low, high)
}

/// The coefficient of X^place in the product of two rows.
pub fn coefficient<F: Field>(a: &[F], b: &[F], place: usize) -> F
    requires { 1 ≤ length b.now }
    ensures { F.value result ≡ coefficient_at (times (map F.value a.now) (map F.value b.now)) place % F.ORDER }
{
    coefficient_from(a, b, place.saturating_sub(b.len() - 1), place)
}

/// The coefficient of X^place in the square of a row: the products of two different coefficients are made once and doubled.
pub fn coefficient_of_square<F: Field>(a: &[F], place: usize) -> F
    requires { place + 2 ≤ 2 * length a.now }
    ensures { F.value result ≡ coefficient_at (times (map F.value a.now) (map F.value a.now)) place % F.ORDER }
{
    let middle = place / 2;
    let above = coefficient_from(a, a, middle + 1, place);
    let twice = above.add(above);
    if place % 2 == 1 {
        return twice;
    }
    let x = a[middle];
    twice.add_scaled(x, x)
}
