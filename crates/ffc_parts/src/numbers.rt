//! Numbers in scripts: numerals, orders, and the constants of fields.
ghost use Rattle.std.specs.Prelude.{◌≡◌, ◌==◌, ◌+◌, ◌*◌, if◌then◌else◌, Some, None, ◌<◌, ◌≤◌, ◌^◌, MatchOption, min};
ghost use Rattle.std.specs.Prelude.{option_map};
ghost use Rattle.std.specs.List.{list_all, position_or_len};
ghost use Rattle.ffc_lex.specs.Bytes.{is_digit};
ghost use Rattle.ffc_smt.specs.Meaning.{residue_of_number};
ghost use Rattle.ffc_smt.specs.Numbers as numbers;
ghost use Rattle.ffc_parts.specs.Numbers.{capped, signed_as, small_only, order_only};

/// The number that digits spell, or 2^64 - 1 where it is greater.
pub fn number_of(digits: &[u8]) -> u64
    ensures { result ≡ capped (numbers.number_of digits.now) }
{
    let mut number = 0u64;
    for digit in digits {
        number = number
            .saturating_mul(10)
            .saturating_add(u64::from(digit.saturating_sub(b'0')));
    }
    number
}

/// The number that digits spell, unless it is 2^128 or more.
pub fn size_of_digits(digits: &[u8]) -> Option<u128>
    ensures { MatchOption result (2 ^ 128 ≤ numbers.number_of digits.now) (λ n. n ≡ numbers.number_of digits.now) }
{
    let mut size = Some(0u128);
    for digit in digits {
        size = longer(size, digit.saturating_sub(b'0'));
    }
    size
}

/// One more digit.
fn longer(size: Option<u128>, digit: u8) -> Option<u128>
    ensures { MatchOption size (result ≡ None) (λ n. MatchOption result (2 ^ 128 ≤ 10 * n + digit)
        (λ m. m ≡ 10 * n + digit)) }
{
    size?.checked_mul(10)?.checked_add(u128::from(digit))
}

/// Whether it is the order of one of the solver's fields.
pub fn is_order(p: u64) -> bool
    ensures { result ≡ numbers.is_order p }
{
    p == 2
        || p == 3
        || p == 5
        || p == 17
        || p == 65537
        || p == 2_013_265_921
        || p == 2_130_706_433
        || p == 18_446_744_069_414_584_321
}

/// The order that digits spell, if it is one of the solver's.
pub fn order_of(digits: &[u8]) -> Option<u64>
    ensures { result ≡ order_only (numbers.number_of digits.now) }
{
    let p = number_of(digits);
    if is_order(p) { Some(p) } else { None }
}

/// A number that may be negative.
#[derive(Clone, Copy, Debug, PartialEq, Eq)]
pub struct Signed {
    pub negative: bool,
    pub size: u128,
}

fn is_digit_byte(byte: u8) -> bool
    ensures { result ≡ is_digit byte }
{
    byte.is_ascii_digit()
}

fn are_digits(bytes: &[u8]) -> bool
    ensures { result ≡ list_all is_digit bytes.now }
{
    bytes.iter().all(|byte| is_digit_byte(*byte))
}

fn is_number(digits: &[u8]) -> bool
    ensures { result ≡ numbers.is_number digits.now }
{
    match digits {
        [] => false,
        [_, ..] => are_digits(digits),
    }
}

/// A number of this sign and these digits, unless the size is 2^128 or more.
fn with_sign(negative: bool, digits: &[u8]) -> Option<Signed>
    ensures { option_map signed_as result
        ≡ small_only
        (if numbers.is_number digits.now then Some (record { negative = negative; size = numbers.number_of digits.now })
        else None) }
{
    if !is_number(digits) {
        return None;
    }
    let size = size_of_digits(digits)?;
    Some(Signed { negative, size })
}

/// An optional `-` and digits, unless the size is 2^128 or more.
pub fn signed_of(text: &[u8]) -> Option<Signed>
    ensures { option_map signed_as result ≡ small_only (numbers.signed_of text.now) }
{
    match text {
        [] => None,
        [first, digits @ ..] => {
            if *first == b'-' {
                with_sign(true, digits)
            } else {
                with_sign(false, text)
            }
        }
    }
}

/// The N of `ffN`.
pub fn constant_of(name: &[u8]) -> Option<Signed>
    ensures { option_map signed_as result ≡ small_only (numbers.constant_of name.now) }
{
    if name.starts_with(b"ff") {
        signed_of(&name[2..])
    } else {
        None
    }
}

/// How many bytes come before the first `m`.
fn m_place(bytes: &[u8]) -> usize
    ensures { result ≡ position_or_len (λ c. c == 109) bytes.now }
{
    bytes.iter().take_while(|b| !(**b == b'm')).count()
}

/// The N of `#fNmP`.
pub fn literal_number(bytes: &[u8]) -> Option<Signed>
    ensures { option_map signed_as result ≡ small_only (numbers.literal_number bytes.now) }
{
    let rest = &bytes[bytes.len().min(2)..];
    let end = m_place(rest);
    signed_of(&rest[..end.min(rest.len())])
}

/// The P of `#fNmP`, if it is one of the solver's orders.
pub fn literal_order(bytes: &[u8]) -> Option<u64>
    ensures { result ≡ order_only (numbers.literal_order bytes.now) }
{
    let end = m_place(bytes);
    if end < bytes.len() {
        order_of(&bytes[end + 1..])
    } else {
        order_of(b"")
    }
}

/// The residue of a number.
pub fn residue_of(n: Signed, p: u64) -> u64
    requires { 0 < p }
    ensures value { result ≡ residue_of_number n.negative n.size p }
    ensures below { result < p }
{
    let rest = (n.size % u128::from(p)) as u64;
    if n.negative && rest > 0 {
        p - rest
    } else {
        rest
    }
}
