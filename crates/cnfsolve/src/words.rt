//! The words of the DIMACS format that are numbers and literals.
ghost use Rattle.std.specs.Prelude.{◌≡◌, ℕ};
ghost use Rattle.cnfsolve.specs.Words.{with_digit, number_of as number_that_is, literal_of, item_of as item_that_is};

use ffc_cdcl::Lit;

/// What a word of a clause means.
#[derive(Clone, Copy, Debug)]
pub enum Item {
    /// The end of the clause.
    End,
    Literal(Lit),
}

/// One more decimal digit after a number, where it is one and the number is below 2^32.
fn digit_after(number: u32, byte: u8) -> Option<u32>
    ensures { result ≡ with_digit number byte }
{
    if !byte.is_ascii_digit() {
        return None;
    }
    let value = u64::from(number) * 10 + u64::from(byte - b'0');
    if value < 1 << 32 {
        Some(value as u32)
    } else {
        None
    }
}

/// The number of these decimal digits, of which there is at least one.
pub fn number_of(word: &[u8]) -> Option<u32>
    ensures { result ≡ number_that_is word.now }
{
    if word.len() == 0 {
        return None;
    }
    let mut number = 0;
    for byte in word {
        number = digit_after(number, *byte)?;
    }
    Some(number)
}

/// The literal of a variable, which are numbered from 1.
fn literal(positive: bool, variable: u32) -> Option<Item>
    ensures { result ≡ literal_of positive variable }
{
    if variable == 0 {
        return None;
    }
    Some(Item::Literal(Lit {
        node: variable - 1,
        positive,
    }))
}

/// What a word of a clause means.
pub fn item_of(word: &[u8]) -> Option<Item>
    ensures { result ≡ item_that_is word.now }
{
    let (first, rest) = word.split_first()?;
    if *first == b'-' {
        let variable = number_of(rest)?;
        return literal(false, variable);
    }
    let number = number_of(word)?;
    if number == 0 {
        Some(Item::End)
    } else {
        literal(true, number)
    }
}
