//! Items of a line, and how they are read.
ghost use Rattle.std.specs.Prelude.{◌≡◌, ℕ, ◌+◌, ◌-◌, ◌*◌, ◌^◌, ◌<◌, ◌≤◌, ◌==◌, ◌↔◌, List, [], length, take, Result};
ghost use Rattle.std.specs.Prelude.{IfOk, IfSome, IsTrue, true, MatchResult, SomeIff, Ok};
ghost use Rattle.std.specs.Char.{is_ascii_digit};
ghost use Rattle.std.specs.List.{position_or_len, list_all};
ghost use Rattle.std.specs.Str.Parse.{digits_value};
ghost use Rattle.ffc_cert.specs.Items.{Reads, Stops, is_digits, is_canonical, first_item, behind_item, item_at};
ghost use Rattle.ffc_cert.specs.Items.{number_in, sign_of, literal_in, number_at, literal_at, variable_at, power_at};
ghost use Rattle.ffc_cert.specs.Cuts.{IsCut, BeginsWith};

use crate::entries::{Literal, Power};
use crate::flaws::{Flaw, LineStop};
use memchr::memchr;
use std::marker::Model;

/// The place of the first such byte, or the length.
pub fn place_of(byte: u8, bytes: &[u8]) -> usize
    ensures place { result ≡ position_or_len (λ c. c == byte) bytes.now }
    ensures within { result ≤ length bytes.now }
{
    memchr(byte, bytes).unwrap_or(bytes.len())
}

fn all_digits(bytes: &[u8]) -> bool
    ensures { result ≡ list_all is_ascii_digit bytes.now }
{
    bytes.iter().all(|c| c.is_ascii_digit())
}

#[tactic(auto, unfolding(crate::specs::Items::is_digits))]
fn is_digits(item: &[u8]) -> bool
    ensures { result ≡ is_digits item.now }
{
    !item.is_empty() && all_digits(item)
}

#[tactic(auto, unfolding(crate::specs::Items::is_canonical))]
fn is_canonical(item: &[u8]) -> bool
    ensures { result ≡ is_canonical item.now }
{
    match item {
        [] => false,
        [_] => true,
        [first, _, ..] => *first != b'0',
    }
}

/// A number with one more digit, if that is below 2^64.
fn with_digit(number: u64, digit: u8) -> Option<u64>
    requires low { 48 ≤ digit }
    requires high { digit < 58 }
    ensures { SomeIff result (number * 10 + (digit - 48) < 2 ^ 64) (number * 10 + (digit - 48)) }
{
    number.checked_mul(10)?.checked_add(u64::from(digit - b'0'))
}

/// The number that the digits write, if it is below 2^64.
fn value_of(digits: &[u8]) -> Option<u64>
    requires { IsTrue (is_digits digits.now) }
    ensures { SomeIff result (digits_value 10 digits.now < 2 ^ 64) (digits_value 10 digits.now) }
{
    let mut number = 0;
    for digit in digits {
        match with_digit(number, *digit) {
            Some(longer) => number = longer,
            None => return None,
        }
    }
    Some(number)
}

/// A number with one more byte, where that is a digit and the number is below 2^64.
fn with_byte(number: u64, byte: u8) -> Option<u64>
    ensures { IfSome result (λ n. (is_ascii_digit byte ≡ true) × (n ≡ number * 10 + (byte - 48))) }
{
    if byte.is_ascii_digit() {
        with_digit(number, byte)
    } else {
        None
    }
}

/// How many digits bytes begin with and the number that they write, up to the first digit with which it isn't below 2^64.
fn leading_digits(bytes: &[u8]) -> (usize, u64)
    ensures within { result.0 ≤ length bytes.now }
    ensures digits { list_all is_ascii_digit (take result.0 bytes.now) ≡ true }
    ensures value { result.1 ≡ digits_value 10 (take result.0 bytes.now) }
{
    let mut number = 0;
    let mut count = 0;
    for digit in bytes {
        match with_byte(number, *digit) {
            Some(longer) => number = longer,
            None => return (count, number),
        }
        count += 1;
    }
    (count, number)
}

/// Whether an item may end where these bytes follow it.
fn is_cut(bytes: &[u8]) -> bool
    ensures { result ≡ true → IsCut bytes.now }
{
    match bytes {
        [] => true,
        [first, ..] => *first == b' ',
    }
}

/// The number that bytes begin with and the bytes after it, found in one pass. None says nothing of the bytes.
fn front_number(bytes: &[u8]) -> Option<(u64, &[u8])>
    ensures { IfSome result (λ r. BeginsWith bytes.now r.0 r.1.now) }
{
    let (count, number) = leading_digits(bytes);
    let digits = &bytes[..count];
    let rest = &bytes[count..];
    if is_canonical(digits) && is_cut(rest) {
        Some((number, rest))
    } else {
        None
    }
}

/// The number that a line goes on with and the bytes after it. None says nothing of the line.
#[tactic(auto, using(crate::proofs::NumberCodes::number_reads))]
fn plain_number(line: &[u8]) -> Option<(u64, &[u8])>
    ensures { IfSome result (λ r. (limit : ℕ) → r.0 < limit → number_at limit line.now ≡ Ok (r.0, r.1.now)) }
{
    let (first, after) = line.split_first()?;
    if *first != b' ' {
        return None;
    }
    let (number, rest) = front_number(after)?;
    Some((number, rest))
}

/// An item as a number that is at most this one.
#[tactic(auto, unfolding(crate::specs::Items::number_in, crate::specs::Items::number_of))]
fn number_in(most: u64, item: &[u8]) -> Result<u64, Flaw>
    ensures value { result ≡ number_in (most + 1) item.now }
    ensures within { IfOk result (λ n. n ≤ most) }
{
    if !is_digits(item) {
        return Err(Flaw::Form);
    }
    if !is_canonical(item) {
        return Err(Flaw::Number);
    }
    match value_of(item) {
        Some(n) if n <= most => Ok(n),
        _ => Err(Flaw::Number),
    }
}

/// An item as a number below 2^32.
pub fn narrow_in(item: &[u8]) -> Result<u32, Flaw>
    ensures { result ≡ number_in (2 ^ 32) item.now }
{
    let n = number_in(u64::from(u32::MAX), item)?;
    Ok(n as u32)
}

#[tactic(auto, unfolding(crate::specs::Items::sign_of))]
fn sign_of(sign: u8) -> Result<bool, Flaw>
    ensures { result ≡ sign_of sign }
{
    match sign {
        b'+' => Ok(true),
        b'-' => Ok(false),
        _ => Err(Flaw::Form),
    }
}

/// An item as a literal.
#[tactic(auto, unfolding(crate::specs::Items::literal_in))]
fn literal_in(item: &[u8]) -> Result<Literal, Flaw>
    ensures { result ≡ literal_in item.now }
{
    match item {
        [] => Err(Flaw::Form),
        [sign, digits @ ..] => {
            let sign = sign_of(*sign)?;
            let node = narrow_in(digits)?;
            Ok((sign, node))
        }
    }
}

/// The literal that a line goes on with and the bytes after it. None says nothing of the line.
#[tactic(auto, using(crate::proofs::NumberCodes::literal_follows))]
fn plain_literal(line: &[u8]) -> Option<(Literal, &[u8])>
    ensures { IfSome result (λ r. literal_at line.now ≡ Ok (r.0, r.1.now)) }
{
    let (first, signed) = line.split_first()?;
    if *first != b' ' {
        return None;
    }
    let (sign, after) = signed.split_first()?;
    let sign = sign_of(*sign).ok()?;
    let (number, rest) = front_number(after)?;
    if number >= 1 << 32 {
        return None;
    }
    Some(((sign, number as u32), rest))
}

/// What is left of a line. Clauses see its bytes.
#[derive(Drop)]
pub struct Items<'a> {
    rest: &'a [u8],
}

impl<'a> Model for Items<'a> {
    ghost use Rattle.std.specs.Prelude.{List, ℕ};

    ghost Value = { List ℕ };

    ghost view = { λ items. items.rest.now };
}

impl<'a> Items<'a> {
    /// The first item of a line, and the items after it.
    pub fn of_line(line: &'a [u8]) -> (&'a [u8], Items<'a>)
        ensures first { result.0.now ≡ first_item line.now }
        ensures rest { result.1 ≡ behind_item line.now }
    {
        let end = place_of(b' ', line);
        (&line[..end], Items { rest: &line[end..] })
    }

    /// The next item.
    #[tactic(auto, unfolding(crate::specs::Items::item_at))]
    pub fn next(&mut self) -> Result<&'a [u8], LineStop>
        ensures { MatchResult result (λ item. item_at self.old ≡ Ok (item.now, self.new))
            (λ stop. Stops stop (item_at self.old)) }
    {
        match self.rest {
            [] => Err(LineStop::Flaw(Flaw::Missing)),
            [b' ', after @ ..] => {
                let end = place_of(b' ', after);
                self.rest = &after[end..];
                Ok(&after[..end])
            }
            [_, ..] => Err(LineStop::Flaw(Flaw::Form)),
        }
    }

    /// How many bytes are left.
    pub fn len(&self) -> usize
        ensures { result ≡ length self.now }
    {
        self.rest.len()
    }

    /// Whether no item is left.
    pub fn is_empty(&self) -> bool
        ensures { IsTrue result ↔ (self.now ≡ []) }
    {
        self.rest.is_empty()
    }

    /// The next item as a number that is at most this one.
    #[tactic(auto, unfolding(crate::specs::Items::number_at))]
    pub fn number(&mut self, most: u64) -> Result<u64, LineStop>
        ensures value { Reads result self.new (number_at (most + 1) self.old) }
        ensures within { IfOk result (λ n. n ≤ most) }
    {
        if let Some((n, rest)) = plain_number(self.rest) {
            if n <= most {
                self.rest = rest;
                return Ok(n);
            }
        }
        let item = self.next()?;
        Ok(number_in(most, item)?)
    }

    /// The next item as a number below 2^32.
    pub fn narrow(&mut self) -> Result<u32, LineStop>
        ensures { Reads result self.new (number_at (2 ^ 32) self.old) }
    {
        let n = self.number(u64::from(u32::MAX))?;
        Ok(n as u32)
    }

    /// The next item as a number below 2^64.
    pub fn wide(&mut self) -> Result<u64, LineStop>
        ensures { Reads result self.new (number_at (2 ^ 64) self.old) }
    {
        self.number(u64::MAX)
    }

    #[tactic(auto, unfolding(crate::specs::Items::literal_at))]
    pub fn literal(&mut self) -> Result<Literal, LineStop>
        ensures { Reads result self.new (literal_at self.old) }
    {
        if let Some((literal, rest)) = plain_literal(self.rest) {
            self.rest = rest;
            return Ok(literal);
        }
        let item = self.next()?;
        Ok(literal_in(item)?)
    }

    /// A variable that is not below this number.
    #[tactic(auto, unfolding(crate::specs::Items::variable_at))]
    pub fn variable(&mut self, least: u64) -> Result<u32, LineStop>
        ensures { Reads result self.new (variable_at least self.old) }
    {
        let variable = self.narrow()?;
        if u64::from(variable) < least {
            return Err(LineStop::Flaw(Flaw::Form));
        }
        Ok(variable)
    }

    /// A variable that is not below this number, and its exponent.
    #[tactic(auto, unfolding(crate::specs::Items::power_at, crate::specs::Items::exponent_at))]
    pub fn power(&mut self, least: u64) -> Result<Power, LineStop>
        ensures { Reads result self.new (power_at least self.old) }
    {
        let variable = self.variable(least)?;
        let exponent = self.narrow()?;
        if exponent == 0 {
            return Err(LineStop::Flaw(Flaw::Form));
        }
        Ok((variable, exponent))
    }
}
