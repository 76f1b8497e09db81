//! Items of a line, and how they are spelled.
ghost use Rattle.std.specs.Prelude.{◌≡◌, ℕ, ◌-◌, ◌^◌, ◌++◌, ◌<◌, List, length, min, OnOk, OnErr};
ghost use Rattle.ffc_cert.specs.Spelling.{number, literal, power, term, multiple, counted};
ghost use Rattle.ffc_cert.specs.Extending.{Extends};

use crate::entries::{Literal, Multiple, Power, Term};
use crate::sequences::Sequence;
use itoa::Buffer;
use std::alloc::AllocError;

/// What a line has after its first item.
pub trait Spelled {
    ghost text: { Self → List ℕ };

    /// Appends the text. Where memory runs out, a part of it may be at the end.
    fn write(&self, out: &mut Vec<u8>) -> Result<(), AllocError>
        ensures ok { OnOk result (out.new.items ≡ out.old.items ++ text self.now) }
        ensures err { OnErr result (Extends out.old.items out.new.items) };

    /// The length of the text, or the greatest number where that is less. It takes no memory.
    fn text_len(&self) -> u64
        ensures { result ≡ min (length (text self.now)) (2 ^ 64 - 1) };
}

/// Appends a space and a number.
pub fn write_number(n: u64, out: &mut Vec<u8>) -> Result<(), AllocError>
    ensures ok { OnOk result (out.new.items ≡ out.old.items ++ number n) }
    ensures err { OnErr result (Extends out.old.items out.new.items) }
{
    let mut buffer = Buffer::new();
    out.push(b' ')?;
    out.extend_from_slice(buffer.format(n).as_bytes())?;
    Ok(())
}

/// How long a space and a number are.
pub fn number_len(n: u64) -> u64
    ensures value { result ≡ length (number n) }
    ensures short { result < 64 }
{
    let mut buffer = Buffer::new();
    buffer.format(n).len() as u64 + 1
}

impl Spelled for u32 {
    ghost text = { number };

    #[tactic(auto, using(crate::proofs::Appending::appending))]
    fn write(&self, out: &mut Vec<u8>) -> Result<(), AllocError> {
        write_number(u64::from(*self), out)
    }

    fn text_len(&self) -> u64 {
        number_len(u64::from(*self))
    }
}

impl Spelled for u64 {
    ghost text = { number };

    #[tactic(auto, using(crate::proofs::Appending::appending))]
    fn write(&self, out: &mut Vec<u8>) -> Result<(), AllocError> {
        write_number(*self, out)
    }

    fn text_len(&self) -> u64 {
        number_len(*self)
    }
}

impl Spelled for Literal {
    ghost text = { literal };

    #[tactic(auto, using(crate::proofs::Appending::appending))]
    fn write(&self, out: &mut Vec<u8>) -> Result<(), AllocError> {
        let sign = if self.0 { b'+' } else { b'-' };
        let mut buffer = Buffer::new();
        out.push(b' ')?;
        out.push(sign)?;
        out.extend_from_slice(buffer.format(self.1).as_bytes())?;
        Ok(())
    }

    fn text_len(&self) -> u64 {
        number_len(u64::from(self.1)) + 1
    }
}

impl Spelled for Power {
    ghost text = { power };

    #[tactic(auto, using(crate::proofs::Appending::appending))]
    fn write(&self, out: &mut Vec<u8>) -> Result<(), AllocError> {
        self.0.write(out)?;
        self.1.write(out)
    }

    fn text_len(&self) -> u64 {
        self.0.text_len().saturating_add(self.1.text_len())
    }
}

impl Spelled for Term {
    ghost text = { term };

    #[tactic(auto, using(crate::proofs::Appending::appending))]
    fn write(&self, out: &mut Vec<u8>) -> Result<(), AllocError> {
        self.0.write(out)?;
        self.1.write(out)
    }

    fn text_len(&self) -> u64 {
        self.0.text_len().saturating_add(self.1.text_len())
    }
}

impl Spelled for Multiple {
    ghost text = { multiple };

    #[tactic(auto, using(crate::proofs::Appending::appending))]
    fn write(&self, out: &mut Vec<u8>) -> Result<(), AllocError> {
        self.0.write(out)?;
        self.1.write(out)
    }

    fn text_len(&self) -> u64 {
        self.0.text_len().saturating_add(self.1.text_len())
    }
}

/// How many items there are, and then each.
impl<T: Spelled> Spelled for Sequence<T> {
    ghost text = { λ items. counted T.text items };

    #[tactic(auto, using(crate::proofs::Appending::appending), unfolding(crate::specs::Spelling::counted))]
    fn write(&self, out: &mut Vec<u8>) -> Result<(), AllocError> {
        let items = self.as_slice();
        write_number(items.len() as u64, out)?;
        for item in items {
            item.write(out)?;
        }
        Ok(())
    }

    #[tactic(auto, unfolding(crate::specs::Spelling::counted))]
    fn text_len(&self) -> u64 {
        let items = self.as_slice();
        let mut total = number_len(items.len() as u64);
        for item in items {
            total = total.saturating_add(item.text_len());
        }
        total
    }
}
