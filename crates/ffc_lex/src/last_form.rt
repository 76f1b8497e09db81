//! The last form that a lexer gave, whose tokens may still be asked for as they are written.
ghost use Rattle.std.specs.Prelude.{◌≡◌, ℕ, ◌+◌, ◌-◌, ◌<◌, ◌≤◌, List, length, take, drop, OnOk, OnErr};
ghost use Rattle.ffc_lex.specs.Kept.{IsBeside};

use std::alloc::{AllocError, Global};

/// Where the form is in the text, and its bytes once the window has dropped them.
#[derive(Drop)]
pub(crate) struct LastForm {
    pub(crate) start: u64,
    pub(crate) end: u64,
    pub(crate) bytes: Vec<u8>,
}

impl LastForm {
    /// Copies the form out of the window, so that the window may let it go.
    pub(crate) fn set_aside(
        &mut self,
        alloc: Global,
        window: &[u8],
        kept: u64,
    ) -> Result<(), AllocError>
        requires order { self.old.start ≤ self.old.end }
        requires within { self.old.end ≤ kept + length window.now }
        ensures start { self.new.start ≡ self.old.start }
        ensures end { self.new.end ≡ self.old.end }
        ensures bytes { OnOk result ((text : List ℕ) → window.now ≡ drop kept text
            → IsBeside text kept self.old.bytes.items self.old.start self.old.end
            → self.new.bytes.items ≡ take (self.old.end - self.old.start) (drop self.old.start text)) }
        ensures err { OnErr result (self.new ≡ self.old) }
    {
        if self.start < kept {
            return Ok(());
        }
        let form = part(
            window,
            (self.start - kept) as usize,
            (self.end - self.start) as usize,
        );
        self.bytes = Vec::from_slice(alloc, form)?;
        Ok(())
    }

    /// So many bytes of the form, from this place of the text on.
    pub(crate) fn bytes_at<'a>(
        &'a self,
        window: &'a [u8],
        kept: u64,
        start: u64,
        count: u64,
    ) -> &'a [u8]
        requires from { self.now.start ≤ start }
        requires to { start + count ≤ self.now.end }
        requires beside { self.now.start < kept → length self.now.bytes.items ≡ self.now.end - self.now.start }
        requires within { self.now.end ≤ kept + length window.now }
        ensures { (text : List ℕ) → window.now ≡ drop kept text → IsBeside text kept self.now.bytes.items self.now.start
            self.now.end
            → result.now ≡ take count (drop start text) }
    {
        if self.start < kept {
            part(&self.bytes, (start - self.start) as usize, count as usize)
        } else {
            part(window, (start - kept) as usize, count as usize)
        }
    }
}

/// So many of the bytes from `start` on.
fn part(bytes: &[u8], start: usize, count: usize) -> &[u8]
    requires { start + count ≤ length bytes.now }
    ensures { result.now ≡ take count (drop start bytes.now) }
{
    &bytes[start..start + count]
}
