//! Certificates with one entry.
ghost use Rattle.std.specs.Prelude.{IfSome};
ghost use Rattle.ffc_check.specs.Judged.{IsReadableEntry};

use ffc_cert::{CertReader, Entry};
use std::alloc::Global;

/// The entry of a certificate that has one.
pub(crate) fn entry_of(alloc: Global, text: &[u8]) -> Option<Entry>
    ensures { IfSome result IsReadableEntry }
{
    let mut reader = CertReader::new(alloc, 1, true);
    if reader.feed(text).is_err() {
        return None;
    }
    match reader.next_entry() {
        Ok(Some(read)) => Some(read.entry),
        _ => None,
    }
}
