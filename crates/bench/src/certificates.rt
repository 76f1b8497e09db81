//! Reads a certificate that repeats one entry, and counts its entries.
ghost use Rattle.std.specs.Prelude.{◌≡◌, false};

use crate::pieces::{Pieces, piece, repeated};
use ffc_cert::{CertReader, CertStop};
use std::alloc::Global;
use std::io;

const ENTRY: &[u8] = b"unsat 2\nf 5 1 -3\nc 1 0 1 1 1 3 2\nz\nr 1 +7 1 0\n";

/// Takes the entries that are whole, and counts them.
fn drain(reader: &mut CertReader, count: u64) -> Result<u64, CertStop>
    requires { reader.old.finished ≡ false }
    ensures { reader.new.finished ≡ false }
{
    let mut entries = count;
    'entries: for _ in 0..u64::MAX {
        if reader.next_entry()?.is_none() {
            return Ok(entries);
        }
        entries = entries.wrapping_add(1);
    }
    Ok(entries)
}

fn count_of_entries(alloc: Global, pieces: Pieces) -> Result<u64, CertStop> {
    let size = pieces.bytes;
    let text = repeated(alloc, ENTRY, size)?;
    let mut reader = CertReader::new(alloc, u64::from(u32::MAX), false);
    reader.feed(b"ffcert 2\n")?;
    let mut entries = 0;
    let mut start = 0;
    'pieces: for _ in 0..pieces.count {
        reader.feed(piece(text.as_slice(), start, size))?;
        entries = drain(&mut reader, entries)?;
        start = start.wrapping_add(size) % ENTRY.len();
    }
    Ok(entries)
}

/// Prints how many entries the pieces have after line 1.
pub fn run<R: Print>(rt: &R, alloc: Global, pieces: Pieces) -> io::Result<()> {
    match count_of_entries(alloc, pieces) {
        Ok(entries) => println!(rt; "{entries} entries"),
        Err(CertStop::Fault(_)) => println!(rt; "a fault"),
        Err(CertStop::Memory) => println!(rt; "out of memory"),
    }
}
