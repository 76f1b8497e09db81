//! Scripts and certificates read whole.
ghost use Rattle.std.specs.Prelude.{◌≤◌, IfOk, vec_len};

use ffc_base::Source;
use std::alloc::Global;

/// How many bytes of a script are read: those that count, and one more.
pub const MOST_OF_SCRIPT: usize = 67_108_865;

/// How many bytes of a certificate are read.
pub const MOST_OF_CERT: usize = 4_294_967_296;

/// How many bytes are asked for at a time.
const PIECE: usize = 4096;

/// The bytes with which each certificate begins.
const CERT_START: &[u8] = b"ffcert ";

/// Why an input was not read.
#[derive(Clone, Copy, PartialEq, Eq)]
pub enum InputStop {
    /// A call of the source failed.
    Failed,
    /// Out of memory.
    Memory,
}

/// Reads a source to its end, or up to so many bytes.
pub fn read_whole<S: Source>(
    alloc: Global,
    source: &mut S,
    most: usize,
) -> Result<Vec<u8>, InputStop> {
    let mut text = Vec::new(alloc);
    let mut buffer = [0u8; PIECE];
    for _ in 0..u64::MAX {
        let room = PIECE.min(most.saturating_sub(text.len()));
        if room == 0 {
            break;
        }
        let Ok(count) = source.read(&mut buffer[..room]) else {
            return Err(InputStop::Failed);
        };
        if count == 0 {
            break;
        }
        if text.extend_from_slice(&buffer[..count]).is_err() {
            return Err(InputStop::Memory);
        }
    }
    Ok(text)
}

/// Whether what a file has may be overwritten by a certificate: nothing, or another certificate.
pub fn may_overwrite<S: Source>(alloc: Global, source: &mut S) -> Result<bool, InputStop> {
    let start = read_whole(alloc, source, CERT_START.len())?;
    Ok(start.is_empty() || start.as_slice() == CERT_START)
}
