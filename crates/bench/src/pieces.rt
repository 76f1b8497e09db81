//! Texts that are read in pieces.
use std::alloc::{AllocError, Global};

/// So many pieces of so many bytes.
#[derive(Clone, Copy)]
pub struct Pieces {
    pub count: u64,
    pub bytes: usize,
}

/// The pieces of a text of so many KiB.
pub fn pieces_of(kib: u32, bytes: u32) -> Pieces {
    let bytes = bytes.max(1);
    Pieces {
        count: u64::from(kib) * 1024 / u64::from(bytes),
        bytes: bytes as usize,
    }
}

/// A text so often that a piece of so many bytes may begin at any place of the first one.
pub fn repeated(alloc: Global, text: &[u8], bytes: usize) -> Result<Vec<u8>, AllocError> {
    let mut out = Vec::new(alloc);
    for _ in 0..(bytes / text.len().max(1)).saturating_add(2) {
        out.extend_from_slice(text)?;
    }
    Ok(out)
}

/// The piece of so many bytes from a place on.
pub fn piece(text: &[u8], start: usize, bytes: usize) -> &[u8] {
    let rest = &text[start.min(text.len())..];
    &rest[..bytes.min(rest.len())]
}
