//! Changes of a script or a certificate, line by line.
use std::alloc::{AllocError, Global};

/// The first lines of a text, so many of them.
pub(crate) fn first_lines(alloc: Global, text: &[u8], count: usize) -> Result<Vec<u8>, AllocError> {
    let mut out = Vec::new(alloc);
    for line in text.split_inclusive(|byte| *byte == b'\n').take(count) {
        out.extend_from_slice(line)?;
    }
    Ok(out)
}

/// Appends a line in place of another one, with an end where that has one.
fn push_in_place(out: &mut Vec<u8>, old: &[u8], new: &[u8]) -> Result<(), AllocError> {
    out.extend_from_slice(new)?;
    if old.ends_with(b"\n") {
        out.push(b'\n')?;
    }
    Ok(())
}

/// The text with another line at this number, counted from 1, where it has one there.
pub(crate) fn with_line(
    alloc: Global,
    text: &[u8],
    number: usize,
    new: &[u8],
) -> Result<Option<Vec<u8>>, AllocError> {
    let mut out = Vec::new(alloc);
    let mut is_there = false;
    for (i, old) in text.split_inclusive(|byte| *byte == b'\n').enumerate() {
        if i.checked_add(1) == Some(number) {
            push_in_place(&mut out, old, new)?;
            is_there = true;
        } else {
            out.extend_from_slice(old)?;
        }
    }
    Ok(if is_there { Some(out) } else { None })
}
