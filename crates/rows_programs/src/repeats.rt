//! Texts that are repeated, with the number of the time in them.
use crate::bytes::push_text;
use std::alloc::{AllocError, Global};

/// Appends what follows an opening brace: a number by its name, and the rest as it is.
fn push_number(out: &mut String, text: &str, i: usize) -> Result<bool, AllocError> {
    let Some((name, rest)) = text.split_once('}') else {
        return Ok(false);
    };
    let number = match name {
        "i" => i,
        "i+1" => i.wrapping_add(1),
        _ => return Ok(false),
    };
    write!(out, "{number}{rest}")?;
    Ok(true)
}

/// The text with the numbers in its braces, where each brace has one.
fn numbered(alloc: Global, text: &str, i: usize) -> Result<Option<String>, AllocError> {
    let mut out = String::new(alloc);
    for (k, piece) in text.split('{').enumerate() {
        if k == 0 {
            out.push_str(piece)?;
        } else if !push_number(&mut out, piece, i)? {
            return Ok(None);
        }
    }
    Ok(Some(out))
}

/// Appends the text of one time.
fn push_numbered(
    alloc: Global,
    out: &mut Vec<u8>,
    text: &str,
    i: usize,
) -> Result<bool, AllocError> {
    match numbered(alloc, text, i)? {
        Some(text) => push_text(out, text.as_str()),
        None => Ok(false),
    }
}

/// Appends the same text so often. It is read once, since one of many million bytes is made of it.
fn push_same(
    alloc: Global,
    out: &mut Vec<u8>,
    text: &str,
    count: usize,
) -> Result<bool, AllocError> {
    let mut bytes = Vec::new(alloc);
    if !push_text(&mut bytes, text)? {
        return Ok(false);
    }
    for _ in 0..count {
        out.extend_from_slice(bytes.as_slice())?;
    }
    Ok(true)
}

/// Appends a text so often, and says whether it can be read.
pub(crate) fn push_times(
    alloc: Global,
    out: &mut Vec<u8>,
    text: &str,
    count: usize,
) -> Result<bool, AllocError> {
    if !text.contains('{') {
        return push_same(alloc, out, text, count);
    }
    for i in 0..count {
        if !push_numbered(alloc, out, text, i)? {
            return Ok(false);
        }
    }
    Ok(true)
}
