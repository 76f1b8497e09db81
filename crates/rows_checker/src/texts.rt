//! Texts of rows: pieces with escapes, built up piece by piece.
use crate::commands::{Finding, MALFORMED, say, split_row};
use std::alloc::{AllocError, Global};

fn digit(byte: u8) -> Option<u8> {
    match byte {
        b'0'..=b'9' => Some(byte - b'0'),
        b'a'..=b'f' => Some(byte - b'a' + 10),
        _ => None,
    }
}

/// The byte that an escape stands for, by what comes after its backslash, and the bytes after the escape.
fn escaped(part: &[u8]) -> Option<(u8, &[u8])> {
    match part {
        [b'n', rest @ ..] => Some((b'\n', rest)),
        [b'r', rest @ ..] => Some((b'\r', rest)),
        [b't', rest @ ..] => Some((b'\t', rest)),
        [b's', rest @ ..] => Some((b' ', rest)),
        [b'x', high, low, rest @ ..] => match (digit(*high), digit(*low)) {
            (Some(high), Some(low)) => Some((high << 4 | low, rest)),
            _ => None,
        },
        _ => None,
    }
}

/// Appends what an escape and the bytes after it stand for, by what comes after its backslash. Returns whether it is one.
fn append_escaped(text: &mut Vec<u8>, part: &[u8]) -> Result<bool, AllocError> {
    match escaped(part) {
        Some((byte, rest)) => {
            text.push(byte)?;
            text.extend_from_slice(rest)?;
            Ok(true)
        }
        None => Ok(false),
    }
}

/// Appends what is written, or returns false where an escape is unknown.
pub(crate) fn append(text: &mut Vec<u8>, written: &str) -> Result<bool, AllocError> {
    let mut parts = written.split('\\');
    if let Some(first) = parts.next() {
        text.extend_from_slice(first.as_bytes())?;
    }
    for part in parts {
        if !append_escaped(text, part.as_bytes())? {
            return Ok(false);
        }
    }
    Ok(true)
}

/// Appends what is written so many times.
fn repeat(
    alloc: Global,
    text: &mut Vec<u8>,
    times: u64,
    written: &str,
) -> Result<bool, AllocError> {
    let mut once = Vec::new(alloc);
    if !append(&mut once, written)? {
        return Ok(false);
    }
    for _ in 0..times {
        text.extend_from_slice(&once)?;
    }
    Ok(true)
}

#[derive(Clone, Copy)]
pub(crate) enum TextCommand {
    Line,
    Append,
    Repeat,
}

pub(crate) const TEXT_COMMANDS: [(&str, TextCommand); 3] = [
    ("|", TextCommand::Line),
    ("append", TextCommand::Append),
    ("repeat", TextCommand::Repeat),
];

fn append_line(text: &mut Vec<u8>, written: &str) -> Result<bool, AllocError> {
    let known = append(text, written)?;
    text.push(b'\n')?;
    Ok(known)
}

fn repeat_row(alloc: Global, text: &mut Vec<u8>, rest: &str) -> Result<bool, AllocError> {
    let (times, written) = split_row(rest);
    match times.parse::<u64>() {
        Ok(times) => repeat(alloc, text, times, written),
        Err(_) => Ok(false),
    }
}

/// Builds up a text by a row.
pub(crate) fn text_row(
    alloc: Global,
    text: &mut Vec<u8>,
    command: TextCommand,
    rest: &str,
) -> Finding {
    let known = match command {
        TextCommand::Line => append_line(text, rest),
        TextCommand::Append => append(text, rest),
        TextCommand::Repeat => repeat_row(alloc, text, rest),
    };
    if known? {
        Ok(String::new(alloc))
    } else {
        say(alloc, MALFORMED)
    }
}
