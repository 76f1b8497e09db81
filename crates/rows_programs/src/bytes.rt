//! Texts in which a backslash and two hexadecimal digits are a byte, and lines of bytes.
use std::alloc::{AllocError, Global};

const DIGITS: &[u8] = b"0123456789abcdef";

/// The value of a hexadecimal digit.
fn digit(letter: u8) -> Option<u8> {
    let place = DIGITS.iter().position(|known| *known == letter)?;
    u8::try_from(place).ok()
}

/// Appends what follows a backslash: the byte of two digits, and the rest as it is.
fn push_escaped(out: &mut Vec<u8>, text: &str) -> Result<bool, AllocError> {
    let [high, low, rest @ ..] = text.as_bytes() else {
        return Ok(false);
    };
    let (Some(high), Some(low)) = (digit(*high), digit(*low)) else {
        return Ok(false);
    };
    out.push(high.wrapping_mul(16).wrapping_add(low))?;
    out.extend_from_slice(rest)?;
    Ok(true)
}

/// Appends the bytes of a text, and says whether each backslash in it is before two digits.
pub(crate) fn push_text(out: &mut Vec<u8>, text: &str) -> Result<bool, AllocError> {
    let mut is_read = true;
    for (i, piece) in text.split('\\').enumerate() {
        if i == 0 {
            out.extend_from_slice(piece.as_bytes())?;
        } else if !push_escaped(out, piece)? {
            is_read = false;
        }
    }
    Ok(is_read)
}

/// Appends a byte as such a text shows it.
fn push_shown(out: &mut String, byte: u8) -> Result<(), AllocError> {
    if byte >= b' ' && byte <= b'~' && byte != b'\\' {
        out.push(char::from(byte))?;
    } else {
        write!(out, "\\{byte:02x}")?;
    }
    Ok(())
}

/// The bytes as lines, each with its mark: `|` where it has an end, and `+` where it has none.
pub(crate) fn shown(alloc: Global, bytes: &[u8]) -> Result<String, AllocError> {
    let mut out = String::new(alloc);
    for line in bytes.split_inclusive(|byte| *byte == b'\n') {
        let (mark, text) = match line {
            [text @ .., b'\n'] => ("| ", text),
            text => ("+ ", text),
        };
        out.push_str(mark)?;
        for byte in text {
            push_shown(&mut out, *byte)?;
        }
        out.push('\n')?;
    }
    Ok(out)
}
