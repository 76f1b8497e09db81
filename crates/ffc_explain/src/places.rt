//! Places in a script as people look for them.
use crate::page::Page;

/// How many bytes of a line are shown.
const MOST_SHOWN: usize = 120;

/// How many bytes are shown before the place, where a line is cut.
const BEFORE: usize = 60;

/// How many bytes of what was met are shown.
const MOST_MET: usize = 48;

/// The line of this number, counted from 1, without its line feed. An absent line is empty.
pub(crate) fn line_at(text: &[u8], number: u64) -> &[u8] {
    let mut here = 1u64;
    for line in text.split(|byte| *byte == b'\n') {
        if here == number {
            return line;
        }
        here = here.saturating_add(1);
    }
    &[]
}

/// The bytes from a column on, which is counted from 1.
fn from_column(line: &[u8], column: u64) -> &[u8] {
    let skipped = column.saturating_sub(1).min(line.len() as u64) as usize;
    &line[skipped..]
}

/// Whether a word ends before this byte.
fn ends_word(byte: u8) -> bool {
    matches!(
        byte,
        b' ' | b'\t' | b'\r' | b'\n' | b'(' | b')' | b'"' | b'|' | b';'
    )
}

/// How long the word is that a text begins with.
fn word_length(text: &[u8]) -> usize {
    let mut length = 0usize;
    for byte in text {
        if ends_word(*byte) {
            break;
        }
        length = length.saturating_add(1);
    }
    length
}

/// How long the text is up to the second of two equal marks.
fn marked_length(text: &[u8], mark: u8) -> usize {
    let mut length = 1usize;
    for byte in text.iter().skip(1) {
        length = length.saturating_add(1);
        if *byte == mark {
            break;
        }
    }
    length
}

/// How long what a text begins with is: a word, a quoted text, or a parenthesis with the word after it.
fn met_length(text: &[u8]) -> usize {
    match text {
        [] => 0,
        [b'(', rest @ ..] => word_length(rest).saturating_add(1),
        [b'"', ..] => marked_length(text, b'"'),
        [b'|', ..] => marked_length(text, b'|'),
        _ => word_length(text).max(1),
    }
}

/// Writes what stands at a place, between quotation marks.
pub(crate) fn write_met(text: &[u8], line: u64, column: u64, page: &mut Page) {
    let rest = from_column(line_at(text, line), column);
    if rest.is_empty() {
        page.text("the end");
        return;
    }
    let length = met_length(rest).min(rest.len());
    page.text("'");
    page.bytes(&rest[..length.min(MOST_MET)]);
    page.text(if length > MOST_MET { "..'" } else { "'" });
}

/// Where the shown part of a line begins.
fn shown_from(line: &[u8], column: u64) -> usize {
    let place = column.saturating_sub(1).min(line.len() as u64) as usize;
    if line.len() <= MOST_SHOWN {
        0
    } else {
        place.saturating_sub(BEFORE)
    }
}

/// Writes space as wide as these bytes: tabs stay, and a character of many bytes is one space.
fn write_space(bytes: &[u8], page: &mut Page) {
    for byte in bytes {
        if *byte == b'\t' {
            page.text("\t");
        } else if *byte & 0xc0 != 0x80 {
            page.text(" ");
        }
    }
}

/// Writes a line of the script, cut where it is long, and a caret below the column.
pub(crate) fn write_line(text: &[u8], line: u64, column: u64, page: &mut Page) {
    let whole = line_at(text, line);
    let start = shown_from(whole, column).min(whole.len());
    let rest = &whole[start..];
    let shown = &rest[..rest.len().min(MOST_SHOWN)];
    page.text("    ");
    page.text(if start > 0 { ".." } else { "" });
    page.bytes(shown);
    page.text(if shown.len() < rest.len() {
        "..\n"
    } else {
        "\n"
    });
    let place = column.saturating_sub(1).min(whole.len() as u64) as usize;
    let width = place.saturating_sub(start).min(shown.len());
    page.text("    ");
    page.text(if start > 0 { "  " } else { "" });
    write_space(&shown[..width], page);
    page.text("^\n");
}
