//! The words that rows begin with, and the numbers after them.
use std::alloc::{AllocError, Global};

/// What a row is answered where it is written wrongly.
pub(crate) const MALFORMED: &str = "malformed";

/// What a row is answered where a library call asks for more than it gives.
pub(crate) const UNFIT: &str = "not what the call requires";

pub(crate) const OUT_OF_MEMORY: &str = "out of memory";

/// What a row is answered: nothing where the text is empty.
pub(crate) type Finding = Result<String, AllocError>;

/// A finding in fixed words.
pub(crate) fn say(alloc: Global, words: &str) -> Finding {
    String::from_str(alloc, words)
}

/// Appends a word after a space, or the first word.
pub(crate) fn add_word(words: &mut String, word: &str) -> Result<(), AllocError> {
    if !words.is_empty() {
        words.push(' ')?;
    }
    words.push_str(word)
}

/// The command of this name.
pub(crate) fn command_of<C: Copy>(commands: &[(&str, C)], name: &str) -> Option<C> {
    for (known, command) in commands {
        if *known == name {
            return Some(*command);
        }
    }
    None
}

/// A row's first word, and what comes after one space.
pub(crate) fn split_row(row: &str) -> (&str, &str) {
    row.split_once(' ').unwrap_or((row, ""))
}

/// The numbers of a row, where it has nothing else.
pub(crate) fn numbers(alloc: Global, text: &str) -> Result<Option<Vec<u64>>, AllocError> {
    let mut found = Vec::new(alloc);
    for word in text.split_ascii_whitespace() {
        match word.parse::<u64>() {
            Ok(number) => found.push(number)?,
            Err(_) => return Ok(None),
        }
    }
    Ok(Some(found))
}
