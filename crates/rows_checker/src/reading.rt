//! Texts that are read in pieces of several kinds.
use crate::certificates::{Manner, Shown, entry};
use crate::commands::{Finding, MALFORMED, say};
use crate::lexing::{fault, tokens};
use crate::pieces::{Cut, Pieces, cuts};
use crate::texts::append;
use std::alloc::{AllocError, Global};

#[derive(Clone, Copy)]
pub(crate) enum ReadCommand {
    Fault,
    Tokens,
    EachHigh,
    Certificate(Manner),
}

pub(crate) const READ_COMMANDS: [(&str, ReadCommand); 7] = [
    ("fault", ReadCommand::Fault),
    ("tokens", ReadCommand::Tokens),
    ("fault-each", ReadCommand::EachHigh),
    (
        "read",
        ReadCommand::Certificate(Manner {
            bits: false,
            shown: Shown::Written,
        }),
    ),
    (
        "show",
        ReadCommand::Certificate(Manner {
            bits: false,
            shown: Shown::Parts,
        }),
    ),
    (
        "read-bits",
        ReadCommand::Certificate(Manner {
            bits: true,
            shown: Shown::Written,
        }),
    ),
    (
        "show-bits",
        ReadCommand::Certificate(Manner {
            bits: true,
            shown: Shown::Parts,
        }),
    ),
];

/// Findings one after another, of which one that is as the one before it is left out.
#[derive(Drop)]
struct Findings {
    all: String,
    last: String,
}

impl Findings {
    fn new(alloc: Global) -> Findings {
        Findings {
            all: String::new(alloc),
            last: String::new(alloc),
        }
    }

    fn add(&mut self, finding: String) -> Result<(), AllocError> {
        if finding != self.last {
            self.all.push_str(finding.as_str())?;
            self.all.push('\n')?;
            self.last = finding;
        }
        Ok(())
    }
}

/// What is found in a text in pieces.
fn found(alloc: Global, command: ReadCommand, text: &[u8], cut: Cut) -> Finding {
    match command {
        ReadCommand::Fault | ReadCommand::EachHigh => fault(alloc, text, cut),
        ReadCommand::Tokens => tokens(alloc, text, cut),
        ReadCommand::Certificate(manner) => entry(alloc, text, cut, manner),
    }
}

/// Adds what is found in a text in pieces of each kind.
fn add(
    alloc: Global,
    findings: &mut Findings,
    command: ReadCommand,
    text: &[u8],
    pieces: &Pieces,
) -> Result<(), AllocError> {
    for cut in cuts(alloc, pieces, text.len())? {
        findings.add(found(alloc, command, text, cut)?)?;
    }
    Ok(())
}

/// The text with a byte in place of each asterisk.
fn with_byte(alloc: Global, text: &[u8], byte: u8) -> Result<Vec<u8>, AllocError> {
    let mut with = Vec::new(alloc);
    for written in text {
        with.push(if *written == b'*' { byte } else { *written })?;
    }
    Ok(with)
}

/// Adds what is found in a text with each byte past ASCII in place of its asterisks.
fn add_each(
    alloc: Global,
    findings: &mut Findings,
    text: &[u8],
    pieces: &Pieces,
) -> Result<(), AllocError> {
    for byte in 128..=255 {
        let with = with_byte(alloc, text, byte)?;
        add(alloc, findings, ReadCommand::EachHigh, &with, pieces)?;
    }
    Ok(())
}

/// What is found in a text in pieces of each kind, once where it is always the same.
fn found_in(alloc: Global, command: ReadCommand, text: &[u8], pieces: &Pieces) -> Finding {
    let mut findings = Findings::new(alloc);
    match command {
        ReadCommand::EachHigh => add_each(alloc, &mut findings, text, pieces)?,
        _ => add(alloc, &mut findings, command, text, pieces)?,
    }
    Ok(findings.all)
}

/// Reads the text that follows a command or, where there is none, the one that was built up.
pub(crate) fn read_row(
    alloc: Global,
    command: ReadCommand,
    text: &[u8],
    pieces: &Pieces,
    rest: &str,
) -> Finding {
    if rest.is_empty() {
        return found_in(alloc, command, text, pieces);
    }
    let mut own = Vec::new(alloc);
    if append(&mut own, rest)? {
        found_in(alloc, command, &own, pieces)
    } else {
        say(alloc, MALFORMED)
    }
}
