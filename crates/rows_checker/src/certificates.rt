//! Texts of certificates of one entry: the entry as it is written again, or the text's fault.
ghost use Rattle.std.specs.Prelude.{◌≡◌, ◌⊎◌, false};
ghost use Rattle.ffc_cert.specs.WellFormed.{FitsVersion, IsReadableIn};

use crate::commands::{Finding, say};
use crate::pieces::Cut;
use ffc_cert::{CertReader, CertStop, Entry, Numbered, text_len, write_entry};
use std::alloc::{AllocError, Global};
use std::str;

/// An entry as it is written again: the length that is stated of its text, and the text.
#[derive(Drop)]
struct Written {
    length: u64,
    text: Vec<u8>,
}

/// An entry that a reader gave.
#[derive(Drop)]
struct Given {
    numbered: Numbered,
    written: Written,
}

/// A reader of a text that has not ended.
#[derive(Drop)]
struct OpenReader {
    reader: CertReader,
    ghost open: { reader.finished ≡ false },
}

/// What a reader found so far.
#[derive(Drop)]
struct Taken {
    version: Option<u8>,
    entry: Option<Given>,
}

impl OpenReader {
    fn new(alloc: Global, bits: bool) -> OpenReader {
        OpenReader {
            reader: CertReader::new(alloc, 1, bits),
        }
    }

    fn feed(&mut self, piece: &[u8], taken: &mut Taken) -> Result<(), CertStop> {
        let fed = self.reader.feed(piece);
        taken.version = self.reader.version();
        fed
    }

    /// Takes the next entry, if it is whole, and writes it again.
    fn take_entry(&mut self, alloc: Global, taken: &mut Taken) -> Result<(), CertStop> {
        let version = self.reader.version();
        if let Some(numbered) = self.reader.next_entry()? {
            let written = write_again(alloc, version, &numbered.entry)?;
            taken.entry = Some(Given { numbered, written });
        }
        Ok(())
    }

    /// Ends the text, where no whole entry is left.
    fn end(self) -> Result<(), CertStop> {
        let OpenReader { mut reader } = self;
        match reader.next_entry()? {
            Some(_) => Ok(()),
            None => reader.finish(),
        }
    }
}

/// The text of an entry in a version.
fn write_in(alloc: Global, version: u8, entry: &Entry) -> Result<Written, AllocError>
    requires version { (version ≡ 1) ⊎ ((version ≡ 2) ⊎ (version ≡ 3)) }
    requires fits { FitsVersion version entry.now }
{
    let mut text = Vec::new(alloc);
    let length = text_len(version, entry);
    write_entry(alloc, version, entry, &mut text)?;
    Ok(Written { length, text })
}

/// The text of an entry that a reader gave in this version.
fn write_again(alloc: Global, version: Option<u8>, entry: &Entry) -> Result<Written, AllocError>
    requires { IsReadableIn version entry.now }
{
    match version {
        Some(1) => write_in(alloc, 1, entry),
        Some(2) => write_in(alloc, 2, entry),
        Some(3) => write_in(alloc, 3, entry),
        _ => Ok(Written {
            length: 0,
            text: Vec::new(alloc),
        }),
    }
}

/// Feeds a piece, takes an entry that is whole, and judges what comes after it.
fn take_piece(
    alloc: Global,
    reader: &mut OpenReader,
    piece: &[u8],
    taken: &mut Taken,
) -> Result<(), CertStop> {
    reader.feed(piece, taken)?;
    reader.take_entry(alloc, taken)?;
    reader.take_entry(alloc, taken)
}

/// Reads a text of one entry in pieces, of version 3 only with bits.
fn read(
    alloc: Global,
    bits: bool,
    text: &[u8],
    cut: Cut,
    taken: &mut Taken,
) -> Result<(), CertStop> {
    let (front, back) = text.split_at(cut.first.min(text.len()));
    let mut reader = OpenReader::new(alloc, bits);
    take_piece(alloc, &mut reader, front, taken)?;
    for piece in back.chunks(cut.later.max(1)) {
        take_piece(alloc, &mut reader, piece, taken)?;
    }
    reader.end()
}

/// What is said of an entry, where these bytes are what was read.
#[derive(Clone, Copy)]
pub(crate) enum Shown {
    Written,
    Parts,
}

/// How a text is read and shown.
#[derive(Clone, Copy)]
pub(crate) struct Manner {
    /// Whether version 3 is read.
    pub(crate) bits: bool,
    pub(crate) shown: Shown,
}

/// The length of an entry's text, and the text where it is not this one.
fn compared(alloc: Global, written: &Written, text: &[u8]) -> Finding {
    let length = written.length;
    if written.text.as_slice() == text {
        format!(in alloc; "{length} bytes as they are written")
    } else {
        let other = str::from_utf8(written.text.as_slice()).unwrap_or("?");
        format!(in alloc; "{length} bytes, but they are written\n{other}")
    }
}

fn described(alloc: Global, given: &Given, text: &[u8], shown: Shown) -> Finding {
    let number = given.numbered.number;
    let line = given.numbered.first_line;
    let entry = &given.numbered.entry;
    let said = match shown {
        Shown::Written => compared(alloc, &given.written, text)?,
        Shown::Parts => format!(in alloc; "{entry:?}")?,
    };
    format!(in alloc; "entry {number}, line {line}: {said}")
}

/// The bytes of a text after its first line, where the line names a version.
fn after_header(text: &[u8]) -> &[u8] {
    match text {
        [_, _, _, _, _, _, _, _, _, rest @ ..] => rest,
        _ => text,
    }
}

/// What is read of a text of one entry in pieces: the entry or the fault.
fn found(alloc: Global, text: &[u8], cut: Cut, manner: Manner, taken: &mut Taken) -> Finding {
    match read(alloc, manner.bits, text, cut, taken) {
        Err(stop) => format!(in alloc; "{stop}"),
        Ok(()) => match &taken.entry {
            Some(given) => described(alloc, given, after_header(text), manner.shown),
            None => say(alloc, "no entry"),
        },
    }
}

/// What is read of a text of one entry in pieces, after the version that its first line names.
pub(crate) fn entry(alloc: Global, text: &[u8], cut: Cut, manner: Manner) -> Finding {
    let mut taken = Taken {
        version: None,
        entry: None,
    };
    let found = found(alloc, text, cut, manner, &mut taken)?;
    match taken.version {
        Some(version) => format!(in alloc; "version {version}, {found}"),
        None => format!(in alloc; "no version, {found}"),
    }
}
