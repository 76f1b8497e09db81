//! Objects in memory that a run reads and writes, and which of their calls fail.
use crate::steps::{Object, Setting};
use ffc_base::{MemSink, MemSource};
use std::alloc::{AllocError, Global};

/// What the certificate's object and the output hold before a run.
pub(crate) const BEFORE: &[u8] = b"before";

/// How much a read of a certificate gives where a row does not say it, so that each row also has it in pieces.
const CERT_PIECE: usize = 3;

/// Calls that fail, by number, each with how much a failed write still writes.
type Fails = Vec<(u64, usize)>;

/// How the objects of a row differ from plain ones.
#[derive(Drop)]
pub(crate) struct Objects {
    alloc: Global,
    script_piece: usize,
    cert_piece: usize,
    script_fails: Fails,
    cert_fails: Fails,
    out_fails: Fails,
}

/// A call that fails, `N` or `N:P`.
fn failing_call(text: &str) -> Option<(u64, usize)> {
    let (number, prefix) = text.split_once(':').unwrap_or((text, "0"));
    Some((number.parse::<u64>().ok()?, prefix.parse::<usize>().ok()?))
}

/// The calls that a step lists.
fn failing_calls(alloc: Global, text: &str) -> Result<Option<Fails>, AllocError> {
    let mut fails = Vec::new(alloc);
    for word in text.split(' ') {
        let Some(call) = failing_call(word) else {
            return Ok(None);
        };
        fails.push(call)?;
    }
    Ok(Some(fails))
}

/// A source of these bytes in pieces, whose calls of these numbers fail.
fn source(
    alloc: Global,
    bytes: &[u8],
    piece: usize,
    fails: &[(u64, usize)],
) -> Result<MemSource, AllocError> {
    let mut numbers = Vec::new(alloc);
    for call in fails {
        numbers.push(call.0)?;
    }
    Ok(MemSource::new(bytes.to_vec(alloc)?, piece.max(1), numbers))
}

/// A sink that holds what is held before a run, whose calls of these numbers fail.
fn sink(alloc: Global, fails: &[(u64, usize)]) -> Result<MemSink, AllocError> {
    Ok(MemSink::new(BEFORE.to_vec(alloc)?, fails.to_vec(alloc)?))
}

/// Takes the size of pieces, and says whether it is one.
fn set_piece(piece: &mut usize, text: &str) -> bool {
    match text.parse::<usize>() {
        Ok(size) => {
            *piece = size;
            size > 0
        }
        Err(_) => false,
    }
}

impl Objects {
    /// Objects of which no call fails.
    pub(crate) fn new(alloc: Global) -> Objects {
        Objects {
            alloc,
            script_piece: usize::MAX,
            cert_piece: CERT_PIECE,
            script_fails: Vec::new(alloc),
            cert_fails: Vec::new(alloc),
            out_fails: Vec::new(alloc),
        }
    }

    pub(crate) fn script_source(&self, bytes: &[u8]) -> Result<MemSource, AllocError> {
        source(
            self.alloc,
            bytes,
            self.script_piece,
            self.script_fails.as_slice(),
        )
    }

    pub(crate) fn cert_source(&self, bytes: &[u8]) -> Result<MemSource, AllocError> {
        source(
            self.alloc,
            bytes,
            self.cert_piece,
            self.cert_fails.as_slice(),
        )
    }

    pub(crate) fn cert_sink(&self) -> Result<MemSink, AllocError> {
        sink(self.alloc, self.cert_fails.as_slice())
    }

    pub(crate) fn out_sink(&self) -> Result<MemSink, AllocError> {
        sink(self.alloc, self.out_fails.as_slice())
    }

    /// Takes the calls of an object that fail, and says whether they can be read.
    fn set_fails(&mut self, object: Object, text: &str) -> Result<bool, AllocError> {
        let Some(fails) = failing_calls(self.alloc, text)? else {
            return Ok(false);
        };
        match object {
            Object::Script => self.script_fails = fails,
            Object::Cert => self.cert_fails = fails,
            Object::Out => self.out_fails = fails,
        }
        Ok(true)
    }

    /// Takes what a step says of the objects, and says whether it can be read.
    pub(crate) fn set(&mut self, setting: Setting, text: &str) -> Result<bool, AllocError> {
        match setting {
            Setting::ScriptPiece => Ok(set_piece(&mut self.script_piece, text)),
            Setting::CertPiece => Ok(set_piece(&mut self.cert_piece, text)),
            Setting::Fails(object) => self.set_fails(object, text),
        }
    }
}
