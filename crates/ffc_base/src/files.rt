//! Files, found by name.
//!
//! These adapters are a trusted edge. They tell nothing of content, so no clause says which bytes come from or go to
//! the system; what is proved is that just the calls that fail are counted.
ghost use Rattle.std.specs.Prelude.{◌≡◌, ℕ, ◌≤◌, length, IfOk, IfErr, OnOk, OnErr, Option, Some, None};
ghost use Rattle.ffc_base.specs.Counts.{counted};

use crate::faults::Faults;
use crate::outside::{Failed, NamedSink, NamedSource, Sink, Source, WriteStop};
use crate::standard::{read_some, write_whole};
use crate::text::GhostText;
use std::fs;
use std::io::{self, ErrorKind};
use std::marker::Model;
use std::rt::Files;

/// A file as a source: a trusted edge, which tells nothing of what is left or of what a name holds.
///
/// It is made before a file is open. `open_named` opens the file of a name, and a read before that is a fault. To a
/// contract it is its count of faults.
#[derive(Drop)]
pub struct FileSource<'a, R: Files> {
    files: &'a R,
    file: Option<R::File>,
    faults: Faults,
}

impl<'a, R: Files> Model for FileSource<'a, R> {
    ghost Value = { ℕ };

    ghost view = { λ s. s.faults };

    ghost invariant = { λ s. s.faults ≤ 18446744073709551615 };
}

impl<'a, R: Files> FileSource<'a, R> {
    /// A source that has no file yet.
    pub fn new(files: &'a R) -> Self
        ensures { ⟦<FileSource<'a, R> as Source>⟧.faults result ≡ 0 }
    {
        FileSource {
            files,
            file: None,
            faults: Faults::none(),
        }
    }

    /// How many calls failed.
    pub fn faults(&self) -> u64
        ensures { result ≡ self.now }
    {
        self.faults.count()
    }

    /// Why the last call failed that did.
    pub fn failure(&self) -> Option<&io::Error> {
        self.faults.last()
    }

    fn read_from_file(&mut self, buf: &mut [u8]) -> io::Result<usize>
        ensures within { IfOk result (λ n. n ≤ length buf.old) }
        ensures kept { self.new ≡ self.old }
    {
        match &mut self.file {
            Some(file) => read_some(file, buf),
            None => Err(io::Error::from(ErrorKind::NotFound)),
        }
    }
}

impl<'a, R: Files> Source for FileSource<'a, R> {
    ghost left = { λ _. None };

    ghost faults = { λ s. s };

    fn read(&mut self, buf: &mut [u8]) -> Result<usize, Failed>
        ensures within { IfOk result (λ n. n ≤ length buf.old) }
        ensures in_range { self.old ≤ 18446744073709551615 }
        ensures steady { OnOk result (self.new ≡ self.old) }
        ensures risen { OnErr result (self.new ≡ counted self.old) }
    {
        match self.read_from_file(buf) {
            Ok(count) => Ok(count),
            Err(error) => {
                self.faults.add(error);
                Err(Failed)
            }
        }
    }
}

impl<'a, R: Files> NamedSource for FileSource<'a, R> {
    ghost contents = { λ _ _. None };

    fn open_named(&mut self, name: &str) -> Result<(), WriteStop>
        ensures in_range { self.old ≤ 18446744073709551615 }
        ensures steady { OnOk result (self.new ≡ self.old) }
        ensures risen { OnErr result (self.new ≡ counted self.old) }
        ensures stop { IfErr result (λ stop. stop ≡ WriteStop.Failed) }
    {
        let file = match fs::open(self.files, name) {
            Ok(file) => file,
            Err(error) => {
                self.faults.add(error);
                return Err(WriteStop::Failed);
            }
        };
        self.file = Some(file);
        Ok(())
    }
}

/// A file as a sink: a trusted edge, which tells nothing of what it holds.
///
/// It is made before there is a file. `create` makes the file of a name, or empties it, and a write before that is a
/// fault. To a contract it is its count of faults, and the name of its file.
#[derive(Drop)]
pub struct FileSink<'a, R: Files> {
    files: &'a R,
    file: Option<R::File>,
    name: GhostText,
    faults: Faults,
}

impl<'a, R: Files> Model for FileSink<'a, R> {
    ghost use Rattle.std.specs.Prelude.{◌≤◌};
    ghost use Rattle.ffc_base.specs.Files.{FileState};

    ghost Value = { FileState };

    ghost view = { λ s. record { name = s.name.bytes; faults = s.faults } };

    ghost invariant = { λ s. s.faults ≤ 18446744073709551615 };
}

impl<'a, R: Files> FileSink<'a, R> {
    /// A sink that has no file yet.
    pub fn new(files: &'a R) -> Self
        ensures { ⟦<FileSink<'a, R> as Sink>⟧.faults result ≡ 0 }
    {
        FileSink {
            files,
            file: None,
            name: GhostText::new(),
            faults: Faults::none(),
        }
    }

    /// How many calls failed.
    pub fn faults(&self) -> u64
        ensures { result ≡ self.now.faults }
    {
        self.faults.count()
    }

    /// Why the last call failed that did.
    pub fn failure(&self) -> Option<&io::Error> {
        self.faults.last()
    }

    fn write_to_file(&mut self, bytes: &[u8]) -> io::Result<()>
        ensures { self.new ≡ self.old }
    {
        match &mut self.file {
            Some(file) => write_whole(file, bytes),
            None => Err(io::Error::from(ErrorKind::NotFound)),
        }
    }
}

impl<'a, R: Files> Sink for FileSink<'a, R> {
    ghost holds = { λ _. None };

    ghost name = { λ s. Some s.name };

    ghost faults = { λ s. s.faults };

    fn write(&mut self, bytes: &[u8]) -> Result<(), WriteStop>
        ensures in_range { self.old.faults ≤ 18446744073709551615 }
        ensures steady { OnOk result (self.new ≡ self.old) }
        ensures risen { OnErr result (self.new ≡ record self.old { faults = counted self.old.faults }) }
        ensures stop { IfErr result (λ stop. stop ≡ WriteStop.Failed) }
    {
        match self.write_to_file(bytes) {
            Ok(()) => Ok(()),
            Err(error) => {
                self.faults.add(error);
                Err(WriteStop::Failed)
            }
        }
    }
}

impl<'a, R: Files> NamedSink for FileSink<'a, R> {
    fn create(&mut self, name: &str) -> Result<(), WriteStop>
        ensures in_range { self.old.faults ≤ 18446744073709551615 }
        ensures steady { OnOk result (self.new ≡ record self.old { name = name.now }) }
        ensures risen { OnErr result (self.new ≡ record self.old { faults = counted self.old.faults }) }
        ensures stop { IfErr result (λ stop. stop ≡ WriteStop.Failed) }
    {
        let file = match fs::create(self.files, name) {
            Ok(file) => file,
            Err(error) => {
                self.faults.add(error);
                return Err(WriteStop::Failed);
            }
        };
        self.file = Some(file);
        self.name = named(name);
        Ok(())
    }
}

/// The text of a name.
fn named(name: &str) -> GhostText
    ensures { result.bytes ≡ name.now }
{
    let mut text = GhostText::new();
    text.append(name.as_bytes());
    text
}
