//! Standard input and standard output.
//!
//! These adapters are a trusted edge. They tell nothing of content, so no clause says which bytes come from or go to
//! the system; what is proved is that just the calls that fail are counted.
ghost use Rattle.std.specs.Io.KnownBytes.{Keeps, Appends as Grows};
ghost use Rattle.std.specs.Prelude.{◌≡◌, ℕ, ◌≤◌, ◌⊎◌, [], length, take, IfOk, IfErr, OnOk, OnErr, Option, None};
ghost use Rattle.ffc_base.specs.Counts.{counted};
ghost use Rattle.ffc_base.specs.Outside.{Appends, AppendsPrefix};

use crate::faults::Faults;
use crate::outside::{Failed, Sink, Source, WriteStop};
use std::io::{self, ErrorKind, Read, Write};
use std::marker::Model;

/// Standard input as a source: a trusted edge, which tells nothing of what is left.
///
/// A program makes it of `rt.reader()`; any other reader serves too. To a contract it is its count of faults.
#[derive(Drop)]
pub struct StdSource<R: Read + Drop> {
    reader: R,
    faults: Faults,
}

impl<R: Read + Drop> Model for StdSource<R> {
    ghost Value = { ℕ };

    ghost view = { λ s. s.faults };

    ghost invariant = { λ s. s.faults ≤ 18446744073709551615 };
}

impl<R: Read + Drop> StdSource<R> {
    /// A source of what this reader gives.
    pub fn new(reader: R) -> Self
        ensures { ⟦<StdSource<R> as Source>⟧.faults result ≡ 0 }
    {
        StdSource {
            reader,
            faults: Faults::none(),
        }
    }

    /// How many calls failed.
    pub fn faults(&self) -> u64
        ensures { result ≡ self.now }
    {
        self.faults.count()
    }

    /// Why the last call failed that did.
    pub fn failure(&self) -> Option<&io::Error> {
        self.faults.last()
    }
}

impl<R: Read + Drop> Source for StdSource<R> {
    ghost left = { λ _. None };

    ghost faults = { λ s. s };

    fn read(&mut self, buf: &mut [u8]) -> Result<usize, Failed>
        ensures within { IfOk result (λ n. n ≤ length buf.old) }
        ensures in_range { self.old ≤ 18446744073709551615 }
        ensures steady { OnOk result (self.new ≡ self.old) }
        ensures risen { OnErr result (self.new ≡ counted self.old) }
    {
        match read_some(&mut self.reader, buf) {
            Ok(count) => Ok(count),
            Err(error) => {
                self.faults.add(error);
                Err(Failed)
            }
        }
    }
}

/// Reads once, and again where the read was interrupted.
pub(crate) fn read_some<R: Read>(reader: &mut R, buf: &mut [u8]) -> io::Result<usize>
    ensures { IfOk result (λ n. n ≤ length buf.old) }
{
    for _ in 0..u64::MAX {
        match reader.read(buf) {
            Ok(count) => return Ok(count),
            Err(error) if error.kind() == ErrorKind::Interrupted => {}
            Err(error) => return Err(error),
        }
    }
    Err(io::Error::from(ErrorKind::Interrupted))
}

/// Standard output as a sink: a trusted edge, which tells nothing of what it holds.
///
/// A program makes it of `std::io::writer(&rt)`; any other writer serves too. To a contract it is its count of faults.
#[derive(Drop)]
pub struct StdSink<W: Write + Drop> {
    writer: W,
    faults: Faults,
}

impl<W: Write + Drop> Model for StdSink<W> {
    ghost Value = { ℕ };

    ghost view = { λ s. s.faults };

    ghost invariant = { λ s. s.faults ≤ 18446744073709551615 };
}

impl<W: Write + Drop> StdSink<W> {
    /// A sink of what goes to this writer.
    pub fn new(writer: W) -> Self
        ensures { ⟦<StdSink<W> as Sink>⟧.faults result ≡ 0 }
    {
        StdSink {
            writer,
            faults: Faults::none(),
        }
    }

    /// How many calls failed.
    pub fn faults(&self) -> u64
        ensures { result ≡ self.now }
    {
        self.faults.count()
    }

    /// Why the last call failed that did.
    pub fn failure(&self) -> Option<&io::Error> {
        self.faults.last()
    }
}

impl<W: Write + Drop> Sink for StdSink<W> {
    ghost holds = { λ _. None };

    ghost name = { λ _. None };

    ghost faults = { λ s. s };

    fn write(&mut self, bytes: &[u8]) -> Result<(), WriteStop>
        ensures in_range { self.old ≤ 18446744073709551615 }
        ensures steady { OnOk result (self.new ≡ self.old) }
        ensures risen { OnErr result (self.new ≡ counted self.old) }
        ensures stop { IfErr result (λ stop. stop ≡ WriteStop.Failed) }
    {
        match write_whole(&mut self.writer, bytes) {
            Ok(()) => Ok(()),
            Err(error) => {
                self.faults.add(error);
                Err(WriteStop::Failed)
            }
        }
    }
}

/// Writes once, and says how many bytes were taken: none where the write was interrupted. A write that takes none is a fault.
fn write_some<W: Write>(writer: &mut W, bytes: &[u8]) -> io::Result<usize>
    ensures within { IfOk result (λ n. n ≤ length bytes.now) }
    ensures ok { IfOk result (λ n. Grows (W.contents writer.old) (W.contents writer.new) (take n bytes.now)
        ⊎ ((n ≡ 0) × Keeps (W.contents writer.old) (W.contents writer.new))) }
    ensures err { OnErr result (Keeps (W.contents writer.old) (W.contents writer.new)
        ⊎ Grows (W.contents writer.old) (W.contents writer.new) []) }
{
    match writer.write(bytes) {
        Ok(0) => Err(io::Error::from(ErrorKind::WriteZero)),
        Ok(count) => Ok(count),
        Err(error) if error.kind() == ErrorKind::Interrupted => Ok(0),
        Err(error) => Err(error),
    }
}

/// Writes until all the bytes are taken, and again where a write was interrupted. Where the writer tells what it holds, the bytes
/// stand after that; some first ones of them where it failed.
pub(crate) fn write_whole<W: Write>(writer: &mut W, bytes: &[u8]) -> io::Result<()>
    ensures ok { OnOk result (Appends bytes.now (W.contents writer.old) (W.contents writer.new)) }
    ensures err { OnErr result (AppendsPrefix bytes.now (W.contents writer.old) (W.contents writer.new)) }
{
    let mut left = bytes;
    for _ in 0..u64::MAX {
        if left.is_empty() {
            return Ok(());
        }
        let count = write_some(writer, left)?;
        left = &left[count..];
    }
    Err(io::Error::from(ErrorKind::Interrupted))
}
