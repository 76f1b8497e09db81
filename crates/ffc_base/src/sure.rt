//! A source and a sink in memory whose calls never fail.
ghost use Rattle.std.specs.Prelude.{◌≡◌, ℕ, ◌≤◌, List, [], ◌++◌, length, take, drop, min, Option, Some, Ok, IsOk, IfOk};
ghost use Rattle.std.specs.Prelude.{OnOk, OnErr, IfErr, None};
ghost use Rattle.ffc_base.specs.Contents.{Contents, left_of, advanced, rewound};

use crate::outside::{Failed, NamedSink, NamedSource, Sink, Source, WriteStop};
use crate::pieces::move_front;
use std::marker::Model;

/// Bytes in memory as a source. No call fails, and the count of faults is 0 throughout.
///
/// Every name refers to the one content: `open_named` begins it again.
#[derive(Debug, Drop)]
pub struct SureSource {
    bytes: Vec<u8>,
    position: usize,
}

impl Model for SureSource {
    ghost Value = { Contents };

    ghost view = { λ s. record { bytes = s.bytes.items; position = s.position } };

    ghost invariant = { λ s. s.position ≤ length s.bytes.items };
}

impl SureSource {
    /// A source of these bytes, of which none was read. It takes no memory.
    pub fn new(bytes: Vec<u8>) -> Self
        ensures fresh { result ≡ record { bytes = bytes.items; position = 0 } }
        ensures tells { ⟦<SureSource as Source>⟧.left result ≡ Some bytes.items }
    {
        SureSource { bytes, position: 0 }
    }
}

impl Source for SureSource {
    ghost left = { λ s. Some (left_of s) };

    ghost faults = { λ _. 0 };

    fn read(&mut self, buf: &mut [u8]) -> Result<usize, Failed>
        ensures given { result ≡ Ok (min (length buf.old) (length (left_of self.old))) }
        ensures copied { IfOk result (λ n. buf.new ≡ take n (left_of self.old) ++ drop n buf.old) }
        ensures moved { IfOk result (λ n. self.new ≡ advanced n self.old) }
    {
        let count = move_front(self.bytes.as_slice(), self.position, buf.len(), buf);
        self.position += count;
        Ok(count)
    }
}

impl NamedSource for SureSource {
    ghost contents = { λ s _. Some s.bytes };

    fn open_named(&mut self, _name: &str) -> Result<(), WriteStop>
        ensures sure { IsOk result }
        ensures opened { self.new ≡ rewound self.old }
    {
        self.position = 0;
        Ok(())
    }
}

/// Bytes in memory as a sink. No call fails, and the count of faults is 0 throughout; a write may want memory.
///
/// Every name refers to the one content: `create` empties it.
#[derive(Debug, Drop)]
pub struct SureSink {
    bytes: Vec<u8>,
}

impl Model for SureSink {
    ghost Value = { List ℕ };

    ghost view = { λ s. s.bytes.items };
}

impl SureSink {
    /// A sink that holds these bytes. It takes no memory.
    pub fn new(bytes: Vec<u8>) -> Self
        ensures fresh { result ≡ bytes.items }
        ensures tells { ⟦<SureSink as Sink>⟧.holds result ≡ Some bytes.items }
    {
        SureSink { bytes }
    }

    /// What it holds.
    pub fn bytes(&self) -> &[u8]
        ensures { result.now ≡ self.now }
    {
        self.bytes.as_slice()
    }
}

impl Sink for SureSink {
    ghost holds = { λ s. Some s };

    ghost name = { λ _. None };

    ghost faults = { λ _. 0 };

    fn write(&mut self, bytes: &[u8]) -> Result<(), WriteStop>
        ensures written { OnOk result (self.new ≡ self.old ++ bytes.now) }
        ensures memory { OnErr result (self.new ≡ self.old) }
        ensures stop { IfErr result (λ stop. stop ≡ WriteStop.Memory) }
    {
        match self.bytes.extend_from_slice(bytes) {
            Ok(()) => Ok(()),
            Err(_) => Err(WriteStop::Memory),
        }
    }
}

impl NamedSink for SureSink {
    fn create(&mut self, _name: &str) -> Result<(), WriteStop>
        ensures sure { IsOk result }
        ensures created { self.new ≡ [] }
    {
        self.bytes.clear();
        Ok(())
    }
}
