//! A source and a sink in memory whose calls fail by number.
ghost use Rattle.std.specs.Prelude.{◌≡◌, ℕ, ◌<◌, ◌≤◌, ◌↔◌, List, [], ◌++◌, length, take, drop, min, Option, Some};
ghost use Rattle.std.specs.Prelude.{IsErr, IsSome, IsNone, IfOk, IfErr, IfSome, OnOk, OnErr, IsErrOf, None};
ghost use Rattle.ffc_base.specs.Contents.{left_of, advanced, rewound};
ghost use Rattle.ffc_base.specs.Failing.{SourceState, IsSourceState, NextFails, source_after_call, source_after_fault};
ghost use Rattle.ffc_base.specs.Failing.{SinkState, IsSinkState, next_prefix, sink_after_call, sink_after_fault};

use crate::outside::{Failed, NamedSink, NamedSource, Sink, Source, WriteStop};
use crate::pieces::move_front;
use std::marker::Model;

/// Bytes in memory as a source whose calls fail by number.
///
/// Calls of `read` and `open_named` are counted together, from 1; the count stays at 2^64 - 1 once it is there. Those
/// whose numbers are listed fail, and change the counts alone. Every name refers to the one content: `open_named`
/// begins it again.
#[derive(Debug, Drop)]
pub struct MemSource {
    bytes: Vec<u8>,
    position: usize,
    piece: usize,
    fails: Vec<u64>,
    calls: u64,
    faults: u64,
}

impl Model for MemSource {
    ghost Value = { SourceState };

    ghost view = { λ s. record {
      content = record { bytes = s.bytes.items; position = s.position };
      piece = s.piece;
      fails = s.fails.items;
      calls = s.calls;
      faults = s.faults;
    } };

    ghost invariant = { λ s. (s.position ≤ length s.bytes.items) × (0 < s.piece) };
}

impl MemSource {
    /// A source of these bytes that gives at most `piece` of them in one read, and whose calls of these numbers fail.
    pub fn new(bytes: Vec<u8>, piece: usize, fails: Vec<u64>) -> Self
        requires { 0 < piece }
        ensures fresh { result ≡ record {
          content = record { bytes = bytes.items; position = 0 };
          piece = piece;
          fails = fails.items;
          calls = 0;
          faults = 0;
        } }
        ensures tells { ⟦<MemSource as Source>⟧.left result ≡ Some bytes.items }
    {
        MemSource {
            bytes,
            position: 0,
            piece,
            fails,
            calls: 0,
            faults: 0,
        }
    }

    /// How many calls failed.
    pub fn faults(&self) -> u64
        ensures { result ≡ self.now.faults }
    {
        self.faults
    }

    /// Counts a call, and the fault where its number is listed.
    fn count_call(&mut self) -> Result<(), Failed>
        ensures valid { IsSourceState self.old }
        ensures listed { IsErr result ↔ NextFails self.old }
        ensures made { OnOk result (self.new ≡ source_after_call self.old) }
        ensures failed { OnErr result (self.new ≡ source_after_fault self.old) }
    {
        self.calls = self.calls.saturating_add(1);
        if self.fails.as_slice().contains(&self.calls) {
            self.faults = self.faults.saturating_add(1);
            return Err(Failed);
        }
        Ok(())
    }
}

impl Source for MemSource {
    ghost left = { λ s. Some (left_of s.content) };

    ghost faults = { λ s. s.faults };

    fn read(&mut self, buf: &mut [u8]) -> Result<usize, Failed>
        ensures valid { IsSourceState self.old }
        ensures listed { IsErr result ↔ NextFails self.old }
        ensures given { IfOk result (λ n.
            n ≡ min self.old.piece (min (length buf.old) (length (left_of self.old.content)))) }
        ensures copied { IfOk result (λ n. buf.new ≡ take n (left_of self.old.content) ++ drop n buf.old) }
        ensures moved { IfOk result (λ n.
            self.new ≡ record (source_after_call self.old) { content = advanced n self.old.content }) }
        ensures failed { OnErr result (self.new ≡ source_after_fault self.old) }
        ensures untouched { OnErr result (buf.new ≡ buf.old) }
    {
        self.count_call()?;
        let count = move_front(self.bytes.as_slice(), self.position, self.piece, buf);
        self.position += count;
        Ok(count)
    }
}

impl NamedSource for MemSource {
    ghost contents = { λ s _. Some s.content.bytes };

    fn open_named(&mut self, _name: &str) -> Result<(), WriteStop>
        ensures valid { IsSourceState self.old }
        ensures listed { IsErr result ↔ NextFails self.old }
        ensures opened { OnOk result
            (self.new ≡ record (source_after_call self.old) { content = rewound self.old.content }) }
        ensures failed { OnErr result (self.new ≡ source_after_fault self.old) }
        ensures stop { IfErr result (λ stop. stop ≡ WriteStop.Failed) }
    {
        self.count_call()?;
        self.position = 0;
        Ok(())
    }
}

/// Bytes in memory as a sink whose calls fail by number.
///
/// Calls of `write` and `create` are counted together, from 1; the count stays at 2^64 - 1 once it is there. With each
/// listed number is the length of the prefix that a write of this number still appends, at most all its bytes; of a
/// number listed twice the first entry counts. A listed `create` changes the counts alone. A call for which memory
/// wants changes nothing, so it is not counted. Every name refers to the one content: `create` empties it.
#[derive(Debug, Drop)]
pub struct MemSink {
    bytes: Vec<u8>,
    fails: Vec<(u64, usize)>,
    calls: u64,
    faults: u64,
}

impl Model for MemSink {
    ghost Value = { SinkState };

    ghost view = { λ s. record {
      bytes = s.bytes.items;
      fails = s.fails.items;
      calls = s.calls;
      faults = s.faults;
    } };

    ghost invariant = { λ s. s.faults ≤ 18446744073709551615 };
}

impl MemSink {
    /// A sink that holds these bytes, and whose calls of these numbers fail after a prefix of this length.
    pub fn new(bytes: Vec<u8>, fails: Vec<(u64, usize)>) -> Self
        ensures fresh { result ≡ record { bytes = bytes.items; fails = fails.items; calls = 0; faults = 0 } }
        ensures tells { ⟦<MemSink as Sink>⟧.holds result ≡ Some bytes.items }
    {
        MemSink {
            bytes,
            fails,
            calls: 0,
            faults: 0,
        }
    }

    /// What it holds.
    pub fn bytes(&self) -> &[u8]
        ensures { result.now ≡ self.now.bytes }
    {
        self.bytes.as_slice()
    }

    /// How many calls failed.
    pub fn faults(&self) -> u64
        ensures { result ≡ self.now.faults }
    {
        self.faults
    }

    /// The prefix that the next call still appends, if it is to fail.
    fn next_prefix(&self) -> Option<usize>
        ensures prefix { result ≡ next_prefix self.now }
        ensures valid { IsSinkState self.now }
    {
        let number = self.calls.saturating_add(1);
        self.fails
            .iter()
            .find(|entry| entry.0 == number)
            .map(|entry| entry.1)
    }

    /// Appends these bytes, and counts the call.
    fn append(&mut self, bytes: &[u8]) -> Result<(), WriteStop>
        ensures written { OnOk result
            (self.new ≡ record (sink_after_call self.old) { bytes = self.old.bytes ++ bytes.now }) }
        ensures memory { OnErr result (self.new ≡ self.old) }
        ensures stop { IfErr result (λ stop. stop ≡ WriteStop.Memory) }
    {
        if self.bytes.extend_from_slice(bytes).is_err() {
            return Err(WriteStop::Memory);
        }
        self.calls = self.calls.saturating_add(1);
        Ok(())
    }
}

impl Sink for MemSink {
    ghost holds = { λ s. Some s.bytes };

    ghost name = { λ _. None };

    ghost faults = { λ s. s.faults };

    fn write(&mut self, bytes: &[u8]) -> Result<(), WriteStop>
        ensures valid { IsSinkState self.old }
        ensures unlisted { OnOk result (IsNone (next_prefix self.old)) }
        ensures listed { IsErrOf result WriteStop.Failed → IsSome (next_prefix self.old) }
        ensures written { OnOk result
            (self.new ≡ record (sink_after_call self.old) { bytes = self.old.bytes ++ bytes.now }) }
        ensures failed { IsErrOf result WriteStop.Failed → IfSome (next_prefix self.old) (λ prefix.
            self.new ≡ record (sink_after_fault self.old) { bytes = self.old.bytes ++ take prefix bytes.now }) }
        ensures memory { IsErrOf result WriteStop.Memory → self.new ≡ self.old }
    {
        match self.next_prefix() {
            None => self.append(bytes),
            Some(prefix) => {
                self.append(&bytes[..prefix.min(bytes.len())])?;
                self.faults = self.faults.saturating_add(1);
                Err(WriteStop::Failed)
            }
        }
    }
}

impl NamedSink for MemSink {
    fn create(&mut self, _name: &str) -> Result<(), WriteStop>
        ensures valid { IsSinkState self.old }
        ensures listed { IsErr result ↔ IsSome (next_prefix self.old) }
        ensures created { OnOk result (self.new ≡ record (sink_after_call self.old) { bytes = [] }) }
        ensures failed { OnErr result (self.new ≡ sink_after_fault self.old) }
        ensures stop { IfErr result (λ stop. stop ≡ WriteStop.Failed) }
    {
        let listed = self.next_prefix().is_some();
        self.calls = self.calls.saturating_add(1);
        if listed {
            self.faults = self.faults.saturating_add(1);
            return Err(WriteStop::Failed);
        }
        self.bytes.clear();
        Ok(())
    }
}
