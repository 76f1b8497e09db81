//! The traits through which the programs reach the outside.
ghost use Rattle.std.specs.Prelude.{◌≡◌, ℕ, ◌<◌, ◌≤◌, List, [], length, Option, Some, IfOk, IfSome, OnOk, OnErr};
ghost use Rattle.std.specs.Prelude.{IsErrOf};
ghost use Rattle.ffc_base.specs.Outside.{Rose, MovesFront, Appends, AppendsPrefix, Becomes};

use thiserror::Error;

/// A read failed; the source's count of faults says so.
#[derive(Clone, Copy, Debug, PartialEq, Eq, Error)]
#[error("reading failed")]
pub struct Failed;

/// Why a write, an opening or a creation stopped.
#[derive(Clone, Copy, Debug, PartialEq, Eq, Error)]
pub enum WriteStop {
    /// The outside failed; the object's count of faults says so.
    #[error("writing failed")]
    Failed,
    /// Out of memory.
    #[error("out of memory")]
    Memory,
}

impl From<Failed> for WriteStop {
    ghost use Rattle.std.specs.Prelude.{◌≡◌};
    ghost use Rattle.ffc_base.specs.declared.outside.WriteStop.{WriteStop};

    ghost from_gives = { λ _ stop. stop ≡ WriteStop.Failed };

    fn from(_failed: Failed) -> WriteStop {
        WriteStop::Failed
    }
}

/// Bytes that come in pieces.
pub trait Source {
    /// The bytes that are left, where the source tells them.
    ghost left: { Self → Option (List ℕ) };

    /// How often a call has failed. It stays at 2^64 - 1.
    ghost faults: { Self → ℕ };

    /// Moves the next bytes to the front of `buf`, and says how many. 0 is the end of the input.
    fn read(&mut self, buf: &mut [u8]) -> Result<usize, Failed>
        requires { 0 < length buf.old }
        ensures within { IfOk result (λ n. n ≤ length buf.old) }
        ensures moved { IfOk result (λ n. MovesFront n buf.new (left self.old) (left self.new)) }
        ensures failed { OnErr result (left self.new ≡ left self.old) }
        ensures later { faults self.old ≤ faults self.new }
        ensures cause { OnErr result (Rose (faults self.old) (faults self.new)) };
}

/// A place that bytes are appended to.
pub trait Sink {
    /// The bytes that it holds, where it tells them.
    ghost holds: { Self → Option (List ℕ) };

    /// The name under which its contents were created last, where it tells that; the empty name before the first one.
    ghost name: { Self → Option (List ℕ) };

    /// How often a call has failed. It stays at 2^64 - 1.
    ghost faults: { Self → ℕ };

    /// Appends all of `bytes`.
    fn write(&mut self, bytes: &[u8]) -> Result<(), WriteStop>
        ensures written { OnOk result (Appends bytes.now (holds self.old) (holds self.new)) }
        ensures failed { IsErrOf result WriteStop.Failed → AppendsPrefix bytes.now (holds self.old) (holds self.new) }
        ensures memory { IsErrOf result WriteStop.Memory → holds self.new ≡ holds self.old }
        ensures same_name { name self.new ≡ name self.old }
        ensures later { faults self.old ≤ faults self.new }
        ensures cause { IsErrOf result WriteStop.Failed → Rose (faults self.old) (faults self.new) };
}

/// A source whose contents are found by name.
pub trait NamedSource: Source {
    /// The contents of each name, where they are stated.
    ghost contents: { Self → List ℕ → Option (List ℕ) };

    /// Makes the named contents what is left.
    fn open_named(&mut self, name: &str) -> Result<(), WriteStop>
        ensures opened { OnOk result (IfSome (contents self.old name.now) (λ bytes. Self.left self.new ≡ Some bytes)) }
        ensures refused { OnErr result (Self.left self.new ≡ Self.left self.old) }
        ensures later { Self.faults self.old ≤ Self.faults self.new }
        ensures cause { IsErrOf result WriteStop.Failed → Rose (Self.faults self.old) (Self.faults self.new) };
}

/// A sink whose contents are made by name.
pub trait NamedSink: Sink {
    /// Makes the contents of this name empty, and writes go there.
    fn create(&mut self, name: &str) -> Result<(), WriteStop>
        ensures created { OnOk result (Becomes [] (Self.holds self.old) (Self.holds self.new)) }
        ensures named { OnOk result (Becomes name.now (Self.name self.old) (Self.name self.new)) }
        ensures refused { OnErr result (Self.holds self.new ≡ Self.holds self.old) }
        ensures same_name { OnErr result (Self.name self.new ≡ Self.name self.old) }
        ensures later { Self.faults self.old ≤ Self.faults self.new }
        ensures cause { IsErrOf result WriteStop.Failed → Rose (Self.faults self.old) (Self.faults self.new) };
}
