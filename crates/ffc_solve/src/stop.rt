//! Why a run stops, and the calls of the outside with that answer.
ghost use Rattle.std.specs.Prelude.{◌≡◌, ℕ, ◌≤◌, ◌⊎◌, take, OnOk, OnErr, IfErr, IsErrOf};
ghost use Rattle.ffc_base.specs.Outside.{Rose, Becomes, Appends, AppendsPrefix};
ghost use Rattle.ffc_cert.specs.Spelling.{header};
ghost use Rattle.ffc_trials.specs.Versions.{written_version};

use ffc_base::{NamedSink, Sink, WriteStop};
use std::alloc::AllocError;
use thiserror::Error;

/// Why a run stopped before it had answered the whole script.
#[derive(Clone, Copy, Debug, PartialEq, Eq, Error)]
pub enum Stop {
    /// Reading the script failed.
    #[error("reading the script failed")]
    ReadFault,
    /// Writing an answer failed.
    #[error("writing an answer failed")]
    WriteFault,
    /// Creating or writing the certificate failed.
    #[error("writing the certificate failed")]
    CertFault,
    /// Out of memory.
    #[error("out of memory")]
    Memory,
}

impl From<AllocError> for Stop {
    ghost use Rattle.ffc_solve.specs.declared.stop.Stop.TheVariants.{Memory};

    ghost from_gives = { λ _ e. e ≡ Memory };

    fn from(_: AllocError) -> Self {
        Stop::Memory
    }
}

/// Writes an answer.
pub fn write_out<O: Sink>(out: &mut O, text: &[u8]) -> Result<(), Stop>
    ensures ok { OnOk result (Appends text.now (O.holds out.old) (O.holds out.new)) }
    ensures err { OnErr result (AppendsPrefix text.now (O.holds out.old) (O.holds out.new)) }
    ensures later { O.faults out.old ≤ O.faults out.new }
    ensures cause { IsErrOf result Stop.WriteFault → Rose (O.faults out.old) (O.faults out.new) }
    ensures only { IfErr result (λ stop. (stop ≡ Stop.WriteFault) ⊎ (stop ≡ Stop.Memory)) }
{
    match out.write(text) {
        Ok(()) => Ok(()),
        Err(WriteStop::Failed) => Err(Stop::WriteFault),
        Err(WriteStop::Memory) => Err(Stop::Memory),
    }
}

/// Writes to the certificate.
pub fn write_certificate<C: Sink>(cert: &mut C, text: &[u8]) -> Result<(), Stop>
    ensures ok { OnOk result (Appends text.now (C.holds cert.old) (C.holds cert.new)) }
    ensures err { OnErr result (AppendsPrefix text.now (C.holds cert.old) (C.holds cert.new)) }
    ensures same_name { C.name cert.new ≡ C.name cert.old }
    ensures later { C.faults cert.old ≤ C.faults cert.new }
    ensures cause { IsErrOf result Stop.CertFault → Rose (C.faults cert.old) (C.faults cert.new) }
    ensures only { IfErr result (λ stop. (stop ≡ Stop.CertFault) ⊎ (stop ≡ Stop.Memory)) }
{
    match cert.write(text) {
        Ok(()) => Ok(()),
        Err(WriteStop::Failed) => Err(Stop::CertFault),
        Err(WriteStop::Memory) => Err(Stop::Memory),
    }
}

/// The first line of a certificate.
fn first_line(bits: bool) -> &'static [u8]
    ensures { result.now ≡ header (written_version bits) }
{
    if bits { b"ffcert 3\n" } else { b"ffcert 2\n" }
}

/// Creates the certificate of this name, and writes its first line, of version 3 where it may have lines of bits.
pub fn create_certificate<C: NamedSink>(cert: &mut C, name: &str, bits: bool) -> Result<(), Stop>
    ensures ok { OnOk result (Becomes (header (written_version bits)) (C.holds cert.old) (C.holds cert.new)) }
    ensures named { OnOk result (Becomes name.now (C.name cert.old) (C.name cert.new)) }
    ensures err { OnErr result (((C.holds cert.new ≡ C.holds cert.old) × (C.name cert.new ≡ C.name cert.old))
        ⊎ (((n : ℕ) × Becomes (take n (header (written_version bits))) (C.holds cert.old) (C.holds cert.new))
        × Becomes name.now (C.name cert.old) (C.name cert.new))) }
    ensures later { C.faults cert.old ≤ C.faults cert.new }
    ensures cause { IsErrOf result Stop.CertFault → Rose (C.faults cert.old) (C.faults cert.new) }
    ensures only { IfErr result (λ stop. (stop ≡ Stop.CertFault) ⊎ (stop ≡ Stop.Memory)) }
{
    match cert.create(name) {
        Ok(()) => write_certificate(cert, first_line(bits)),
        Err(WriteStop::Failed) => Err(Stop::CertFault),
        Err(WriteStop::Memory) => Err(Stop::Memory),
    }
}
