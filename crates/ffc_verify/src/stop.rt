//! Reading a script, and why a reading stops.
ghost use Rattle.std.specs.Prelude.{◌≡◌, ◌≤◌, take, length, IfOk, IfSome, IsErrOf, vec_len};
ghost use Rattle.ffc_base.specs.Outside.{Rose};
ghost use Rattle.ffc_verify.specs.Status.{TakesFront};

use ffc_base::Source;
use std::alloc::{AllocError, AllocFailed, Global};

/// Why a reading stops.
#[derive(Clone, Copy, PartialEq, Eq)]
pub(crate) enum Stop {
    /// A call of the source failed.
    Failed,
    /// Out of memory.
    Memory,
}

impl From<AllocError> for Stop {
    ghost use Rattle.ffc_verify.specs.declared.stop.Stop.TheVariants.{Memory};

    ghost from_gives = { λ _ stop. stop ≡ Memory };

    fn from(_error: AllocError) -> Stop {
        Stop::Memory
    }
}

impl<T: Drop> From<AllocFailed<T>> for Stop {
    ghost use Rattle.ffc_verify.specs.declared.stop.Stop.TheVariants.{Memory};

    ghost from_gives = { λ _ stop. stop ≡ Memory };

    fn from(_error: AllocFailed<T>) -> Stop {
        Stop::Memory
    }
}

/// How many bytes of a script are read: those that count, and one more.
pub(crate) const MOST_READ: usize = 67_108_865;

/// How many bytes are asked for at a time.
pub(crate) const PIECE: usize = 4096;

/// Reads the script to its end, or up to `MOST_READ` bytes.
pub(crate) fn read_script<S: Source>(alloc: Global, script: &mut S) -> Result<Vec<u8>, Stop>
    ensures ok { IfOk result (λ text. IfSome (S.left script.old) (λ bytes. text.items ≡ take 67108865 bytes)) }
    ensures short { IfOk result (λ text. vec_len text ≤ 67108865) }
    ensures taken { IfSome (S.left script.old) (λ bytes. TakesFront bytes (S.left script.new)) }
    ensures later { S.faults script.old ≤ S.faults script.new }
    ensures cause { IsErrOf result Stop.Failed → Rose (S.faults script.old) (S.faults script.new) }
{
    let mut text = Vec::new(alloc);
    let mut buffer = [0u8; PIECE];
    while text.len() < MOST_READ {
        let room = PIECE.min(MOST_READ - text.len());
        let Ok(count) = script.read(&mut buffer[..room]) else {
            return Err(Stop::Failed);
        };
        if count == 0 {
            break;
        }
        text.extend_from_slice(&buffer[..count])?;
    }
    Ok(text)
}
