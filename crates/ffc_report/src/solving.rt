//! A script solved in memory.
ghost use Rattle.std.specs.Prelude.{◌≡◌, IfErr};
ghost use Rattle.ffc_report.specs.Status.{IsNotDecided};

use crate::statuses::{ReportStatus, status_of_solver};
use ffc_base::{SureSink, SureSource};
use ffc_explain::Answers;
use ffc_solve::solve_main;
use std::alloc::{AllocError, Global};

/// What the solver leaves of a script: its answers and the certificate.
#[derive(Drop)]
pub(crate) struct Solved {
    pub(crate) answers: Answers,
    pub(crate) certificate: Vec<u8>,
}

impl From<AllocError> for ReportStatus {
    ghost use Rattle.ffc_report.specs.declared.statuses.ReportStatus.TheVariants.{Memory};

    ghost from_gives = { λ _ status. status ≡ Memory };

    fn from(_error: AllocError) -> ReportStatus {
        ReportStatus::Memory
    }
}

/// Solves a script, as `ffsolve` does, with so many units for each check, and with a certificate of version 3 where bits are
/// asked for.
pub(crate) fn solve_in_memory(
    alloc: Global,
    script: &[u8],
    steps: &str,
    bits: bool,
) -> Result<Solved, ReportStatus>
    ensures { IfErr result IsNotDecided }
{
    let mut script = SureSource::new(script.to_vec(alloc)?);
    let mut answers = Answers::new(alloc);
    let mut cert = SureSink::new(Vec::new(alloc));
    let words = [
        "ffsolve",
        "--cert",
        "certificate",
        "--steps",
        steps,
        "--bits",
    ];
    let count = if bits { words.len() } else { words.len() - 1 };
    let status = solve_main(alloc, &words[..count], &mut script, &mut answers, &mut cert);
    match status_of_solver(status) {
        Some(stopped) => Err(stopped),
        None => Ok(Solved {
            answers,
            certificate: cert.bytes().to_vec(alloc)?,
        }),
    }
}
