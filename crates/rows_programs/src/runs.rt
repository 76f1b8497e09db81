//! One run of a program, and what it left.
use crate::objects::{BEFORE, Objects};
use ffc_solve::{SolveStatus, solve_main};
use ffc_verify::{CheckStatus, check_main};
use std::alloc::{AllocError, Global};

/// What a run left.
#[derive(Drop)]
pub(crate) struct Left {
    /// The name of its status.
    pub(crate) status: &'static str,
    /// What was added to the output, or nothing where what it held is gone.
    pub(crate) out: Option<Vec<u8>>,
    /// What the certificate's object holds.
    pub(crate) cert: Vec<u8>,
    /// How many calls failed on the script, the certificate and the output.
    pub(crate) faults: [u64; 3],
}

fn name_of_solver(status: SolveStatus) -> &'static str {
    match status {
        SolveStatus::Done => "done",
        SolveStatus::Refused => "refused",
        SolveStatus::Usage => "usage",
        SolveStatus::ReadFault => "read fault",
        SolveStatus::WriteFault => "write fault",
        SolveStatus::CertFault => "certificate fault",
        SolveStatus::Memory => "out of memory",
    }
}

fn name_of_checker(status: CheckStatus) -> &'static str {
    match status {
        CheckStatus::Accepted => "accepted",
        CheckStatus::Refused => "refused",
        CheckStatus::ScriptRefused => "script refused",
        CheckStatus::Usage => "usage",
        CheckStatus::ReadFault => "read fault",
        CheckStatus::CertFault => "certificate fault",
        CheckStatus::WriteFault => "write fault",
        CheckStatus::Memory => "out of memory",
    }
}

/// What was added to what was held before.
fn added(alloc: Global, bytes: &[u8]) -> Result<Option<Vec<u8>>, AllocError> {
    match bytes.strip_prefix(BEFORE) {
        Some(bytes) => Ok(Some(bytes.to_vec(alloc)?)),
        None => Ok(None),
    }
}

/// Runs `ffsolve` on a script.
pub(crate) fn solve(
    alloc: Global,
    objects: &Objects,
    words: &[&str],
    script: &[u8],
) -> Result<Left, AllocError> {
    let mut script = objects.script_source(script)?;
    let mut cert = objects.cert_sink()?;
    let mut out = objects.out_sink()?;
    let status = solve_main(alloc, words, &mut script, &mut out, &mut cert);
    Ok(Left {
        status: name_of_solver(status),
        out: added(alloc, out.bytes())?,
        cert: cert.bytes().to_vec(alloc)?,
        faults: [script.faults(), cert.faults(), out.faults()],
    })
}

/// Runs `ffcheck` on a script and a certificate.
pub(crate) fn check(
    alloc: Global,
    objects: &Objects,
    words: &[&str],
    script: &[u8],
    bytes: &[u8],
) -> Result<Left, AllocError> {
    let mut script = objects.script_source(script)?;
    let mut cert = objects.cert_source(bytes)?;
    let mut out = objects.out_sink()?;
    let status = check_main(alloc, words, &mut script, &mut cert, &mut out);
    Ok(Left {
        status: name_of_checker(status),
        out: added(alloc, out.bytes())?,
        cert: bytes.to_vec(alloc)?,
        faults: [script.faults(), cert.faults(), out.faults()],
    })
}
