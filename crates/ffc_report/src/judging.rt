//! A certificate judged for a script, both in memory.
ghost use Rattle.std.specs.Prelude.{◌≡◌, map, IfOk};
ghost use Rattle.ffc_verify.specs.Arguments.{wants_bits};
ghost use Rattle.ffc_report.specs.Decided.{EndsInZero, IsDecided};

use ffc_base::{SureSink, SureSource};
use ffc_verify::{CheckStatus, check_main};
use std::alloc::{AllocError, Global};

/// The verdict on a certificate.
#[derive(Clone, Copy, PartialEq, Eq)]
pub(crate) enum Verdict {
    /// It is accepted, and no entry is unknown.
    Decided,
    /// It is accepted, and some entry is unknown.
    Undecided,
    /// It is not accepted.
    Stopped(CheckStatus),
}

/// A verdict, and the line that the checker wrote.
#[derive(Drop)]
pub(crate) struct Judged {
    pub(crate) verdict: Verdict,
    pub(crate) line: Vec<u8>,
}

/// What an accepted certificate's line says of unknown entries.
fn verdict_by(line: &[u8]) -> Verdict
    ensures { result ≡ Verdict.Decided → EndsInZero line.now }
{
    if line.ends_with(b" 0\n") {
        Verdict::Decided
    } else {
        Verdict::Undecided
    }
}

/// The verdict by the checker's status and line.
fn verdict_of(status: CheckStatus, line: &[u8]) -> Verdict
    ensures { result ≡ Verdict.Decided → (status ≡ CheckStatus.Accepted) × EndsInZero line.now }
{
    match status {
        CheckStatus::Accepted => verdict_by(line),
        _ => Verdict::Stopped(status),
    }
}

/// A source of a copy of these bytes.
fn source_of(alloc: Global, bytes: &[u8]) -> Result<SureSource, AllocError>
    ensures { IfOk result (λ source. source ≡ record { bytes = bytes.now; position = 0 }) }
{
    Ok(SureSource::new(Vec::from_slice(alloc, bytes)?))
}

/// Judges a certificate for a script, as `ffcheck` does with these arguments.
fn judge_with(
    alloc: Global,
    words: &[&str],
    script: &[u8],
    certificate: &[u8],
) -> Result<Judged, AllocError>
    ensures { IfOk result (λ judged. judged.verdict ≡ Verdict.Decided
        → IsDecided (wants_bits (map (λ w. w.now) words.now)) script.now certificate.now) }
{
    let mut source = source_of(alloc, script)?;
    let mut cert = source_of(alloc, certificate)?;
    let mut out = SureSink::new(Vec::new(alloc));
    let status = check_main(alloc, words, &mut source, &mut cert, &mut out);
    let verdict = verdict_of(status, out.bytes());
    Ok(Judged {
        verdict,
        line: out.bytes().to_vec(alloc)?,
    })
}

/// Judges a certificate for a script, as `ffcheck` does; one of version 3 only with bits.
pub(crate) fn judge_in_memory(
    alloc: Global,
    bits: bool,
    script: &[u8],
    certificate: &[u8],
) -> Result<Judged, AllocError>
    ensures { IfOk result (λ judged. judged.verdict ≡ Verdict.Decided → IsDecided bits script.now certificate.now) }
{
    if bits {
        let words = ["ffcheck", "certificate", "--bits"];
        judge_with(alloc, words.as_slice(), script, certificate)
    } else {
        let words = ["ffcheck", "certificate"];
        judge_with(alloc, words.as_slice(), script, certificate)
    }
}
