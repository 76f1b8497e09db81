//! The top call: a script solved and judged, in words.
ghost use Rattle.std.specs.Prelude.{◌≡◌};
ghost use Rattle.ffc_report.specs.Decided.{IsDecided};

use crate::judging::{Judged, Verdict, judge_in_memory};
use crate::solving::{Solved, solve_in_memory};
use crate::statuses::{ReportStatus, status_of_checker, write_status};
use ffc_explain::{Answers, Page, write_lines, write_refusal, write_script_fault};
use std::alloc::Global;

/// What is asked for.
#[derive(Clone, Copy)]
pub struct Task<'a> {
    /// The name of the script, as places show it.
    pub script_name: &'a str,
    /// The name of the certificate, as places show it.
    pub cert_name: &'a str,
    /// The units of work that a check may take, in decimal.
    pub steps: &'a str,
    /// Whether certificates of version 3 are written and read.
    pub bits: bool,
    /// Whether the entries are explained.
    pub explains: bool,
}

/// What came of it.
#[derive(Drop)]
pub struct Report {
    pub status: ReportStatus,
    /// What is to be printed.
    pub text: Vec<u8>,
    /// What is to be printed as an error.
    pub complaint: Vec<u8>,
    /// The certificate that was judged.
    pub certificate: Vec<u8>,
}

/// The text of a page; an empty one where memory is out.
fn text_of(alloc: Global, page: Page) -> Vec<u8> {
    match page.finish() {
        Ok(text) => text,
        Err(_) => Vec::new(alloc),
    }
}

/// What a status says.
fn complaint_of(alloc: Global, status: ReportStatus) -> Vec<u8> {
    let mut page = Page::new(alloc);
    write_status(status, &mut page);
    text_of(alloc, page)
}

/// A report of a run that stopped before a certificate was judged.
fn stopped(alloc: Global, task: &Task<'_>, script: &[u8], status: ReportStatus) -> Report
    ensures { result.status ≡ status }
{
    let mut page = Page::new(alloc);
    let is_fault = matches!(
        status,
        ReportStatus::ScriptFault | ReportStatus::CheckScriptFault
    );
    if !is_fault || !write_script_fault(alloc, task.script_name, script, &mut page) {
        write_status(status, &mut page);
    }
    Report {
        status,
        text: Vec::new(alloc),
        complaint: text_of(alloc, page),
        certificate: Vec::new(alloc),
    }
}

/// A report on a certificate that is not accepted.
fn refused(
    alloc: Global,
    task: &Task<'_>,
    script: &[u8],
    judged: &Judged,
    certificate: Vec<u8>,
    status: ReportStatus,
) -> Report
    ensures { result.status ≡ status }
{
    if status != ReportStatus::CertRefused {
        return stopped(alloc, task, script, status);
    }
    let mut page = Page::new(alloc);
    let is_written = write_refusal(
        judged.line.as_slice(),
        task.cert_name,
        certificate.as_slice(),
        &mut page,
    );
    if !is_written {
        write_status(status, &mut page);
    }
    Report {
        status,
        text: Vec::new(alloc),
        complaint: text_of(alloc, page),
        certificate,
    }
}

/// A report on a certificate that is accepted.
fn accepted(
    alloc: Global,
    task: &Task<'_>,
    script: &[u8],
    answers: &Answers,
    certificate: Vec<u8>,
    status: ReportStatus,
) -> Report
    ensures { result.status ≡ ReportStatus.Decided → (status ≡ ReportStatus.Decided)
        × (result.certificate.items ≡ certificate.items) }
{
    match write_lines(
        alloc,
        task.explains,
        script,
        certificate.as_slice(),
        answers,
    ) {
        Ok(text) => Report {
            status,
            text,
            complaint: Vec::new(alloc),
            certificate,
        },
        Err(_) => stopped(alloc, task, script, ReportStatus::Memory),
    }
}

/// Judges a certificate, and reports on it.
fn judged_report(
    alloc: Global,
    task: &Task<'_>,
    script: &[u8],
    answers: &Answers,
    certificate: Vec<u8>,
) -> Report
    ensures { result.status ≡ ReportStatus.Decided → IsDecided task.now.bits script.now result.certificate.items }
{
    let judged = match judge_in_memory(alloc, task.bits, script, certificate.as_slice()) {
        Ok(judged) => judged,
        Err(_) => return stopped(alloc, task, script, ReportStatus::CheckMemory),
    };
    match judged.verdict {
        Verdict::Decided => accepted(
            alloc,
            task,
            script,
            answers,
            certificate,
            ReportStatus::Decided,
        ),
        Verdict::Undecided => accepted(
            alloc,
            task,
            script,
            answers,
            certificate,
            ReportStatus::Undecided,
        ),
        Verdict::Stopped(status) => match status_of_checker(status) {
            Some(status) => refused(alloc, task, script, &judged, certificate, status),
            None => stopped(alloc, task, script, ReportStatus::CheckMemory),
        },
    }
}

/// Solves a script, judges the certificate of its answers, and reports on each check.
///
/// All is in memory: three copies of the script at most, and two of the certificate. What is reported of checks is written once
/// the whole certificate is judged, since only then each is known to be checked.
pub fn report_script(alloc: Global, task: &Task<'_>, script: &[u8]) -> Report
    ensures { result.status ≡ ReportStatus.Decided → IsDecided task.now.bits script.now result.certificate.items }
{
    match solve_in_memory(alloc, script, task.steps, task.bits) {
        Ok(
            Solved {
                answers,
                certificate,
            },
        ) => judged_report(alloc, task, script, &answers, certificate),
        Err(status) => stopped(alloc, task, script, status),
    }
}

/// Judges a certificate that is given for a script, and reports on each check. Nothing is solved.
pub fn report_certificate(
    alloc: Global,
    task: &Task<'_>,
    script: &[u8],
    certificate: Vec<u8>,
) -> Report
    ensures { result.status ≡ ReportStatus.Decided → IsDecided task.now.bits script.now result.certificate.items }
{
    let answers = Answers::new(alloc);
    judged_report(alloc, task, script, &answers, certificate)
}

/// What a status says, as an error.
pub fn complaint(alloc: Global, status: ReportStatus) -> Vec<u8> {
    complaint_of(alloc, status)
}
