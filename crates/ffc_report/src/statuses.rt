//! The statuses that the program ends with.
ghost use Rattle.std.specs.Prelude.{◌≡◌};
ghost use Rattle.ffc_report.specs.Status.{IsStopped, code_of};

use ffc_explain::Page;
use ffc_solve::SolveStatus;
use ffc_verify::CheckStatus;
use std::alloc::{AllocError, Global};

/// How a run ended.
#[derive(Clone, Copy, PartialEq, Eq)]
pub enum ReportStatus {
    /// Each check is decided, and the certificate is accepted.
    Decided,
    /// The certificate is accepted, and some check is `unknown`.
    Undecided,
    /// The script has a fault.
    ScriptFault,
    /// The arguments are refused.
    Usage,
    /// Reading the script failed.
    ReadFault,
    /// Writing the answer failed.
    WriteFault,
    /// Creating or writing the certificate failed.
    CertFault,
    /// Out of memory while the script was solved or the answer was made.
    Memory,
    /// The certificate is refused.
    CertRefused,
    /// The checker refused its arguments.
    CheckUsage,
    /// The checker found a fault in the script.
    CheckScriptFault,
    /// The checker could not read the script.
    CheckReadFault,
    /// The certificate could not be opened or read.
    CheckCertFault,
    /// The checker could not write its answer.
    CheckWriteFault,
    /// Out of memory while the certificate was judged.
    CheckMemory,
}

/// All statuses, by their numbers.
const ALL: [ReportStatus; 15] = [
    ReportStatus::Decided,
    ReportStatus::ScriptFault,
    ReportStatus::Usage,
    ReportStatus::ReadFault,
    ReportStatus::WriteFault,
    ReportStatus::CertFault,
    ReportStatus::Memory,
    ReportStatus::Undecided,
    ReportStatus::CertRefused,
    ReportStatus::CheckUsage,
    ReportStatus::CheckScriptFault,
    ReportStatus::CheckReadFault,
    ReportStatus::CheckCertFault,
    ReportStatus::CheckWriteFault,
    ReportStatus::CheckMemory,
];

impl ReportStatus {
    /// The number that the program ends with: the solver's own, and the checker's and 20.
    pub fn code(self) -> u8
        ensures { result ≡ code_of self }
    {
        match self {
            ReportStatus::Decided => 0,
            ReportStatus::ScriptFault => 1,
            ReportStatus::Usage => 2,
            ReportStatus::ReadFault => 3,
            ReportStatus::WriteFault => 4,
            ReportStatus::CertFault => 5,
            ReportStatus::Memory => 6,
            ReportStatus::Undecided => 10,
            ReportStatus::CertRefused => 21,
            ReportStatus::CheckUsage => 22,
            ReportStatus::CheckScriptFault => 23,
            ReportStatus::CheckReadFault => 24,
            ReportStatus::CheckCertFault => 25,
            ReportStatus::CheckWriteFault => 26,
            ReportStatus::CheckMemory => 27,
        }
    }

    /// What it says.
    pub fn sentence(self) -> &'static str {
        match self {
            ReportStatus::Decided => "each check is decided, and the certificate is accepted",
            ReportStatus::ScriptFault => "the script has a fault",
            ReportStatus::Usage => "the arguments are refused",
            ReportStatus::ReadFault => "reading the script failed",
            ReportStatus::WriteFault => "writing the answer failed",
            ReportStatus::CertFault => "creating or writing the certificate failed",
            ReportStatus::Memory => "out of memory",
            ReportStatus::Undecided => "some check is unknown, and the certificate is accepted",
            ReportStatus::CertRefused => "the certificate is refused",
            ReportStatus::CheckUsage => "the checker refused its arguments",
            ReportStatus::CheckScriptFault => {
                "the script has a fault, and the certificate is not looked at"
            }
            ReportStatus::CheckReadFault => "the checker could not read the script",
            ReportStatus::CheckCertFault => "opening or reading the certificate failed",
            ReportStatus::CheckWriteFault => "the checker could not write its answer",
            ReportStatus::CheckMemory => "out of memory while the certificate was judged",
        }
    }
}

/// The status of a run whose solver stopped so; none where it did its work.
pub(crate) fn status_of_solver(status: SolveStatus) -> Option<ReportStatus>
    ensures { IsStopped result }
{
    match status {
        SolveStatus::Done => None,
        SolveStatus::Refused => Some(ReportStatus::ScriptFault),
        SolveStatus::Usage => Some(ReportStatus::Usage),
        SolveStatus::ReadFault => Some(ReportStatus::ReadFault),
        SolveStatus::WriteFault => Some(ReportStatus::WriteFault),
        SolveStatus::CertFault => Some(ReportStatus::CertFault),
        SolveStatus::Memory => Some(ReportStatus::Memory),
    }
}

/// The status of a run whose checker stopped so; none where it accepted.
pub(crate) fn status_of_checker(status: CheckStatus) -> Option<ReportStatus>
    ensures { IsStopped result }
{
    match status {
        CheckStatus::Accepted => None,
        CheckStatus::Refused => Some(ReportStatus::CertRefused),
        CheckStatus::Usage => Some(ReportStatus::CheckUsage),
        CheckStatus::ScriptRefused => Some(ReportStatus::CheckScriptFault),
        CheckStatus::ReadFault => Some(ReportStatus::CheckReadFault),
        CheckStatus::CertFault => Some(ReportStatus::CheckCertFault),
        CheckStatus::WriteFault => Some(ReportStatus::CheckWriteFault),
        CheckStatus::Memory => Some(ReportStatus::CheckMemory),
    }
}

/// Writes what a status says, after the program's name.
pub(crate) fn write_status(status: ReportStatus, page: &mut Page) {
    page.text("yundavel: ");
    page.text(status.sentence());
    page.text("\n");
}

/// The table of all statuses, as the help shows it.
pub fn status_table(alloc: Global) -> Result<Vec<u8>, AllocError> {
    let mut page = Page::new(alloc);
    page.text("Statuses:\n");
    for status in ALL {
        let code = u64::from(status.code());
        page.text(if code < 10 { "   " } else { "  " });
        page.number(code);
        page.text("  ");
        page.text(status.sentence());
        page.text("\n");
    }
    page.finish()
}
