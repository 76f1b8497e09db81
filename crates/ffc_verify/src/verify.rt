//! The checker's top call.
ghost use Rattle.std.specs.Prelude.{◌≡◌, ◌⊎◌, ◌≤◌, length, map, IfErr, IfOk, IfSome, IsErrOf};
ghost use Rattle.ffc_base.specs.Outside.{Rose};
ghost use Rattle.ffc_smt.specs.Scripts.{Done, reads};
ghost use Rattle.ffc_verify.specs.Arguments.{AreTaken, cert_name, wants_bits, wants_cores};
ghost use Rattle.ffc_verify.specs.Due.{due};
ghost use Rattle.ffc_verify.specs.Status.{AllHaveEntries, IsLeft, IsReadAt, SaysOfScript, TakesFront, code_of};
ghost use Rattle.ffc_verify.specs.Ending.{EndsWith, IsEndedAs, due_of, status_at, status_of, verdict_due};
ghost use Rattle.ffc_verify.specs.Texts.{fault_line};
ghost use Rattle.ffc_verify.specs.Walking.{IsCounted};

use crate::arguments::{CheckPlan, PlanStop};
use crate::judge::judge;
use crate::lines::{append_accepted, append_fault, append_refusal};
use crate::script::count_checks;
use crate::stop::{Stop, read_script};
use crate::verdicts::{Tally, Verdict};
use ffc_base::{NamedSource, Sink, Source, WriteStop};
use ffc_script::ScriptStop;
use ffc_words::ScriptFault;
use std::alloc::{AllocError, Global};

/// How a run ended.
#[derive(Clone, Copy, Debug, PartialEq, Eq)]
pub enum CheckStatus {
    /// The certificate is accepted for the script.
    Accepted,
    /// It is refused.
    Refused,
    /// The arguments are refused.
    Usage,
    /// The script has a fault.
    ScriptRefused,
    /// Reading the script failed.
    ReadFault,
    /// Opening or reading the certificate failed.
    CertFault,
    /// Writing the answer failed.
    WriteFault,
    /// Out of memory.
    Memory,
}

impl CheckStatus {
    /// The number that the program ends with.
    pub fn code(self) -> u8
        ensures { result ≡ code_of self }
    {
        match self {
            CheckStatus::Accepted => 0,
            CheckStatus::Refused => 1,
            CheckStatus::Usage => 2,
            CheckStatus::ScriptRefused => 3,
            CheckStatus::ReadFault => 4,
            CheckStatus::CertFault => 5,
            CheckStatus::WriteFault => 6,
            CheckStatus::Memory => 7,
        }
    }
}

/// The statuses that come with a line.
#[derive(Clone, Copy, PartialEq, Eq)]
enum Ending {
    Accepted,
    Refused,
    ScriptRefused,
}

impl Ending {
    fn status(self) -> CheckStatus
        ensures { result ≡ status_of self }
    {
        match self {
            Ending::Accepted => CheckStatus::Accepted,
            Ending::Refused => CheckStatus::Refused,
            Ending::ScriptRefused => CheckStatus::ScriptRefused,
        }
    }
}

/// What is to be written, and the status that comes with it.
#[derive(Drop)]
struct Answer {
    ending: Ending,
    text: Vec<u8>,
}

/// Why there is no answer.
#[derive(Clone, Copy, PartialEq, Eq)]
enum AnswerStop {
    ReadFault,
    CertFault,
    Memory,
}

impl From<AllocError> for AnswerStop {
    ghost use Rattle.ffc_verify.specs.declared.verify.AnswerStop.TheVariants.{Memory};

    ghost from_gives = { λ _ stop. stop ≡ Memory };

    fn from(_error: AllocError) -> AnswerStop {
        AnswerStop::Memory
    }
}

/// The answer to a script's fault.
fn fault_answer(alloc: Global, fault: ScriptFault) -> Result<Answer, AnswerStop>
    ensures ok { IfOk result (λ answer. due_of answer
        ≡ record { status = CheckStatus.ScriptRefused; text = fault_line fault.line fault.column fault.code }) }
    ensures memory { IfErr result (λ stop. stop ≡ AnswerStop.Memory) }
{
    let mut text = Vec::new(alloc);
    append_fault(fault, &mut text)?;
    Ok(Answer {
        ending: Ending::ScriptRefused,
        text,
    })
}

/// The answer to a certificate.
fn verdict_answer(alloc: Global, verdict: Verdict) -> Result<Answer, AnswerStop>
    ensures ok { IfOk result (λ answer. due_of answer ≡ verdict_due verdict) }
    ensures memory { IfErr result (λ stop. stop ≡ AnswerStop.Memory) }
{
    match verdict {
        Verdict::Accepted(
            Tally {
                sat,
                unsat,
                unknown,
                cores,
            },
        ) => {
            let mut text = cores;
            append_accepted(sat, unsat, unknown, &mut text)?;
            Ok(Answer {
                ending: Ending::Accepted,
                text,
            })
        }
        Verdict::Refused(refusal) => {
            let mut text = Vec::new(alloc);
            append_refusal(&refusal, &mut text)?;
            Ok(Answer {
                ending: Ending::Refused,
                text,
            })
        }
    }
}

/// Opens and judges the certificate, for a script that has no fault and so many checks.
fn certificate_answer<C: NamedSource>(
    alloc: Global,
    plan: &CheckPlan,
    script: &[u8],
    checks: u64,
    cert: &mut C,
) -> Result<Answer, AnswerStop>
    requires short { length script.now ≤ 67108865 }
    requires counted { IsCounted script.now checks }
    ensures ok { IfOk result (λ answer. IfSome (C.contents cert.old plan.now.cert.now) (λ certificate. due_of answer
        ≡ due plan.now.bits plan.now.cores script.now certificate)) }
    ensures ending { IfOk result (λ answer. IsEndedAs answer (reads script.now).end) }
    ensures read { IfOk result (λ answer. IfSome (C.contents cert.old plan.now.cert.now) (λ certificate.
        IsReadAt (status_of answer.ending) plan.now.bits script.now certificate (C.left cert.old) (C.left cert.new))) }
    ensures stopped { IfErr result (λ stop. IfSome (C.contents cert.old plan.now.cert.now) (λ certificate.
        IsReadAt (status_at stop) plan.now.bits script.now certificate (C.left cert.old) (C.left cert.new))) }
    ensures cause { IsErrOf result AnswerStop.CertFault → Rose (C.faults cert.old) (C.faults cert.new) }
    ensures only { IsErrOf result AnswerStop.ReadFault → ⊥ }
{
    match cert.open_named(plan.cert) {
        Ok(()) => {}
        Err(WriteStop::Failed) => return Err(AnswerStop::CertFault),
        Err(WriteStop::Memory) => return Err(AnswerStop::Memory),
    }
    match judge(alloc, script, checks, plan.bits, plan.cores, cert) {
        Ok(verdict) => verdict_answer(alloc, verdict),
        Err(Stop::Failed) => Err(AnswerStop::CertFault),
        Err(Stop::Memory) => Err(AnswerStop::Memory),
    }
}

/// Reads the script, and judges the certificate where the script has no fault.
fn find_answer<S: Source, C: NamedSource>(
    alloc: Global,
    plan: &CheckPlan,
    script: &mut S,
    cert: &mut C,
) -> Result<Answer, AnswerStop>
    ensures ok { IfOk result
        (λ answer. IfSome (S.left script.old) (λ bytes. IfSome (C.contents cert.old plan.now.cert.now)
        (λ certificate. due_of answer ≡ due plan.now.bits plan.now.cores bytes certificate))) }
    ensures ending { IfOk result (λ answer. IfSome (S.left script.old) (λ bytes. IsEndedAs answer (reads bytes).end)) }
    ensures opened { IsErrOf result AnswerStop.CertFault → IfSome (S.left script.old) (λ bytes. (reads bytes).end
        ≡ Done) }
    ensures taken { IfSome (S.left script.old) (λ bytes. TakesFront bytes (S.left script.new)) }
    ensures read { IfOk result
        (λ answer. IfSome (S.left script.old) (λ bytes. IfSome (C.contents cert.old plan.now.cert.now)
        (λ certificate. IsReadAt (status_of answer.ending) plan.now.bits bytes certificate (C.left cert.old)
        (C.left cert.new)))) }
    ensures stopped { IfErr result
        (λ stop. IfSome (S.left script.old) (λ bytes. IfSome (C.contents cert.old plan.now.cert.now)
        (λ certificate. IsReadAt (status_at stop) plan.now.bits bytes certificate (C.left cert.old) (C.left cert.new)))) }
    ensures unread { IsErrOf result AnswerStop.ReadFault → cert.new ≡ cert.old }
    ensures unopened { IfOk result (λ answer. answer.ending ≡ Ending.ScriptRefused → cert.new ≡ cert.old) }
    ensures read_fault { IsErrOf result AnswerStop.ReadFault → Rose (S.faults script.old) (S.faults script.new) }
    ensures cert_fault { IsErrOf result AnswerStop.CertFault → Rose (C.faults cert.old) (C.faults cert.new) }
{
    let text = match read_script(alloc, script) {
        Ok(text) => text,
        Err(Stop::Failed) => return Err(AnswerStop::ReadFault),
        Err(Stop::Memory) => return Err(AnswerStop::Memory),
    };
    match count_checks(alloc, text.as_slice()) {
        Ok(checks) => certificate_answer(alloc, plan, text.as_slice(), checks, cert),
        Err(stop) => match stop {
            ScriptStop::Fault(fault) => fault_answer(alloc, fault),
            ScriptStop::Memory => Err(AnswerStop::Memory),
        },
    }
}

/// Writes an answer.
fn write_answer<O: Sink>(out: &mut O, answer: &Answer) -> CheckStatus
    ensures left { IsLeft result (due_of answer.now) (O.holds out.old) (O.holds out.new) }
    ensures ended { EndsWith answer.now result }
    ensures cause { result ≡ CheckStatus.WriteFault → Rose (O.faults out.old) (O.faults out.new) }
{
    match out.write(answer.text.as_slice()) {
        Ok(()) => answer.ending.status(),
        Err(WriteStop::Failed) => CheckStatus::WriteFault,
        Err(WriteStop::Memory) => CheckStatus::Memory,
    }
}

/// The status of a run that has no answer.
fn status_without(stop: AnswerStop) -> CheckStatus
    ensures { result ≡ status_at stop }
{
    match stop {
        AnswerStop::ReadFault => CheckStatus::ReadFault,
        AnswerStop::CertFault => CheckStatus::CertFault,
        AnswerStop::Memory => CheckStatus::Memory,
    }
}

/// Does what a plan asks for.
fn run_plan<S: Source, C: NamedSource, O: Sink>(
    alloc: Global,
    plan: &CheckPlan,
    script: &mut S,
    cert: &mut C,
    out: &mut O,
) -> CheckStatus
    ensures usage { result ≡ CheckStatus.Usage → ⊥ }
    ensures left { IfSome (S.left script.old) (λ bytes. IfSome (C.contents cert.old plan.now.cert.now) (λ certificate.
        IsLeft result (due plan.now.bits plan.now.cores bytes certificate) (O.holds out.old) (O.holds out.new))) }
    ensures script { IfSome (S.left script.old) (λ bytes. SaysOfScript result bytes (O.holds out.old)
        (O.holds out.new)) }
    ensures taken { IfSome (S.left script.old) (λ bytes. TakesFront bytes (S.left script.new)) }
    ensures read { IfSome (S.left script.old) (λ bytes. IfSome (C.contents cert.old plan.now.cert.now) (λ certificate.
        IsReadAt result plan.now.bits bytes certificate (C.left cert.old) (C.left cert.new))) }
    ensures unread { result ≡ CheckStatus.ReadFault → (out.new ≡ out.old) × (cert.new ≡ cert.old) }
    ensures unanswered { result ≡ CheckStatus.CertFault → out.new ≡ out.old }
    ensures unopened { result ≡ CheckStatus.ScriptRefused → cert.new ≡ cert.old }
    ensures read_fault { result ≡ CheckStatus.ReadFault → Rose (S.faults script.old) (S.faults script.new) }
    ensures cert_fault { result ≡ CheckStatus.CertFault → Rose (C.faults cert.old) (C.faults cert.new) }
    ensures write_fault { result ≡ CheckStatus.WriteFault → Rose (O.faults out.old) (O.faults out.new) }
{
    let answer = match find_answer(alloc, plan, script, cert) {
        Ok(answer) => answer,
        Err(stop) => return status_without(stop),
    };
    write_answer(out, &answer)
}

/// Judges a certificate for a script, and says on `out` how it was judged.
///
/// The arguments are the program's name, the certificate's name and perhaps `--cores` and `--bits`, with which certificates
/// of version 3 are read too. The script is read whole, at most 67,108,865 bytes of it, and walked twice: to its end, and
/// beside the entries of the certificate, of which one at a time is judged. What is written is one write.
///
/// # Errors
///
/// Each status but `Accepted` says why the certificate is not accepted; it leaves what `IsLeft` says of it.
pub fn check_main<'a, S: Source, C: NamedSource, O: Sink>(
    alloc: Global,
    words: &'a [&'a str],
    script: &mut S,
    cert: &mut C,
    out: &mut O,
) -> CheckStatus
    ensures usage { result ≡ CheckStatus.Usage → ¬ (AreTaken (map (λ w. w.now) words.now)) }
    ensures refused { ¬ (AreTaken (map (λ w. w.now) words.now)) → (result ≡ CheckStatus.Usage)
        ⊎ (result ≡ CheckStatus.Memory) }
    ensures unused { result ≡ CheckStatus.Usage → (script.new ≡ script.old) × (cert.new ≡ cert.old)
        × (out.new ≡ out.old) }

    // The status and the text in the output are those that are due for the script and the certificate.
    ensures left { IfSome (S.left script.old)
        (λ bytes. IfSome (C.contents cert.old (cert_name (map (λ w. w.now) words.now))) (λ certificate.
        IsLeft result (due (wants_bits (map (λ w. w.now) words.now)) (wants_cores (map (λ w. w.now) words.now)) bytes
        certificate) (O.holds out.old) (O.holds out.new))) }
    ensures script { IfSome (S.left script.old) (λ bytes. SaysOfScript result bytes (O.holds out.old)
        (O.holds out.new)) }

    // Whatever the status is, a front of the script was taken, of 67,108,865 bytes at most.
    ensures taken { IfSome (S.left script.old) (λ bytes. TakesFront bytes (S.left script.new)) }

    // Of a certificate that was opened no more was read than was needed: without the last 4,096 bytes, or fewer, it was not
    // enough.
    ensures read { IfSome (S.left script.old)
        (λ bytes. IfSome (C.contents cert.old (cert_name (map (λ w. w.now) words.now))) (λ certificate.
        IsReadAt result (wants_bits (map (λ w. w.now) words.now)) bytes certificate (C.left cert.old) (C.left cert.new))) }

    // What a run did not reach is as it was.
    ensures unread { result ≡ CheckStatus.ReadFault → (out.new ≡ out.old) × (cert.new ≡ cert.old) }
    ensures unanswered { result ≡ CheckStatus.CertFault → out.new ≡ out.old }
    ensures unopened { result ≡ CheckStatus.ScriptRefused → cert.new ≡ cert.old }

    // At `Accepted` every check of the script has an entry that is true of it.
    ensures accepted_means { result ≡ CheckStatus.Accepted → IfSome (S.left script.old)
        (λ bytes. IfSome (C.contents cert.old (cert_name (map (λ w. w.now) words.now)))
        (λ certificate. AllHaveEntries (wants_bits (map (λ w. w.now) words.now)) bytes certificate)) }
    ensures read_fault { result ≡ CheckStatus.ReadFault → Rose (S.faults script.old) (S.faults script.new) }
    ensures cert_fault { result ≡ CheckStatus.CertFault → Rose (C.faults cert.old) (C.faults cert.new) }
    ensures write_fault { result ≡ CheckStatus.WriteFault → Rose (O.faults out.old) (O.faults out.new) }
{
    let plan = match CheckPlan::read(alloc, words) {
        Ok(plan) => plan,
        Err(PlanStop::Usage) => return CheckStatus::Usage,
        Err(PlanStop::Memory) => return CheckStatus::Memory,
    };
    run_plan(alloc, &plan, script, cert, out)
}
