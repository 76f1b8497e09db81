//! The solver's top call.
ghost use Rattle.std.specs.Prelude.{◌≡◌, ℕ, ◌<◌, ◌≤◌, ◌⊎◌, List, Some, None, map, OnOk, OnErr, IfOk, IfSome, IsErrOf};
ghost use Rattle.std.specs.Prelude.{string_bytes};
ghost use Rattle.ffc_cert.specs.declared.entries.Entry.{Entry as CertEntry};
ghost use Rattle.ffc_answer.specs.Answers.{made_answer};
ghost use Rattle.ffc_base.specs.Outside.{Rose, Becomes};
ghost use Rattle.ffc_smt.specs.Scripts.{reads};
ghost use Rattle.ffc_solve.specs.Arguments.{AreRefused, AskToMake, HasPlan, task_of, wants_bits};
ghost use Rattle.ffc_solve.specs.declared.arguments.Plan.{Plan as SolvePlan};
ghost use Rattle.ffc_solve.specs.Changes.{change};
ghost use Rattle.ffc_solve.specs.Generated.{made_text};
ghost use Rattle.ffc_solve.specs.Remembering.{Counts, IsBudget};
ghost use Rattle.ffc_solve.specs.Solving.{AnswersSoon, EndsSoon, IsPaused, IsStopped, IsTaken, IsWhole};
ghost use Rattle.ffc_solve.specs.Status.{EndsAs, IsScript, IsUntouchedOrNamed, Leaves, code_of, status_of};
ghost use Rattle.ffc_solve.specs.Underway.{IsFirst, is_fault};

use crate::arguments::{Plan, PlanStop, Task};
use crate::dialogue::Dialogue;
use crate::generated::make_script;
use crate::remembered::Tally;
use crate::running::run;
use crate::stop::{Stop, create_certificate, write_out};
use ffc_base::{NamedSink, Sink, Source, SureSource};
use ffc_script::ScriptReader;
use ffc_theory::Session;
use std::alloc::{AllocError, Global};

/// How a run ended.
#[derive(Clone, Copy, Debug, PartialEq, Eq)]
pub enum SolveStatus {
    /// The whole script is answered.
    Done,
    /// The script has a fault; what comes before it is answered, and the fault is written.
    Refused,
    /// The arguments are refused.
    Usage,
    /// Reading the script failed.
    ReadFault,
    /// Writing an answer failed.
    WriteFault,
    /// Creating or writing the certificate failed.
    CertFault,
    /// Out of memory.
    Memory,
}

impl SolveStatus {
    /// The number that the program ends with.
    pub fn code(self) -> u8
        ensures { result ≡ code_of self }
    {
        match self {
            SolveStatus::Done => 0,
            SolveStatus::Refused => 1,
            SolveStatus::Usage => 2,
            SolveStatus::ReadFault => 3,
            SolveStatus::WriteFault => 4,
            SolveStatus::CertFault => 5,
            SolveStatus::Memory => 6,
        }
    }
}

/// A dialogue of a script of which nothing has come.
fn first_dialogue(alloc: Global, task: Task) -> Result<Dialogue, AllocError>
    ensures first { IfOk result IsFirst }
    ensures task { IfOk result (λ s. s.task ≡ task) }
{
    Ok(Dialogue {
        alloc,
        task,
        reader: ScriptReader::new(alloc)?,
        taken: 0,
        last: None,
        tally: Tally {
            sat: 0,
            unsat: 0,
            unknown: 0,
        },
        kept: Session::new(alloc)?,
    })
}

/// Creates the certificate and answers a script, and says whether the script has a fault.
fn answer_script<S: Source, O: Sink, C: NamedSink>(
    alloc: Global,
    plan: &Plan,
    script: &mut S,
    out: &mut O,
    cert: &mut C,
) -> Result<bool, Stop>
    requires budget { IsBudget plan.now.steps }
    ensures ok { OnOk result (IfSome (S.left script.old) (λ bytes. IsWhole (task_of plan.now) None bytes
        (change C.holds cert) (change O.holds out))) }
    ensures refused { IfOk result
        (λ refused. IfSome (S.left script.old) (λ bytes. refused ≡ is_fault (reads bytes).end)) }
    ensures err { OnErr result (IfSome (S.left script.old) (λ bytes. IsStopped (task_of plan.now) None bytes
        (change C.holds cert) (change O.holds out))) }
    ensures paused { IsErrOf result Stop.ReadFault → IfSome (S.left script.old) (λ bytes. (text : List ℕ)
        × IsTaken text bytes (S.left script.new)
        × IsPaused (task_of plan.now) text (change C.holds cert) (change O.holds out)) }
    ensures taken { IfSome (S.left script.old) (λ bytes. (text : List ℕ) × IsTaken text bytes (S.left script.new)
        × EndsSoon text × AnswersSoon plan.now.bits text (change C.holds cert) (change O.holds out)) }
    ensures named { OnOk result (Becomes plan.now.cert_name (C.name cert.old) (C.name cert.new)) }
    ensures begun { OnErr result (IsUntouchedOrNamed plan.now.cert_name (change C.holds cert) (change O.holds out)
        (change C.name cert)) }
    ensures cause_script { IsErrOf result Stop.ReadFault → Rose (S.faults script.old) (S.faults script.new) }
    ensures cause_out { IsErrOf result Stop.WriteFault → Rose (O.faults out.old) (O.faults out.new) }
    ensures cause_cert { IsErrOf result Stop.CertFault → Rose (C.faults cert.old) (C.faults cert.new) }
{
    create_certificate(cert, plan.cert_name.as_str(), plan.bits)?;
    let mut dialogue = first_dialogue(alloc, plan.task())?;
    run(&mut dialogue, script, out, cert)
}

/// The line that says how large a generated script is, and how its checks were answered.
fn made_line(alloc: Global, size: u64, tally: Tally) -> Result<String, AllocError>
    ensures { IfOk result (λ text. (entries : List CertEntry) → Counts tally entries → string_bytes text
        ≡ made_answer (Some size) entries) }
{
    let mut text = String::new(alloc);
    write!(
        text,
        "made {size} sat {} unsat {} unknown {}\n",
        tally.sat, tally.unsat, tally.unknown
    )?;
    Ok(text)
}

/// Answers a generated script of this size, and then says how its checks were answered.
fn answer_generated<O: Sink, C: NamedSink>(
    alloc: Global,
    plan: &Plan,
    size: u64,
    out: &mut O,
    cert: &mut C,
) -> Result<bool, Stop>
    requires budget { IsBudget plan.now.steps }
    requires some { 0 < size }
    requires few { size ≤ 10000 }
    ensures ok { OnOk result (IsWhole (task_of plan.now) (Some size) (made_text size)
        (change C.holds cert) (change O.holds out)) }
    ensures refused { IfOk result (λ refused. refused ≡ is_fault (reads (made_text size)).end) }
    ensures err { OnErr result (IsStopped (task_of plan.now) (Some size) (made_text size)
        (change C.holds cert) (change O.holds out)) }
    ensures named { OnOk result (Becomes plan.now.cert_name (C.name cert.old) (C.name cert.new)) }
    ensures begun { OnErr result (IsUntouchedOrNamed plan.now.cert_name (change C.holds cert) (change O.holds out)
        (change C.name cert)) }
    ensures only { ¬ (IsErrOf result Stop.ReadFault) }
    ensures cause_out { IsErrOf result Stop.WriteFault → Rose (O.faults out.old) (O.faults out.new) }
    ensures cause_cert { IsErrOf result Stop.CertFault → Rose (C.faults cert.old) (C.faults cert.new) }
{
    let text = make_script(alloc, size)?;
    let mut script = SureSource::new(text.into_vec());
    let mut dialogue = first_dialogue(alloc, plan.task())?;
    create_certificate(cert, plan.cert_name.as_str(), plan.bits)?;
    let refused = run(&mut dialogue, &mut script, out, cert)?;
    let line = made_line(alloc, size, dialogue.tally)?;
    write_out(out, line.as_bytes())?;
    Ok(refused)
}

/// The status of a run that ended so.
fn status_of(ended: Result<bool, Stop>) -> SolveStatus
    ensures { result ≡ status_of ended }
{
    match ended {
        Ok(false) => SolveStatus::Done,
        Ok(true) => SolveStatus::Refused,
        Err(Stop::ReadFault) => SolveStatus::ReadFault,
        Err(Stop::WriteFault) => SolveStatus::WriteFault,
        Err(Stop::CertFault) => SolveStatus::CertFault,
        Err(Stop::Memory) => SolveStatus::Memory,
    }
}

/// Reads a script, writes its answers, and leaves an entry for each of its checks in the certificate's file.
///
/// The arguments are `--cert FILE [--steps N] [--make N] [--bits]`, after the program's name. The script is read in pieces, and
/// each command is answered as soon as it is whole; after `exit` and after a fault no more is read. Each entry is one write, made
/// before the verdict is written, and each answer is one write. With `--make N` nothing is read, and a generated script is
/// answered. With `--bits` the certificate is of version 3, else of version 2.
///
/// # Errors
///
/// Each status but `Done` says why the run ended; it leaves what `IsLeft` says of it.
pub fn solve_main<'a, S: Source, O: Sink, C: NamedSink>(
    alloc: Global,
    words: &'a [&'a str],
    script: &mut S,
    out: &mut O,
    cert: &mut C,
) -> SolveStatus
    ensures usage { result ≡ SolveStatus.Usage → AreRefused (map (λ w. w.now) words.now) }
    ensures refused { AreRefused (map (λ w. w.now) words.now) → (result ≡ SolveStatus.Usage)
        ⊎ (result ≡ SolveStatus.Memory) }
    ensures unused { result ≡ SolveStatus.Usage → (script.new ≡ script.old) × (out.new ≡ out.old)
        × (cert.new ≡ cert.old) }

    // Where a generated script is asked for, nothing is read.
    ensures unread { AskToMake (map (λ w. w.now) words.now) → script.new ≡ script.old }

    // What the certificate and the output have, by the status and by what the arguments ask for.
    ensures left { Leaves (map (λ w. w.now) words.now) result (S.left script.old)
        (change C.holds cert) (change O.holds out) (change C.name cert) }

    // Where the words are accepted and no count of faults rose, the run ends as its script does, or out of memory.
    ensures ends { ¬ (AreRefused (map (λ w. w.now) words.now)) → ¬ (Rose (S.faults script.old) (S.faults script.new))
        → ¬ (Rose (O.faults out.old) (O.faults out.new)) → ¬ (Rose (C.faults cert.old) (C.faults cert.new))
        → (bytes : List ℕ) → IsScript (map (λ w. w.now) words.now) (S.left script.old) bytes
        → EndsAs result (reads bytes).end }

    // How much of the script was taken, what of it is answered, and just what is where reading failed.
    ensures paused { result ≡ SolveStatus.ReadFault → IfSome (S.left script.old) (λ bytes. (plan : SolvePlan)
        × HasPlan (map (λ w. w.now) words.now) plan × (text : List ℕ) × IsTaken text bytes (S.left script.new)
        × IsPaused (task_of plan) text (change C.holds cert) (change O.holds out)) }
    ensures taken { IfSome (S.left script.old) (λ bytes. (text : List ℕ) × IsTaken text bytes (S.left script.new)
        × EndsSoon text × AnswersSoon (wants_bits (map (λ w. w.now) words.now)) text (change C.holds cert)
        (change O.holds out)) }
    ensures read_fault { result ≡ SolveStatus.ReadFault → Rose (S.faults script.old) (S.faults script.new) }
    ensures write_fault { result ≡ SolveStatus.WriteFault → Rose (O.faults out.old) (O.faults out.new) }
    ensures cert_fault { result ≡ SolveStatus.CertFault → Rose (C.faults cert.old) (C.faults cert.new) }
{
    let plan = match Plan::read(alloc, words) {
        Ok(plan) => plan,
        Err(PlanStop::Usage) => return SolveStatus::Usage,
        Err(PlanStop::Memory) => return SolveStatus::Memory,
    };
    match plan.make {
        None => status_of(answer_script(alloc, &plan, script, out, cert)),
        Some(size) => status_of(answer_generated(alloc, &plan, size, out, cert)),
    }
}
