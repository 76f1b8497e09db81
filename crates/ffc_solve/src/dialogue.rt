//! A dialogue: the commands of a script, answered one by one.
ghost use Rattle.std.specs.Prelude.{◌≡◌, ℕ, ◌≤◌, ◌⊎◌, length, map, option_map, List, Option, Some, true, false, OnOk};
ghost use Rattle.std.specs.Prelude.{OnErr, IfOk, IfErr, IsErrOf};
ghost use Rattle.std.specs.Option.{option_copied};
ghost use Rattle.ffc_base.specs.Outside.{Rose, Appends, AppendsPrefix};
ghost use Rattle.ffc_cert.specs.declared.entries.Entry.{Entry as CertEntry};
ghost use Rattle.ffc_cert.specs.Spelling.{entry_text};
ghost use Rattle.ffc_cert.specs.WellFormed.{FitsVersion};
ghost use Rattle.ffc_smt.specs.Scripts.{Step};
ghost use Rattle.ffc_elab.specs.Histories.{check_now, known_of};
ghost use Rattle.ffc_answer.specs.Answers.{Last, answer_of, last_after, verdict};
ghost use Rattle.ffc_script.specs.Answers.{Gives};
ghost use Rattle.ffc_script.specs.Progress.{Progress, known_at};
ghost use Rattle.ffc_trials.specs.Versions.{written_version};
ghost use Rattle.ffc_solve.specs.Changes.{change};
ghost use Rattle.ffc_solve.specs.Solving.{IsRight};
ghost use Rattle.ffc_solve.specs.Remembering.{Holds, HasRoom, IsAsked, IsBudget, IsChecked, IsNext, asked_in, core_in};
ghost use Rattle.ffc_solve.specs.Remembering.{counted, effect_by, entry_in, fresh_in, remembered_after};
ghost use Rattle.ffc_solve.specs.Underway.{GoesOn, IsCutAt, IsHalfTold};

use crate::arguments::Task;
use crate::remembered::{Remembered, Tally};
use crate::stop::{Stop, write_certificate, write_out};
use ffc_answer::{View, verdict_of, write_answer};
use ffc_base::Sink;
use ffc_cert::{Entry, write_entry};
use ffc_core::core_of;
use ffc_elab::{Asked, Command, Effect};
use ffc_script::{ScriptReader, ScriptStop};
use ffc_theory::Session;
use ffc_words::ScriptFault;
use std::alloc::{AllocError, Global};

/// The version of the certificate's text, where no line of bits may stand in it.
const VERSION_PLAIN: u8 = 2;

/// The version that has lines of bits.
const VERSION_BITS: u8 = 3;

/// Where a script is, and what is remembered of its last check.
#[derive(Drop)]
pub struct Dialogue {
    pub alloc: Global,
    /// What each check is decided with.
    pub task: Task,
    pub reader: ScriptReader,
    /// How many bytes of the script were taken.
    pub taken: usize,
    pub last: Option<Remembered>,
    pub tally: Tally,
    /// What is kept from one check to the next.
    pub kept: Session,
}

/// How a dialogue went on.
#[derive(Clone, Copy, Debug, PartialEq, Eq)]
pub enum Advance {
    /// A command was answered.
    Answered,
    /// The next command is not whole yet.
    Waiting,
    /// The script has ended by `exit`.
    Ended,
    /// The script has a fault, which is not answered yet.
    Fault(ScriptFault),
}

/// Counts an entry.
fn count(tally: Tally, entry: &Entry) -> Tally
    requires { HasRoom tally }
    ensures { result ≡ counted entry.now tally }
{
    let mut tally = tally;
    match entry {
        Entry::Sat(_) => tally.sat += 1,
        Entry::UnsatCases | Entry::UnsatSteps(_) => tally.unsat += 1,
        Entry::Unknown(_) => tally.unknown += 1,
    }
    tally
}

/// The version of the certificate's text.
fn version_of(bits: bool) -> u8
    ensures { result ≡ written_version bits }
{
    if bits { VERSION_BITS } else { VERSION_PLAIN }
}

/// Writes an entry, and then its verdict.
fn tell<O: Sink, C: Sink>(
    alloc: Global,
    bits: bool,
    entry: &Entry,
    out: &mut O,
    cert: &mut C,
) -> Result<(), Stop>
    requires { FitsVersion (written_version bits) entry.now }
    ensures ok { OnOk result (Appends (entry_text entry.now) (C.holds cert.old) (C.holds cert.new)
        × Appends (verdict entry.now) (O.holds out.old) (O.holds out.new)) }
    ensures err { OnErr result (IsHalfTold entry.now (change C.holds cert) (change O.holds out)) }
    ensures same_name { C.name cert.new ≡ C.name cert.old }
    ensures later_out { O.faults out.old ≤ O.faults out.new }
    ensures later_cert { C.faults cert.old ≤ C.faults cert.new }
    ensures cause_out { IsErrOf result Stop.WriteFault → Rose (O.faults out.old) (O.faults out.new) }
    ensures cause_cert { IsErrOf result Stop.CertFault → Rose (C.faults cert.old) (C.faults cert.new) }
    ensures only { ¬ (IsErrOf result Stop.ReadFault) }
{
    let mut text = Vec::new(alloc);
    write_entry(alloc, version_of(bits), entry, &mut text)?;
    write_certificate(cert, text.as_slice())?;
    write_out(out, verdict_of(entry).as_bytes())
}

/// What is remembered after an effect.
fn after_effect(effect: Effect, last: Option<Remembered>) -> Option<Remembered>
    ensures { result ≡ remembered_after effect last }
{
    match effect {
        Effect::Keeps => last,
        Effect::EndsModel => last.map(|remembered| Remembered {
            fresh: false,
            ..remembered
        }),
        Effect::Forgets => None,
    }
}

/// The effect of a command.
fn effect_of(command: &Command) -> Effect
    ensures { result ≡ effect_by command.now }
{
    match command {
        Command::Quiet(effect) => *effect,
        _ => Effect::Keeps,
    }
}

/// The entry of the check that was read last. What isn't decided says why.
fn entry(kept: &mut Session, reader: &ScriptReader, task: Task) -> Entry
    requires { IsBudget task.steps }
    ensures { IsRight task (check_now (known_at reader.now)) result }
{
    match kept.decide_in_order(&reader.check(), task.steps, task.bits) {
        Ok(entry) => entry,
        Err(stop) => Entry::Unknown(stop.cause()),
    }
}

impl Dialogue {
    /// Decides and answers the check that was read last, and remembers it.
    fn check<O: Sink, C: Sink>(
        &mut self,
        asked: Option<Vec<Asked>>,
        out: &mut O,
        cert: &mut C,
    ) -> Result<(), Stop>
        requires budget { IsBudget self.old.task.steps }
        requires room { HasRoom self.old.tally }
        ensures ok { OnOk result ((entry : CertEntry) × IsRight self.old.task (check_now (known_at self.old.reader))
            entry × IsChecked self.old self.new asked entry
            × Appends (entry_text entry) (C.holds cert.old) (C.holds cert.new)
            × Appends (verdict entry) (O.holds out.old) (O.holds out.new)) }
        ensures err { OnErr result ((entry : CertEntry) × IsRight self.old.task (check_now (known_at self.old.reader))
            entry × IsHalfTold entry (change C.holds cert) (change O.holds out)) }
        ensures same_name { C.name cert.new ≡ C.name cert.old }
        ensures later_out { O.faults out.old ≤ O.faults out.new }
        ensures later_cert { C.faults cert.old ≤ C.faults cert.new }
        ensures cause_out { IsErrOf result Stop.WriteFault → Rose (O.faults out.old) (O.faults out.new) }
        ensures cause_cert { IsErrOf result Stop.CertFault → Rose (C.faults cert.old) (C.faults cert.new) }
        ensures only { ¬ (IsErrOf result Stop.ReadFault) }
    {
        let entry = entry(&mut self.kept, &self.reader, self.task);
        let in_force = self.reader.check().in_force.len() as u64;
        let core = core_of(self.alloc, &entry, in_force)?;
        tell(self.alloc, self.task.bits, &entry, out, cert)?;
        self.tally = count(self.tally, &entry);
        self.last = Some(Remembered {
            entry,
            fresh: true,
            core,
            asked,
        });
        Ok(())
    }

    /// What an answer is read from.
    fn view(&self) -> View<'_>
        ensures context { known_of result.context.now ≡ known_at self.now.reader }
        ensures last { option_copied result.last ≡ entry_in self.now.last }
        ensures fresh { result.fresh ≡ fresh_in self.now.last }
        ensures core { result.core.now ≡ core_in self.now.last }
        ensures asked { option_map (λ asked. map (λ a. a.text) asked) (option_copied result.asked)
            ≡ asked_in self.now.last }
    {
        let context = self.reader.context();
        match &self.last {
            Some(last) => View {
                context,
                last: Some(&last.entry),
                fresh: last.fresh,
                core: last.core.as_slice(),
                asked: slice_of(&last.asked),
            },
            None => View {
                context,
                last: None,
                fresh: false,
                core: &[],
                asked: None,
            },
        }
    }

    /// The answer to the command that was read last.
    fn answer_to(&self, command: &Command) -> Result<Vec<u8>, AllocError>
        requires asked { (l : Option Last) × (x : Step) × IsAsked self.now command.now l x }
        ensures { IfOk result (λ text. (l : Option Last) (x : Step) → IsAsked self.now command.now l x → text.items
            ≡ answer_of l x) }
    {
        let mut text = Vec::new(self.alloc);
        write_answer(self.alloc, command, &self.view(), &mut text)?;
        Ok(text)
    }

    /// Answers the command that was read last, which is no check and no end. An answer that is empty is not written.
    fn reply<O: Sink>(&mut self, command: &Command, out: &mut O) -> Result<Advance, Stop>
        requires next { (p : Progress) × (entries : List CertEntry) × (l : Option Last)
            × IsNext p self.old entries l command.now }
        ensures ok { OnOk result ((p : Progress) (entries : List CertEntry) (l : Option Last)
            (n : IsNext p self.old entries l command.now)
            → Appends (answer_of (last_after l n.gives.step.command) n.gives.step) (O.holds out.old)
            (O.holds out.new)) }
        ensures err { OnErr result ((p : Progress) (entries : List CertEntry) (l : Option Last)
            (n : IsNext p self.old entries l command.now)
            → AppendsPrefix (answer_of (last_after l n.gives.step.command) n.gives.step) (O.holds out.old)
            (O.holds out.new)) }
        ensures answered { IfOk result (λ a. a ≡ Advance.Answered) }
        ensures dialogue { self.new
            ≡ record self.old { last = remembered_after (effect_by command.now) self.old.last } }
        ensures later_out { O.faults out.old ≤ O.faults out.new }
        ensures cause_out { IsErrOf result Stop.WriteFault → Rose (O.faults out.old) (O.faults out.new) }
        ensures only { IfErr result (λ stop. (stop ≡ Stop.WriteFault) ⊎ (stop ≡ Stop.Memory)) }
    {
        self.reader.steps_come_first();
        let last = self.last.take();
        self.last = after_effect(effect_of(command), last);
        let text = self.answer_to(command)?;
        if !text.is_empty() {
            write_out(out, text.as_slice())?;
        }
        Ok(Advance::Answered)
    }

    /// Answers a command that the reader has given.
    fn answer<O: Sink, C: Sink>(
        &mut self,
        command: Command,
        out: &mut O,
        cert: &mut C,
    ) -> Result<Advance, Stop>
        requires budget { IsBudget self.old.task.steps }
        requires short { length self.old.reader.text ≤ 67108865 }
        requires given { (p : Progress) × (entries : List CertEntry) × (l : Option Last) × Holds p self.old entries l
            × Gives p self.old.reader command }
        ensures ok { IfOk result (λ a. (p : Progress) (entries : List CertEntry) (l : Option Last)
            → Holds p self.old entries l → Gives p self.old.reader command
            → GoesOn (record self.old { reader = p }) self.new entries (change C.holds cert) (change O.holds out) a) }
        ensures err { OnErr result ((p : Progress) (entries : List CertEntry) (l : Option Last) (more : List ℕ)
            → Holds p self.old entries l → Gives p self.old.reader command
            → IsCutAt (record self.old { reader = p }) entries more (change C.holds cert) (change O.holds out)) }
        ensures same_name { C.name cert.new ≡ C.name cert.old }
        ensures later_out { O.faults out.old ≤ O.faults out.new }
        ensures later_cert { C.faults cert.old ≤ C.faults cert.new }
        ensures cause_out { IsErrOf result Stop.WriteFault → Rose (O.faults out.old) (O.faults out.new) }
        ensures cause_cert { IsErrOf result Stop.CertFault → Rose (C.faults cert.old) (C.faults cert.new) }
        ensures only { ¬ (IsErrOf result Stop.ReadFault) }
    {
        self.reader.steps_come_first();
        self.reader.steps_are_few();
        match command {
            Command::Check => {
                self.check(None, out, cert)?;
                Ok(Advance::Answered)
            }
            Command::CheckAssuming(asked) => {
                self.check(Some(asked), out, cert)?;
                Ok(Advance::Answered)
            }
            Command::Exit => Ok(Advance::Ended),
            other => self.reply(&other, out),
        }
    }

    /// Answers the next command, once it is whole.
    pub fn advance<O: Sink, C: Sink>(&mut self, out: &mut O, cert: &mut C) -> Result<Advance, Stop>
        requires active { self.old.reader.over ≡ false }
        requires budget { IsBudget self.old.task.steps }
        requires short { length self.old.reader.text ≤ 67108865 }
        requires held { (entries : List CertEntry) × (l : Option Last) × Holds self.old.reader self.old entries l }
        ensures ok { IfOk result (λ a. (entries : List CertEntry) (l : Option Last)
            → Holds self.old.reader self.old entries l
            → GoesOn self.old self.new entries (change C.holds cert) (change O.holds out) a) }
        ensures err { OnErr result ((entries : List CertEntry) (l : Option Last) (more : List ℕ)
            → Holds self.old.reader self.old entries l
            → IsCutAt self.old entries more (change C.holds cert) (change O.holds out)) }
        ensures same_name { C.name cert.new ≡ C.name cert.old }
        ensures later_out { O.faults out.old ≤ O.faults out.new }
        ensures later_cert { C.faults cert.old ≤ C.faults cert.new }
        ensures cause_out { IsErrOf result Stop.WriteFault → Rose (O.faults out.old) (O.faults out.new) }
        ensures cause_cert { IsErrOf result Stop.CertFault → Rose (C.faults cert.old) (C.faults cert.new) }
        ensures only { ¬ (IsErrOf result Stop.ReadFault) }
    {
        self.reader.steps_come_first();
        match self.reader.next_command() {
            Ok(Some(command)) => self.answer(command, out, cert),
            Ok(None) => Ok(Advance::Waiting),
            Err(stop) => match stop {
                ScriptStop::Fault(fault) => Ok(Advance::Fault(fault)),
                ScriptStop::Memory => Err(Stop::Memory),
            },
        }
    }
}

/// A list that may be there.
fn slice_of(asked: &Option<Vec<Asked>>) -> Option<&[Asked]>
    ensures { option_copied result ≡ option_map (λ v. v.items) asked.now }
{
    match asked {
        Some(asked) => Some(asked.as_slice()),
        None => None,
    }
}
