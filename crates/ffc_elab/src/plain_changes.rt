//! What the commands without names, sorts and terms answer and change.
ghost use Rattle.std.specs.Prelude.{◌≡◌, IfOk, OnErr, OnOk};
ghost use Rattle.ffc_smt.specs.Scopes.{State, level_of};
ghost use Rattle.ffc_elab.specs.Histories.{Known};

use crate::answers::{Command, Effect};
use crate::plain::{Info, MOST_LEVELS, Plain, read_plain};
use crate::store::Store;
use ffc_lex::Text;
use ffc_parts::{Head, Setting};
use ffc_words::{FormWords, TakeStop};
use std::alloc::AllocError;

impl Store {
    ghost use Rattle.ffc_parts.specs.Heads.{setting_of};
    ghost use Rattle.ffc_smt.specs.Terms as smt;
    ghost use Rattle.ffc_elab.specs.declared.answers.Command.TheVariants as command;
    ghost use Rattle.ffc_elab.specs.Kept.{IsKept};
    ghost use Rattle.ffc_elab.specs.Answers.{IsAnswered};
    ghost use Rattle.ffc_elab.specs.Reading.{IsWithin, info_of, plain_of};
    ghost use Rattle.ffc_elab.specs.Changes.{in_state, opened, quietly_after, settled, with_state};

    /// The value of an option.
    fn option_value(&self, setting: Setting) -> Result<Command, AllocError>
        ensures { IfOk result (λ r. (k : Known) → IsKept k self.now
            → IsAnswered k.state (smt.GetOption (setting_of setting)) r) }
    {
        let text = if self.options.get(setting) {
            b"true".as_slice()
        } else {
            b"false".as_slice()
        };
        Ok(Command::Say(Text::copy_of(self.alloc, text)?))
    }

    /// How many levels are open, as it is answered.
    fn level_text(&self) -> Result<Text, AllocError>
        ensures { IfOk result (λ t. (k : Known) → IsKept k self.now
            → IsAnswered k.state (smt.GetInfo smt.AssertionStackLevels) (command.Say t)) }
    {
        let levels = self.marks.len();
        let text = format!(in self.alloc; "(:assertion-stack-levels {levels})")?;
        Text::copy_of(self.alloc, text.as_bytes())
    }

    /// What `get-info` answers.
    fn information(&self, info: Info) -> Result<Command, AllocError>
        ensures { IfOk result (λ r. (k : Known) → IsKept k self.now → IsAnswered k.state (smt.GetInfo (info_of info))
            r) }
    {
        match info {
            Info::SolverName => {
                let text = Text::copy_of(self.alloc, b"(:name \"ffsolve\")")?;
                Ok(Command::Say(text))
            }
            Info::Version => {
                let text = Text::copy_of(self.alloc, b"(:version \"1\")")?;
                Ok(Command::Say(text))
            }
            Info::AssertionStackLevels => Ok(Command::Say(self.level_text()?)),
            Info::ReasonUnknown => Ok(Command::GetReason),
        }
    }

    /// What is answered to a command.
    fn answer(&self, plain: Plain) -> Result<Command, AllocError>
        ensures { IfOk result (λ r. (k : Known) → IsKept k self.now
            → IsAnswered (quietly_after (plain_of plain.entry) k.state) (plain_of plain.entry) r) }
    {
        match plain {
            Plain::SetLogic | Plain::SetOption(..) | Plain::SetInfo => {
                Ok(Command::Quiet(Effect::Keeps))
            }
            Plain::GetOption(setting) => self.option_value(setting),
            Plain::GetInfo(info) => self.information(info),
            Plain::Unsupported => Ok(Command::Unsupported),
            Plain::Echo(text) => {
                let text = Text::copy_of(self.alloc, text)?;
                Ok(Command::Say(text))
            }
            Plain::CheckSat => Ok(Command::Check),
            Plain::GetModel => Ok(Command::GetModel),
            Plain::GetUnsatCore => Ok(Command::GetCore),
            Plain::GetUnsatAssumptions => Ok(Command::GetAssumptions),
            Plain::Push(_) | Plain::Pop(_) | Plain::ResetAssertions => {
                Ok(Command::Quiet(Effect::EndsModel))
            }
            Plain::Reset => Ok(Command::Quiet(Effect::Forgets)),
            Plain::Exit => Ok(Command::Exit),
        }
    }

    /// What a command changes, but for the levels that it opens.
    fn settle(&mut self, plain: Plain)
        ensures { (s : State) → IsKept (in_state s) self.old → IsKept (in_state (settled plain.entry s)) self.new }
    {
        match plain {
            Plain::SetLogic => self.logic = true,
            Plain::SetOption(setting, value) => self.options.set(setting, value),
            Plain::Pop(count) => self.pop(count as usize),
            Plain::ResetAssertions => self.reset_assertions(),
            Plain::Reset => self.reset(),
            Plain::GetOption(_)
            | Plain::SetInfo
            | Plain::GetInfo(_)
            | Plain::Unsupported
            | Plain::Echo(_)
            | Plain::CheckSat
            | Plain::GetModel
            | Plain::GetUnsatCore
            | Plain::GetUnsatAssumptions
            | Plain::Push(_)
            | Plain::Exit => {}
        }
    }

    /// Opens the levels that a command opens.
    fn open(&mut self, plain: Plain) -> Result<(), AllocError>
        ensures ok { OnOk result ((k : Known) → IsWithin (level_of k.state) plain.entry → IsKept k self.old
            → IsKept (with_state k (opened plain.entry k.state)) self.new) }
        ensures err { OnErr result ((k : Known) → IsKept k self.old → IsKept k self.new) }
    {
        match plain {
            Plain::Push(count) => self.push(count),
            _ => Ok(()),
        }
    }

    /// Takes a command.
    pub(crate) fn take_plain(&mut self, plain: Plain) -> Result<Command, AllocError>
        ensures ok { IfOk result (λ r. (k : Known) → IsWithin (level_of k.state) plain.entry → IsKept k self.old
            → IsKept (in_state (quietly_after (plain_of plain.entry) k.state)) self.new
            × IsAnswered (quietly_after (plain_of plain.entry) k.state) (plain_of plain.entry) r) }
        ensures err { OnErr result ((k : Known) → IsKept k self.old → IsKept k self.new) }
    {
        let answer = self.answer(plain)?;
        self.open(plain)?;
        self.forget_assumptions();
        self.settle(plain);
        Ok(answer)
    }
}

impl Store {
    ghost use Rattle.ffc_smt.specs.Trees.{Tree};
    ghost use Rattle.ffc_elab.specs.Kept.{IsKept, IsKnown};
    ghost use Rattle.ffc_elab.specs.Reading.{IsCommandForm, IsPlainHead};
    ghost use Rattle.ffc_elab.specs.Taking.{TakesKept};

    /// Takes a form with the head of a command without names, sorts and terms.
    pub(crate) fn plain_command(
        &mut self,
        words: &FormWords,
        head: Head,
    ) -> Result<Command, TakeStop>
        requires { IsPlainHead head }
        ensures { (k : Known) (tree : Tree) → IsKept k self.old → IsKnown k → IsCommandForm words.now k.state tree head
            → TakesKept k tree self.new result }
    {
        let level = self.marks.len().min(MOST_LEVELS as usize) as u32;
        match read_plain(words, head, self.logic, level) {
            Err(fault) => Err(TakeStop::Fault(fault)),
            Ok(plain) => match self.take_plain(plain) {
                Ok(answer) => Ok(answer),
                Err(_) => Err(TakeStop::Memory),
            },
        }
    }
}
