//! The reader of a script.
ghost use Rattle.std.specs.Prelude.{◌≡◌, ◌≤◌, length, false, true, [], Some, None, IfOk, IfErr, IfSome, IfNone, OnOk};
ghost use Rattle.std.specs.Prelude.{OnErr};
ghost use Rattle.ffc_elab.specs.Histories.{check_now, first_known, known_of};
ghost use Rattle.ffc_lex.specs.Lexing.{extended};
ghost use Rattle.ffc_smt.specs.TableChecks.{declared_nodes, nodes_in_force};
ghost use Rattle.ffc_term.specs.Checks.{IsCheck};
ghost use Rattle.ffc_script.specs.Answers.{EndsAt, Gives, HasRun, SaysAll, StopsAt, ends};
ghost use Rattle.ffc_script.specs.Kept.{AreFirst};
ghost use Rattle.ffc_script.specs.Laws.{GoesOnFrom};
ghost use Rattle.ffc_script.specs.Progress.{known_at, steps_of};

use crate::stop::ScriptStop;
use ffc_elab::{Command, Context};
use ffc_lex::{LexStop, Lexer};
use ffc_term::Check;
use std::alloc::{AllocError, Global};
use std::marker::Model;

/// Reads a script that comes in pieces, command by command.
///
/// Clauses see the text so far, the forms whose commands were given, and whether the script is over: then no call follows.
#[derive(Drop)]
pub struct ScriptReader {
    lexer: Lexer,
    context: Context,
    over: bool,
}

impl Model for ScriptReader {
    ghost use Rattle.ffc_script.specs.Progress.{Progress};
    ghost use Rattle.ffc_script.specs.Kept.{IsKept};

    ghost Value = { Progress };

    ghost view = { λ r. record { text = r.lexer.text; forms = r.context; over = r.over } };

    ghost invariant = { λ r. IsKept r.lexer r.context r.over };
}

/// Whether a command ends its script.
fn ends_script(command: &Command) -> bool
    ensures { result ≡ ends command.now }
{
    matches!(command, Command::Exit)
}

impl ScriptReader {
    /// A reader of a script of which nothing has come.
    pub fn new(alloc: Global) -> Result<ScriptReader, AllocError>
        ensures { IfOk result (λ r. r ≡ record { text = []; forms = []; over = false }) }
    {
        Ok(ScriptReader {
            lexer: Lexer::new(alloc),
            context: Context::new(alloc)?,
            over: false,
        })
    }

    /// Appends a piece to the text. Where memory is out, the text is as it was.
    pub fn feed(&mut self, piece: &[u8]) -> Result<(), AllocError>
        requires { self.old.over ≡ false }
        ensures ok { OnOk result (self.new ≡ record self.old { text = extended self.old.text piece.now }) }
        ensures err { OnErr result (self.new ≡ self.old) }
    {
        match self.lexer.feed(piece) {
            Ok(()) => Ok(()),
            Err(LexStop::Memory) => Err(AllocError),
            Err(LexStop::Fault(_)) => unreachable!(),
        }
    }

    /// Gives the next command, once its form is whole. `None` says that it isn't whole yet, and that the text so far is not
    /// at fault.
    pub fn next_command(&mut self) -> Result<Option<Command>, ScriptStop>
        requires { self.old.over ≡ false }
        ensures some { IfOk result (λ found. IfSome found (Gives self.old self.new)) }
        ensures none { IfOk result (λ found. IfNone found ((self.new ≡ self.old) × HasRun self.old)) }
        ensures stop { IfErr result (λ stop. (self.new ≡ record self.old { over = true }) × StopsAt self.old stop) }
    {
        let form = match self.lexer.next_form() {
            Ok(Some(form)) => form,
            Ok(None) => return Ok(None),
            Err(stop) => {
                self.over = true;
                return Err(ScriptStop::from(stop));
            }
        };
        match self.context.take(&form, &self.lexer) {
            Ok(command) => {
                self.over = ends_script(&command);
                Ok(Some(command))
            }
            Err(stop) => {
                self.over = true;
                Err(ScriptStop::from(stop))
            }
        }
    }

    /// Says that the text ends here. Inside a form that is a fault.
    pub fn finish(&mut self) -> Result<(), ScriptStop>
        requires { HasRun self.old }
        ensures ok { OnOk result (SaysAll self.old) }
        ensures stop { IfErr result (EndsAt self.old) }
        ensures new { self.new ≡ record self.old { over = true } }
    {
        self.over = true;
        match self.lexer.finish() {
            Ok(()) => Ok(()),
            Err(stop) => Err(ScriptStop::from(stop)),
        }
    }

    /// What the commands so far leave.
    pub fn context(&self) -> &Context
        ensures { known_of result.now ≡ known_at self.now }
    {
        &self.context
    }

    /// What a check looks at now: one that was given last, or one that would come next.
    pub fn check(&self) -> Check<'_>
        ensures table { result.table.now ≡ (check_now (known_at self.now)).nodes }
        ensures declared { result.declared.now ≡ declared_nodes (check_now (known_at self.now)) }
        ensures in_force { result.in_force.now ≡ nodes_in_force (check_now (known_at self.now)) }
        ensures first_order { result.first_order ≡ (check_now (known_at self.now)).check.first_order }
        ensures valid { IsCheck result }
    {
        let context = &self.context;
        context.stays_sound();
        let first_order = match context.field() {
            Some(field) => field.order(),
            None => 2,
        };
        Check {
            table: context.table(),
            declared: context.declared_nodes(),
            in_force: context.in_force(),
            first_order,
        }
    }

    /// The commands that were given come first, however the text goes on. It does nothing when it runs.
    pub fn steps_come_first(&self)
        ensures { AreFirst self.now.text (steps_of self.now) }
    {
        let _over = self.over;
    }

    /// A command takes a byte of the text at least. It does nothing when it runs.
    pub fn steps_are_few(&self)
        ensures { length (steps_of self.now) ≤ length self.now.text }
    {
        let _over = self.over;
    }

    /// The rest of the script is read from the state that they leave. It does nothing when it runs.
    pub fn goes_on(&self)
        requires { self.now.over ≡ false }
        ensures { GoesOnFrom self.now }
    {
        let _over = self.over;
    }
}
