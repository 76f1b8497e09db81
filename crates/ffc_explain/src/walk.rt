//! The commands of a script, each with its line.
ghost use Rattle.std.specs.Prelude.{◌≡◌, false};
ghost use Rattle.ffc_script.specs.Answers.{ends};

use ffc_elab::{Command, Context};
use ffc_lex::{LexStop, Lexer};
use ffc_script::{ScriptReader, ScriptStop};
use std::alloc::Global;

/// A command, and the line of its first parenthesis.
#[derive(Drop)]
pub(crate) struct Step {
    pub(crate) command: Command,
    pub(crate) line: u64,
}

/// Goes through a script, which is read twice side by side: for its commands, and for their places.
#[derive(Drop)]
pub(crate) struct Walk {
    reader: ScriptReader,
    lexer: Lexer,
    is_over: bool,
    ghost open: { is_over ≡ false → reader.over ≡ false },
}

/// Whether a command ends its script.
fn is_exit(command: &Command) -> bool
    ensures { result ≡ ends command.now }
{
    matches!(command, Command::Exit)
}

/// Why a lexer stops, as why a script is not read on.
fn script_stop(stop: LexStop) -> ScriptStop {
    ScriptStop::from(stop)
}

impl Walk {
    /// A walk that begins with the first command.
    pub(crate) fn new(alloc: Global, script: &[u8]) -> Result<Walk, ScriptStop> {
        let mut lexer = Lexer::new(alloc);
        if let Err(stop) = lexer.feed(script) {
            return Err(script_stop(stop));
        }
        let mut reader = ScriptReader::new(alloc)?;
        reader.feed(script)?;
        Ok(Walk {
            reader,
            lexer,
            is_over: false,
        })
    }

    /// What the commands so far leave.
    pub(crate) fn context(&self) -> &Context {
        self.reader.context()
    }

    /// The line of the form that the lexer gives next.
    fn next_line(&mut self) -> u64 {
        match self.lexer.next_form() {
            Ok(Some(form)) => match form.tokens().first() {
                Some(token) => token.line,
                None => 0,
            },
            _ => 0,
        }
    }

    /// The next command; none at the end of the script or at `exit`.
    pub(crate) fn next(&mut self) -> Result<Option<Step>, ScriptStop> {
        if self.is_over {
            return Ok(None);
        }
        self.is_over = true;
        match self.reader.next_command() {
            Ok(Some(command)) => {
                self.is_over = is_exit(&command);
                if self.is_over {
                    return Ok(None);
                }
                let line = self.next_line();
                Ok(Some(Step { command, line }))
            }
            Ok(None) => {
                self.reader.finish()?;
                Ok(None)
            }
            Err(stop) => Err(stop),
        }
    }
}
