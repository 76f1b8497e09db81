//! Which command a form is.
ghost use Rattle.std.specs.Prelude.{◌≡◌};
ghost use Rattle.ffc_smt.specs.Scopes.{State};
ghost use Rattle.ffc_smt.specs.Trees.{Tree};
ghost use Rattle.ffc_words.specs.Words.{word_at};
ghost use Rattle.ffc_elab.specs.Reading.{IsFormOf, IsHeadOf, TimelyAs};

use ffc_lex::TokenKind;
use ffc_parts::{Head, head_named};
use ffc_words::{FaultCode, FormWords, ScriptFault};

/// The place of a command's name.
const NAME: usize = 1;

/// The command of this name, where it may come.
fn timely(words: &FormWords, logic: bool) -> Result<Head, ScriptFault>
    ensures { TimelyAs (word_at words.now 1) logic result }
{
    match head_named(words.bytes(NAME)) {
        None => Err(words.fault(FaultCode::Command, NAME)),
        Some(head) => {
            if head.may_come(logic) {
                Ok(head)
            } else {
                Err(words.fault(FaultCode::Order, NAME))
            }
        }
    }
}

/// The command of a form, where it may come after a logic was set or was not.
pub(crate) fn head_of(words: &FormWords, logic: bool) -> Result<Head, ScriptFault>
    ensures { (s : State) (tree : Tree) → s.logic ≡ logic → IsFormOf words.now tree → IsHeadOf words.now s tree result }
{
    match words.kind(NAME) {
        TokenKind::Symbol => timely(words, logic),
        TokenKind::Quoted => Err(words.fault(FaultCode::Command, NAME)),
        _ => Err(words.fault(FaultCode::Shape, NAME)),
    }
}
