//! Forms of scripts.
ghost use Rattle.std.specs.Prelude.{◌≡◌, false, IfSome};
ghost use Rattle.ffc_words.specs.Given.{IsGiven};

use ffc_lex::{Form, Lexer};

/// The next form of a lexer that is fed a text, where one is whole.
#[tactic(auto, using(ffc_terms::proofs::GivenLemmas::given_now))]
pub(crate) fn next_form(lexer: &mut Lexer, text: &[u8]) -> Option<Form>
    requires { lexer.old.finished ≡ false }
    ensures { IfSome result (λ form. IsGiven form lexer.new) }
{
    if lexer.feed(text).is_err() {
        return None;
    }
    let Ok(Some(form)) = lexer.next_form() else {
        return None;
    };
    Some(form)
}
