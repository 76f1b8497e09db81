//! The order that a script names first.
ghost use Rattle.std.specs.Prelude.{◌≡◌, None, Some, All, option_map};
ghost use Rattle.ffc_field.specs.Orders.{IsOrder, order_of_id};
ghost use Rattle.ffc_smt.specs.Scripts.{first_named, order_in};
ghost use Rattle.ffc_smt.specs.Scopes.{State};
ghost use Rattle.ffc_words.specs.Words.{word_at};
ghost use Rattle.ffc_elab.specs.Orders.{orders_of};

use crate::store::Store;
use ffc_field::FieldId;
use ffc_lex::TokenKind;
use ffc_parts::{literal_order, number_of};
use ffc_words::FormWords;

/// The field of an order.
fn field_of(order: u64) -> Option<FieldId>
    ensures { IsOrder order → option_map order_of_id result ≡ Some order }
{
    FieldId::of_order(u128::from(order))
}

/// The field whose order a word names.
fn named_by(words: &FormWords, at: usize) -> Option<FieldId>
    ensures { All IsOrder (order_in (word_at words.now at).kind (word_at words.now at).bytes)
        → option_map order_of_id result
        ≡ first_named None (order_in (word_at words.now at).kind (word_at words.now at).bytes) }
{
    match words.kind(at) {
        TokenKind::Numeral => field_of(number_of(words.bytes(at))),
        TokenKind::FieldLiteral => match literal_order(words.bytes(at)) {
            Some(order) => field_of(order),
            None => None,
        },
        _ => None,
    }
}

/// The field whose order the words of a form name first.
pub(crate) fn first_named(words: &FormWords) -> Option<FieldId>
    ensures { All IsOrder (orders_of words.now) → option_map order_of_id result
        ≡ first_named None (orders_of words.now) }
{
    for i in 0..words.len() {
        match named_by(words, i) {
            Some(field) => return Some(field),
            None => {}
        }
    }
    None
}

impl Store {
    ghost use Rattle.ffc_elab.specs.Kept.{IsKept};
    ghost use Rattle.ffc_elab.specs.Changes.{in_state, with_orders};

    /// Keeps the order that a form names first, if none was named before.
    pub(crate) fn name_orders(&mut self, words: &FormWords)
        ensures { (s : State) → All IsOrder (orders_of words.now) → IsKept (in_state s) self.old
            → IsKept (in_state (with_orders (orders_of words.now) s)) self.new }
    {
        if self.first.is_none() {
            self.first = first_named(words);
        }
    }
}
