//! The nodes of terms that are asked for.
ghost use Rattle.std.specs.Prelude.{List};
ghost use Rattle.ffc_smt.specs.Terms as smt;
ghost use Rattle.ffc_elab.specs.AskedNodes.{AreToMake, IsNextMade, MakesAllOrNone, MakesEach, MakesOne};

use crate::answers::Asked;
use crate::asked_terms::AskedTerm;
use crate::asked_texts::text_between;
use crate::making::MOST_WEIGHT;
use ffc_making::make;
use ffc_term::{NodeTable, TermStop};
use ffc_terms::Symbols;
use ffc_words::FormWords;
use std::alloc::Global;

/// Makes the node of a term and puts it after those of the terms before it.
fn make_one(
    alloc: Global,
    words: &FormWords,
    table: &mut NodeTable,
    symbols: &Symbols,
    term: &AskedTerm,
    asked: &mut Vec<Asked>,
) -> Result<(), TermStop>
    requires { (a : smt.Asked) × IsNextMade words.now table.old symbols.now a term.now }
    ensures { (a : smt.Asked) → IsNextMade words.now table.old symbols.now a term.now
        → MakesOne table.old table.new asked.old.items asked.new.items a result }
{
    let node = match make(alloc, table, symbols, &term.code, MOST_WEIGHT) {
        Err(stop) => return Err(stop),
        Ok(node) => node,
    };
    let text = text_between(alloc, words, term.at, term.next)?;
    asked.push(Asked { node, text })?;
    Ok(())
}

/// Makes the nodes of terms, one after another. Where one does not fit, a part of them may be there.
fn make_each(
    alloc: Global,
    words: &FormWords,
    table: &mut NodeTable,
    symbols: &Symbols,
    terms: &[AskedTerm],
) -> Result<Vec<Asked>, TermStop>
    requires { (asked : List smt.Asked) × AreToMake words.now table.old symbols.now asked terms.now }
    ensures { (asked : List smt.Asked) → AreToMake words.now table.old symbols.now asked terms.now
        → MakesEach table.old table.new asked result }
{
    let mut asked = Vec::new(alloc);
    for term in terms {
        match make_one(alloc, words, table, symbols, term, &mut asked) {
            Err(stop) => return Err(stop),
            Ok(()) => {}
        }
    }
    Ok(asked)
}

/// Makes the nodes of terms, one after another. Where one does not fit, or memory is out, the table is as before.
pub(crate) fn make_all(
    alloc: Global,
    words: &FormWords,
    table: &mut NodeTable,
    symbols: &Symbols,
    terms: &[AskedTerm],
) -> Result<Vec<Asked>, TermStop>
    requires { (asked : List smt.Asked) × AreToMake words.now table.old symbols.now asked terms.now }
    ensures { (asked : List smt.Asked) → AreToMake words.now table.old symbols.now asked terms.now
        → MakesAllOrNone table.old table.new asked result }
{
    let before = table.len();
    match make_each(alloc, words, table, symbols, terms) {
        Ok(asked) => Ok(asked),
        Err(stop) => {
            table.truncate(before);
            Err(stop)
        }
    }
}
