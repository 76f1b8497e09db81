//! The nodes of terms that were read.
ghost use Rattle.std.specs.Prelude.{◌≡◌, ◌≤◌, List, [], length};
ghost use Rattle.ffc_term.specs.declared.node.Node.{Node as TableNode};
ghost use Rattle.ffc_term.specs.Tables.{IsTable};
ghost use Rattle.ffc_parts.specs.Growing.{Grows};
ghost use Rattle.ffc_smt.specs.Making.{made};
ghost use Rattle.ffc_smt.specs.Terms.{Term};
ghost use Rattle.ffc_making.specs.Machine.{IsCodeOf};
ghost use Rattle.ffc_elab.specs.Making.{FitsOrNot, IsSoundRead, MakesOrKeeps};

use crate::store::Store;
use ffc_making::make;
use ffc_term::{NodeId, NodeTable, TermStop};
use ffc_terms::{Op, Symbols, TermRead};
use ffc_words::{FaultCode, FormWords, TakeStop};
use std::alloc::Global;

/// How much the terms of a command may weigh.
pub(crate) const MOST_WEIGHT: u32 = 16_777_216;

/// Makes the node of a term that is no heavier than this. Where it does not fit, or memory is out, the table is as before.
fn make_or_keep(
    alloc: Global,
    table: &mut NodeTable,
    symbols: &Symbols,
    code: &[Op],
    weight: u32,
) -> Result<NodeId, TermStop>
    requires { (t : Term) × IsCodeOf table.old symbols.now.terms t weight code.now }
    ensures { (t : Term) → IsCodeOf table.old symbols.now.terms t weight code.now → MakesOrKeeps table.old table.new
        (made [] table.old t) result }
{
    let before = table.len();
    match make(alloc, table, symbols, code, weight) {
        Ok(id) => Ok(id),
        Err(stop) => {
            table.truncate(before);
            Err(stop)
        }
    }
}

impl Store {
    /// Drops the nodes after the first ones, so many. It costs what it drops.
    pub(crate) fn keep_nodes(&mut self, count: u32)
        requires { (old : List TableNode) × IsTable old × Grows old self.old.table × (count ≡ length old) }
        ensures table { (old : List TableNode) → Grows old self.old.table → count ≡ length old → self.new.table ≡ old }
        ensures others { self.new ≡ record self.old { table = self.new.table } }
    {
        self.table.truncate(count);
    }

    /// Makes the node of a term that is no heavier than this. Where it does not fit, or memory is out, the table is as before.
    ///
    /// It costs one look-up a node, and at most two steps more than twice the term's weight.
    pub(crate) fn make_term(&mut self, code: &[Op], weight: u32) -> Result<NodeId, TermStop>
        requires { (t : Term) × IsCodeOf self.old.table self.old.symbols.terms t weight code.now }
        ensures made { (t : Term) → IsCodeOf self.old.table self.old.symbols.terms t weight code.now
            → MakesOrKeeps self.old.table self.new.table (made [] self.old.table t) result }
        ensures others { self.new ≡ record self.old { table = self.new.table } }
    {
        make_or_keep(self.alloc, &mut self.table, &self.symbols, code, weight)
    }

    /// The node of the only term of a command, whose form has these words. Where the term is too much, the fault is at the
    /// parenthesis of the form.
    pub(crate) fn term_node(
        &mut self,
        words: &FormWords,
        term: &TermRead,
    ) -> Result<NodeId, TakeStop>
        requires { (t : Term) × IsSoundRead self.old.table self.old.symbols.terms t term.now }
        ensures fits { (t : Term) → IsSoundRead self.old.table self.old.symbols.terms t term.now
            → FitsOrNot words.now self.old.table self.new.table t result }
        ensures others { self.new ≡ record self.old { table = self.new.table } }
    {
        if term.weight > MOST_WEIGHT {
            return Err(TakeStop::Fault(words.fault(FaultCode::Nodes, 0)));
        }
        match self.make_term(&term.code, term.weight) {
            Ok(id) => Ok(id),
            Err(TermStop::Memory) => Err(TakeStop::Memory),
            Err(TermStop::Nodes) => Err(TakeStop::Fault(words.fault(FaultCode::Nodes, 0))),
        }
    }
}
