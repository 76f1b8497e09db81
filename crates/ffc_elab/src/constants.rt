//! Declared constants.
ghost use Rattle.std.specs.Prelude.{◌≡◌, ◌+◌, ◌≤◌, [], ◌∷◌, ◌++◌, length, List, All, Ok, IfOk, OnOk, OnErr, IsErrOf};
ghost use Rattle.ffc_field.specs.Orders.{IsOrder};
ghost use Rattle.ffc_term.specs.declared.node.Sort.{Sort as NodeSort};
ghost use Rattle.ffc_term.specs.Tables.{most_nodes};
ghost use Rattle.ffc_smt.specs.Making.{constant_node};
ghost use Rattle.ffc_smt.specs.States.{IsSoundSort, IsTableWith};
ghost use Rattle.ffc_elab.specs.Histories.{Known};
ghost use Rattle.ffc_elab.specs.Orders.{orders_of};

use crate::answers::{Command, Declared, Effect};
use crate::declaring::{declare_const, declare_fun};
use crate::levels::{Mark, count_more};
use crate::store::Store;
use ffc_lex::Text;
use ffc_term::{Node, NodeId, NodeTable, Sort, TermStop};
use ffc_terms::Meaning;
use ffc_words::{FaultCode, FormWords, TakeStop};

/// The node of the constant of this number.
fn constant_node(number: u32, sort: Sort) -> Node
    ensures { result ≡ constant_node number sort }
{
    match sort {
        Sort::Bool => Node::BoolConst(number),
        Sort::Field(order) => Node::FieldConst(number, order),
    }
}

/// Puts the node of a new constant into a table with so many constants.
fn put_constant(table: &mut NodeTable, count: u32, sort: Sort) -> Result<NodeId, TermStop>
    requires sound { IsSoundSort sort }
    requires counted { (sorts : List NodeSort) × IsTableWith sorts (length sorts) table.old × (count ≡ length sorts) }
    ensures ok { IfOk result (λ id. (table.new ≡ table.old ++ constant_node count sort ∷ []) × (id ≡ length table.old)
        × (length table.old + 1 ≤ most_nodes)) }
    ensures full { IsErrOf result TermStop.Nodes → length table.old ≡ most_nodes }
    ensures err { OnErr result (table.new ≡ table.old) }
{
    match table.intern(constant_node(count, sort)) {
        Ok(id) => Ok(id),
        Err(stop) => Err(stop),
    }
}

impl Store {
    ghost use Rattle.ffc_elab.specs.Kept.{IsKept, IsKnown};
    ghost use Rattle.ffc_elab.specs.Changes.{declared_in, in_state, with_orders, with_state};

    /// Declares a constant: on level 0 where declarations are global, else on the innermost level.
    fn push_constant(&mut self, name: &[u8], sort: Sort) -> Result<(), TermStop>
        requires sound { IsSoundSort sort }
        requires known { (k : Known) × IsKept k self.old × IsKnown k }
        ensures ok { OnOk result ((k : Known) → IsKnown k → IsKept k self.old
            → IsKept (with_state k (declared_in name.now sort k.state)) self.new
            × (length k.state.nodes + 1 ≤ most_nodes)) }
        ensures full { IsErrOf result TermStop.Nodes → length self.old.table ≡ most_nodes }
        ensures err { OnErr result ((k : Known) → IsKept k self.old → IsKept k self.new) }
    {
        let key = Vec::from_slice(self.alloc, name)?;
        let text = Text::copy_of(self.alloc, name)?;
        self.declared.reserve(1)?;
        self.declared_nodes.reserve(1)?;
        let number = self.constants;
        let node = self.table.len();
        let meaning = Meaning::Constant(number, sort, node);
        self.symbols.terms.push(self.alloc, key, meaning)?;
        match put_constant(&mut self.table, number, sort) {
            Ok(_) => {}
            Err(stop) => {
                let _ = self.symbols.terms.pop();
                return Err(stop);
            }
        }
        self.declared.push(Declared {
            name: text,
            node,
            sort,
        })?;
        self.declared_nodes.push(node)?;
        self.constants = number.saturating_add(1);
        let _count = self.symbols.terms.len();
        if !self.options.global_declarations {
            count_more(&mut self.marks, Mark::of_constant());
        }
        Ok(())
    }

    /// Declares a constant in a form of these words. Nothing is assumed any more.
    fn name_constant(&mut self, words: &FormWords, name: &[u8], sort: Sort) -> Result<(), TermStop>
        requires sound { IsSoundSort sort }
        requires known { (k : Known) × IsKept k self.old × IsKnown k }
        ensures ok { OnOk result ((k : Known) → IsKnown k → IsKept k self.old
            → (length k.state.nodes + 1 ≤ most_nodes)
            × (All IsOrder (orders_of words.now)
            → IsKept (in_state (with_orders (orders_of words.now) (declared_in name.now sort k.state))) self.new)) }
        ensures full { IsErrOf result TermStop.Nodes → length self.old.table ≡ most_nodes }
        ensures err { OnErr result ((k : Known) → IsKept k self.old → IsKept k self.new) }
    {
        match self.push_constant(name, sort) {
            Err(stop) => return Err(stop),
            Ok(()) => {}
        }
        self.forget_assumptions();
        self.name_orders(words);
        Ok(())
    }
}

impl Store {
    ghost use Rattle.ffc_smt.specs.Trees.{Tree, items_of};
    ghost use Rattle.ffc_smt.specs.Terms as smt;
    ghost use Rattle.ffc_smt.specs.CommandReading.{limits};
    ghost use Rattle.ffc_parts.specs.declared.heads.Head.{Head};
    ghost use Rattle.ffc_parts.specs.declared.heads.Head.TheVariants as head;
    ghost use Rattle.ffc_words.specs.Outcomes.{outcome};
    ghost use Rattle.ffc_elab.specs.Kept.{IsKept, IsKnown};
    ghost use Rattle.ffc_elab.specs.Reading.{IsFormOf, IsCommandForm, read_by_head};
    ghost use Rattle.ffc_elab.specs.Taking.{IsReady, TakesKept};

    /// Takes a declaration that was read.
    fn declare(&mut self, words: &FormWords, name: &[u8], sort: Sort) -> Result<Command, TakeStop>
        requires sound { IsSoundSort sort }
        requires known { (k : Known) × IsKept k self.old × IsKnown k }
        ensures { (k : Known) (tree : Tree) (h : Head) → IsKept k self.old → IsKnown k → IsFormOf words.now tree
            → (form : IsCommandForm words.now k.state tree h)
            → Ok (smt.Declare name.now sort)
            ≡ outcome (read_by_head limits k.state h form.closing (items_of form.items))
            → TakesKept k tree self.new result }
    {
        match self.name_constant(words, name, sort) {
            Ok(()) => Ok(Command::Quiet(Effect::EndsModel)),
            Err(TermStop::Memory) => Err(TakeStop::Memory),
            Err(TermStop::Nodes) => Err(TakeStop::Fault(words.fault(FaultCode::Nodes, 0))),
        }
    }

    /// Takes `declare-const`.
    pub(crate) fn declare_const_command(&mut self, words: &FormWords) -> Result<Command, TakeStop>
        requires { IsReady words.now self.old head.DeclareConst }
        ensures { (k : Known) (tree : Tree) → IsKept k self.old → IsKnown k → IsFormOf words.now tree
            → IsCommandForm words.now k.state tree head.DeclareConst → TakesKept k tree self.new result }
    {
        match declare_const(words, &self.symbols) {
            Err(fault) => Err(TakeStop::Fault(fault)),
            Ok((name, sort)) => self.declare(words, name, sort),
        }
    }

    /// Takes `declare-fun`.
    pub(crate) fn declare_fun_command(&mut self, words: &FormWords) -> Result<Command, TakeStop>
        requires { IsReady words.now self.old head.DeclareFun }
        ensures { (k : Known) (tree : Tree) → IsKept k self.old → IsKnown k → IsFormOf words.now tree
            → IsCommandForm words.now k.state tree head.DeclareFun → TakesKept k tree self.new result }
    {
        match declare_fun(words, &self.symbols) {
            Err(fault) => Err(TakeStop::Fault(fault)),
            Ok((name, sort)) => self.declare(words, name, sort),
        }
    }
}
