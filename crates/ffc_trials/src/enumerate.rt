//! Going through the assignments of a check's constants by number.
ghost use Rattle.std.specs.Prelude.{◌≡◌, ◌+◌, ◌≤◌, length, map, replicate, true, false, IsTrue, IfOk};
ghost use Rattle.ffc_base.specs.Metering.{total};
ghost use Rattle.ffc_term.specs.declared.value.Value.TheVariants as value;
ghost use Rattle.ffc_rules.specs.Assignments.{are_true};
ghost use Rattle.ffc_rules.specs.Laws.{IsValid};
ghost use Rattle.ffc_check.specs.Judged.{judged_check};
ghost use Rattle.ffc_trials.specs.Enumerating.{IsReached, IsModelFound, with_zeros};
ghost use Rattle.ffc_trials.specs.Parts.{IsConeOf};
ghost use Rattle.ffc_trials.specs.Stops.{AreModelValues};

use crate::cone::Cone;
use crate::counting::{advance, list_numbers};
use crate::known::give_known;
use ffc_base::{Meter, Unit};
use ffc_cert::Sequence;
use ffc_term::{Assignment, Check, Node, NodeId, NodeTable, Value};
use std::alloc::{AllocError, Global};
use std::mem;

/// Room for the values of constants and of nodes, which one check after another uses: so it is made once for each node of a table.
#[derive(Drop)]
pub struct Room {
    values: Vec<Value>,
    out: Vec<Value>,
}

/// The number of a node that is a constant, counted over all constants.
fn number_of(table: &NodeTable, id: NodeId) -> Option<u32> {
    if id >= table.len() {
        return None;
    }
    match table.node(id) {
        Node::BoolConst(number) | Node::FieldConst(number, _) => Some(*number),
        _ => None,
    }
}

impl Room {
    /// No room yet. It takes no memory.
    pub fn new(alloc: Global) -> Room {
        Room {
            values: Vec::new(alloc),
            out: Vec::new(alloc),
        }
    }

    /// Makes the constants of a check false or 0 again, so that no later check has values of this one.
    fn forget(&mut self, check: &Check, cone: &Cone) {
        for id in cone.constants.as_slice() {
            if let Some(number) = number_of(check.table, *id) {
                if let Some(value) = self.values.get_mut(number as usize) {
                    *value = Value::Bool(false);
                }
            }
        }
    }
}

/// Where the assignments of a check were gone through to, with all memory that this takes.
#[derive(Drop)]
pub struct Enumeration {
    alloc: Global,
    /// The next assignment; where a model was found, the model.
    values: Vec<Value>,
    /// Room for the values of nodes.
    out: Vec<Value>,
    /// Room for a value of each declared constant.
    pairs: Vec<(u32, u64)>,
}

/// So many values, all false.
pub fn all_false(alloc: Global, count: usize) -> Result<Vec<Value>, AllocError>
    ensures { IfOk result (λ values. values.items ≡ replicate count (value.Bool false)) }
{
    vec![in alloc; Value::Bool(false); count]
}

/// Each of these nodes with 0 beside it.
pub fn with_zeros(alloc: Global, ids: &[NodeId]) -> Result<Vec<(u32, u64)>, AllocError>
    ensures { IfOk result (λ pairs. pairs.items ≡ with_zeros ids.now) }
{
    ids.iter().map(|id| (*id, 0)).collect(alloc)
}

impl Enumeration {
    /// Before the first assignment. It takes the room; where memory is out, that is lost. It costs the check's constants, and what
    /// the table has more nodes than the room was made for.
    pub fn new(
        alloc: Global,
        room: &mut Room,
        check: &Check,
        cone: &Cone,
    ) -> Result<Enumeration, AllocError>
        requires valid { IsValid (judged_check check.now) }
        requires cone { IsConeOf (judged_check check.now) cone.now }
        ensures { IfOk result (IsReached (judged_check check.now) 0) }
    {
        let count = check.table.len() as usize;
        let Room {
            mut values,
            mut out,
        } = mem::replace(room, Room::new(alloc));
        values.resize(count, Value::Bool(false))?;
        out.resize(count, Value::Bool(false))?;
        let zeros = with_zeros(alloc, cone.constants.as_slice())?;
        give_known(check.table, zeros.as_slice(), values.as_mut_slice());
        Ok(Enumeration {
            alloc,
            values,
            out,
            pairs: with_zeros(alloc, check.declared)?,
        })
    }

    /// Whether all assertions are true under the next assignment. The nodes are evaluated up to the first assertion that is false.
    fn is_model(&mut self, check: &Check, cone: &Cone) -> bool
        requires valid { IsValid (judged_check check.now) }
        requires cone { IsConeOf (judged_check check.now) cone.now }
        requires long { length self.old.out.items ≡ length check.now.table.now }
        ensures model { result ≡ are_true check.now.table.now check.now.in_force.now self.old.values.items }
        ensures values { self.new.values.items ≡ self.old.values.items }
        ensures out { length self.new.out.items ≡ length self.old.out.items }
        ensures pairs { self.new.pairs.items ≡ self.old.pairs.items }
    {
        let values = mem::replace(&mut self.values, Vec::new(self.alloc));
        let assignment = Assignment::new(values);
        let found = check.table.are_true(
            cone.nodes.as_slice(),
            cone.assertions.as_slice(),
            &assignment,
            self.out.as_mut_slice(),
        );
        self.values = assignment.into_vec();
        found
    }

    /// Goes through so many more assignments, up to the first under which all assertions are true, and says whether there is one.
    /// Each is one Trial. It takes no memory.
    pub fn go_on(&mut self, check: &Check, cone: &Cone, tries: u64, meter: &mut Meter) -> bool
        requires valid { IsValid (judged_check check.now) }
        requires cone { IsConeOf (judged_check check.now) cone.now }
        requires reached { IsReached (judged_check check.now) (total meter.old) self.old }
        requires room { total meter.old + tries ≤ meter.old.budget }
        ensures found { IsTrue result → IsModelFound (judged_check check.now) self.new }
        ensures none { result ≡ false → IsReached (judged_check check.now) (total meter.new) self.new }
        ensures spent { result ≡ false → total meter.new ≡ total meter.old + tries }
        ensures same_budget { meter.new.budget ≡ meter.old.budget }
    {
        for _ in 0..tries {
            let Ok(()) = meter.take(Unit::Trial) else {
                return false;
            };
            if self.is_model(check, cone) {
                return true;
            }
            advance(
                check.table,
                cone.constants.as_slice(),
                self.values.as_mut_slice(),
            );
        }
        false
    }

    /// Gives the room back.
    pub fn into_room(self, check: &Check, cone: &Cone, room: &mut Room) {
        let Enumeration { values, out, .. } = self;
        *room = Room { values, out };
        room.forget(check, cone);
    }

    /// What the model that was found gives the declared constants. It gives the room back.
    pub fn into_values(self, check: &Check, cone: &Cone, room: &mut Room) -> Sequence<(u32, u64)>
        requires valid { IsValid (judged_check check.now) }
        requires found { IsModelFound (judged_check check.now) self }
        ensures { AreModelValues (judged_check check.now) result }
    {
        let Enumeration {
            values,
            out,
            mut pairs,
            ..
        } = self;
        list_numbers(check.table, values.as_slice(), pairs.as_mut_slice());
        *room = Room { values, out };
        room.forget(check, cone);
        Sequence::from_vec(pairs)
    }
}
