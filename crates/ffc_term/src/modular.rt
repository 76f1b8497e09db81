//! Sums, products and bit sums of residues, over the field of an order.
ghost use Rattle.std.specs.Prelude.{◌≡◌, ◌<◌, ◌%◌, length, All, sum_by, IsTrue};
ghost use Rattle.ffc_field.specs.Orders.{IsOrder};
ghost use Rattle.ffc_term.specs.Values.{residue_in, product_by, bit_sum_from};
ghost use Rattle.ffc_term.specs.Modular.{computed};

use crate::node::NodeId;
use crate::value::Value;
use ffc_field::{Field, FieldId, ForField};

/// What is computed of the residues of some nodes.
#[derive(Clone, Copy, Debug, PartialEq, Eq)]
pub enum Operation {
    Sum,
    Product,
    /// The sum of the residues, each times the power of 2 of its place.
    BitSum,
}

// An operation on the residues that a list of values has for some nodes.
#[derive(Clone, Copy)]
struct Work<'a> {
    operation: Operation,
    known: &'a [Value],
    ids: &'a [NodeId],
}

impl ForField for Work<'_> {
    type Out = u64;

    ghost can_run = { λ w p. All (λ id. id < length w.known.now) w.ids.now };

    ghost gives = { λ w p r. r ≡ computed w.operation w.known.now w.ids.now p };

    fn run<F: Field>(self) -> u64 {
        match self.operation {
            Operation::Sum => sum::<F>(self.known, self.ids).residue(),
            Operation::Product => product::<F>(self.known, self.ids).residue(),
            Operation::BitSum => bit_sum::<F>(self.known, self.ids).residue(),
        }
    }
}

// The element that a list of values has for a node.
fn element<F: Field>(known: &[Value], id: NodeId) -> F
    requires { id < length known.now }
    ensures { F.value result ≡ residue_in known.now id % F.ORDER }
{
    F::of(u128::from(known[id as usize].residue()))
}

fn sum<F: Field>(known: &[Value], ids: &[NodeId]) -> F
    requires { All (λ id. id < length known.now) ids.now }
    ensures { F.value result ≡ sum_by (residue_in known.now) ids.now % F.ORDER }
{
    let mut sum = F::of(0);
    for id in ids {
        sum = sum.add(element(known, *id));
    }
    sum
}

fn product<F: Field>(known: &[Value], ids: &[NodeId]) -> F
    requires { All (λ id. id < length known.now) ids.now }
    ensures { F.value result ≡ product_by (residue_in known.now) ids.now % F.ORDER }
{
    let mut product = F::of(1);
    for id in ids {
        product = product.mul(element(known, *id));
    }
    product
}

fn bit_sum<F: Field>(known: &[Value], ids: &[NodeId]) -> F
    requires { All (λ id. id < length known.now) ids.now }
    ensures { F.value result ≡ bit_sum_from 0 (residue_in known.now) ids.now % F.ORDER }
{
    let mut sum = F::of(0);
    let mut weight = F::of(1);
    for id in ids {
        sum = sum.add(weight.mul(element(known, *id)));
        weight = weight.add(weight);
    }
    sum
}

/// The operation on the residues that a list of values has for these nodes, modulo an order.
pub fn compute(operation: Operation, known: &[Value], ids: &[NodeId], order: u64) -> u64
    requires within { All (λ id. id < length known.now) ids.now }
    requires order { IsOrder order }
    ensures { result ≡ computed operation known.now ids.now order }
{
    match FieldId::of_order(u128::from(order)) {
        Some(id) => id.run(Work {
            operation,
            known,
            ids,
        }),
        None => unreachable!(),
    }
}
