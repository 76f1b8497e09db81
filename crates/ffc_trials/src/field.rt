//! The field of a check.
ghost use Rattle.std.specs.Prelude.{◌≡◌, ◌<◌, ◌==◌, true, false, length, filter, nat_lt, All, IfSome, IfNone};
ghost use Rattle.std.specs.List.{list_all};
ghost use Rattle.ffc_check.specs.Judged.{judged_check};
ghost use Rattle.ffc_field.specs.Orders.{order_of_id};
ghost use Rattle.ffc_bounds.specs.Conjunctions.{field_order, first_order_of, has_one_order, has_order};
ghost use Rattle.ffc_rules.specs.Laws.{IsValid};
ghost use Rattle.ffc_term.specs.Nodes.{order_at};
ghost use Rattle.ffc_trials.specs.Parts.{IsConeOf};

use crate::cone::Cone;
use ffc_field::FieldId;
use ffc_term::{Check, NodeId, NodeTable};

/// The order of the first field node among these; 2 where there is none.
fn first_order(table: &NodeTable, nodes: &[NodeId]) -> u64
    requires { All (λ id. id < length table.now) nodes.now }
    ensures { result ≡ first_order_of table.now (filter (λ id. nat_lt 0 (order_at table.now id)) nodes.now) }
{
    for id in nodes {
        let order = table.sort_of(*id).order();
        if order != 0 {
            return order;
        }
    }
    2
}

/// Whether all field nodes among these are of this order.
fn are_of(table: &NodeTable, nodes: &[NodeId], order: u64) -> bool
    requires { All (λ id. id < length table.now) nodes.now }
    ensures { result ≡ list_all (λ id. order_at table.now id == order)
        (filter (λ id. nat_lt 0 (order_at table.now id)) nodes.now) }
{
    for id in nodes {
        let here = table.sort_of(*id).order();
        if here != 0 && here != order {
            return false;
        }
    }
    true
}

/// The order of the first field node of a check; 2 where it has none.
pub fn field_order(check: &Check, cone: &Cone) -> u64
    requires cone { IsConeOf (judged_check check.now) cone.now }
    ensures { result ≡ field_order check.now.table.now check.now.in_force.now }
{
    first_order(check.table, cone.nodes.as_slice())
}

/// The field of a check's nodes, where it is one.
pub fn field_of(check: &Check, cone: &Cone) -> Option<FieldId>
    requires valid { IsValid (judged_check check.now) }
    requires cone { IsConeOf (judged_check check.now) cone.now }
    ensures some { IfSome result (λ id. has_order check.now.table.now check.now.in_force.now (order_of_id id) ≡ true) }
    ensures none { IfNone result (has_one_order check.now.table.now check.now.in_force.now ≡ false) }
{
    let order = field_order(check, cone);
    if !are_of(check.table, cone.nodes.as_slice(), order) {
        return None;
    }
    FieldId::of_order(u128::from(order))
}
