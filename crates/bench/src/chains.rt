//! Makes a chain of negations of one constant, measures it, and evaluates it where the constant is true.
ghost use Rattle.std.specs.Prelude.{◌≡◌, [], length, IfOk};
ghost use Rattle.ffc_term.specs.Tables.{IsBooleanAt};

use ffc_term::{Assignment, Measures, Node, NodeId, NodeTable, TermStop, Value};
use std::alloc::{AllocError, Global};
use std::io;

/// What is known of a chain.
#[derive(Clone, Copy)]
struct Known {
    nodes: u32,
    measures: Measures,
    value: Value,
}

/// The last of so many negations, each of the one before it, and the first of a constant.
fn negations(table: &mut NodeTable, count: u32) -> Result<NodeId, TermStop>
    requires { table.old ≡ [] }
    ensures { IfOk result (IsBooleanAt table.new) }
{
    let mut last = table.intern(Node::BoolConst(0))?;
    for _ in 0..count {
        last = table.intern(Node::Not(last))?;
    }
    Ok(last)
}

/// The measures of the last node, and its value.
fn known_of(alloc: Global, table: &NodeTable, last: NodeId) -> Result<Known, AllocError>
    requires { IsBooleanAt table.now last }
{
    let measures = table.measures(&[last])?;
    let nodes = table.nodes_of(&[last])?;
    let values = Assignment::new(vec![in alloc; Value::Bool(true)]?);
    let mut out = vec![in alloc; Value::Bool(false); table.len() as usize]?;
    table.eval_into(&nodes, &values, &mut out);
    Ok(Known {
        nodes: table.len(),
        measures,
        value: out[last as usize],
    })
}

fn made(alloc: Global, count: u32) -> Result<Known, TermStop> {
    let mut table = NodeTable::new(alloc)?;
    let last = negations(&mut table, count)?;
    Ok(known_of(alloc, &table, last)?)
}

/// Prints what is known of a chain of so many negations.
pub fn run<R: Print>(rt: &R, alloc: Global, count: u32) -> io::Result<()> {
    match made(alloc, count) {
        Ok(known) => {
            let measures = known.measures;
            let value = if known.value == Value::Bool(true) {
                "true"
            } else {
                "false"
            };
            println!(rt;
                "{} nodes, span {}, work {}, {value}",
                known.nodes, measures.span, measures.work
            )
        }
        Err(TermStop::Nodes) => println!(rt; "too many nodes"),
        Err(TermStop::Memory) => println!(rt; "out of memory"),
    }
}
