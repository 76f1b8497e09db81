//! Values of constants as an entry of a certificate.
use ffc_cert::{Entry, Sequence};
use ffc_circuit::Truths;
use ffc_term::{Check, Node, NodeId, NodeTable};
use std::alloc::{AllocError, Global};

/// A value of each variable, by number; 0 where none was found.
#[derive(Drop)]
pub struct Residues {
    items: Vec<u64>,
}

impl Residues {
    /// So many, all 0.
    pub fn zero(alloc: Global, count: u32) -> Result<Self, AllocError> {
        Ok(Residues {
            items: vec![in alloc; 0; count as usize]?,
        })
    }

    /// Takes over the values of those variables that are nodes.
    pub fn set(&mut self, pairs: &[(u32, u64)]) {
        for (variable, value) in pairs {
            if let Some(item) = self.items.get_mut(*variable as usize) {
                *item = *value;
            }
        }
    }

    fn get(&self, variable: u32) -> u64 {
        match self.items.get(variable as usize) {
            Some(item) => *item,
            None => 0,
        }
    }
}

/// The value of a constant: true is 1.
fn value_of(table: &NodeTable, id: NodeId, truths: &Truths, residues: &Residues) -> u64 {
    if id >= table.len() {
        return 0;
    }
    match table.node(id) {
        Node::BoolConst(_) => u64::from(truths.get(id) == Some(true)),
        _ => residues.get(id),
    }
}

/// The entry that gives the constants of a check these values.
pub fn model(
    alloc: Global,
    check: &Check,
    truths: &Truths,
    residues: &Residues,
) -> Result<Entry, AllocError> {
    let mut pairs = Vec::new(alloc);
    for id in check.declared {
        pairs.push((*id, value_of(check.table, *id, truths, residues)))?;
    }
    Ok(Entry::Sat(Sequence::from_vec(pairs)))
}
