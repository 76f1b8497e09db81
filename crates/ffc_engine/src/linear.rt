//! Linear equalities by elimination: where all of a group are linear they are decided so, and else those that are may refute each
//! other.
use crate::fields::{Answer, Problem, charge, part_of_left};
use ffc_affine::{Decision, System};
use ffc_base::{Meter, SearchStop};
use ffc_casetree::{Tree, record_sum};
use ffc_cdcl::Lit;
use ffc_cert::Multiple;
use ffc_circuit::{Generator, Ranking};
use ffc_field::Field;
use std::alloc::{AllocError, Global};

/// Of the units that are left, elimination takes at most one in this many where some equalities are not linear.
const PARTS: u64 = 8;

/// The tree that sums multiples of its first lines, which are those of these equalities, to a constant other than 0.
fn closed_by(
    alloc: Global,
    chosen: Vec<Lit>,
    ranking: Ranking,
    multiples: Vec<Multiple>,
) -> Result<Answer, AllocError> {
    let mut tree = Tree::new(alloc);
    for _ in 0..chosen.len() {
        tree.add_generator(None)?;
    }
    let constant = record_sum(alloc, &mut tree, multiples)?;
    let root = tree.close(constant)?;
    let (lines, sums) = tree.into_lines(alloc, root)?;
    Ok(Answer::Closed(chosen, ranking, lines, sums))
}

impl Problem<'_> {
    /// What elimination says of equalities with these differences, where enough of them are linear.
    pub fn by_elimination<F: Field>(
        self,
        polys: &[Generator<F>],
        meter: &mut Meter,
    ) -> Result<Option<Answer>, SearchStop> {
        let Some(system) = System::of(self.alloc, self.equalities, polys)? else {
            return Ok(None);
        };
        let whole = system.is_whole();
        let mut own = Meter::new(part_of_left(meter, if whole { 1 } else { PARTS }));
        let found = system.decided(self.alloc, self.table.len(), &mut own);
        charge(meter, &own)?;
        match found {
            Ok(Some(Decision::Values(pairs))) => Ok(Some(Answer::Values(pairs))),
            Ok(Some(Decision::Refuted(chosen, ranking, multiples))) => {
                let answer = closed_by(self.alloc, chosen, ranking, multiples)?;
                Ok(Some(answer))
            }
            Ok(None) => Ok(None),
            Err(SearchStop::Spent) => {
                if whole {
                    return Err(SearchStop::Spent);
                }
                Ok(None)
            }
            Err(stop) => Err(stop),
        }
    }
}
