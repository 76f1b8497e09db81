//! Values of constants from residues that solve a system.
ghost use Rattle.std.specs.Prelude.{◌≡◌, List, length, map, IfOk};
ghost use Rattle.ffc_echelon.specs.Vectors.{Coordinates};
ghost use Rattle.ffc_linear.specs.Systems.{IsSystemOf, Solves};
ghost use Rattle.ffc_rules.specs.Entries.{NodeCheck};
ghost use Rattle.ffc_trials.specs.Known.{AreModelValuesOf};

use ffc_field::Field;
use ffc_term::NodeId;
use std::alloc::{AllocError, Global};

/// The constants with these values. Where the values solve the system of a check, they make all its assertions true.
pub(crate) fn model_of<F: Field>(
    alloc: Global,
    constants: &[NodeId],
    values: &[F],
) -> Result<Vec<(NodeId, u64)>, AllocError>
    requires { length values.now ≡ length constants.now }
    ensures constants { IfOk result (λ pairs. map (λ p. p.0) pairs.items ≡ constants.now) }
    ensures model { IfOk result (λ pairs. (c : NodeCheck) (equal unequal : List Coordinates)
        → IsSystemOf c F.ORDER constants.now equal unequal → Solves F.ORDER equal unequal (map F.value values.now)
        → AreModelValuesOf c pairs.items) }
{
    let mut pairs = Vec::new(alloc);
    for (place, value) in values.iter().enumerate() {
        pairs.push((constants[place], value.residue()))?;
    }
    Ok(pairs)
}
