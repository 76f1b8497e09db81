//! A choice of generators, as the literals of the lemma whose lines they are.
ghost use Rattle.std.specs.Prelude.{◌≡◌, ℕ, ◌+◌, ◌<◌, ◌≤◌, ◌^◌, ◌++◌, length, map, All, IfOk, OnOk};
ghost use Rattle.std.specs.List.{range_with_len};
ghost use Rattle.ffc_bounds.specs.Combinations.{literals_of, degrees_of};
ghost use Rattle.ffc_combination.specs.Choices.{HasParts, IsGreatestDegree, constants_at, constants_if};
ghost use Rattle.ffc_combination.specs.Forced.{IsLow};
ghost use Rattle.ffc_term.specs.Measuring.{degree_at};

use ffc_cert::Literal;
use ffc_term::{NodeId, NodeTable};
use std::alloc::{AllocError, Global};

/// The literals of a lemma, which are false where what they negate is forced, and for each literal the degree that its line has at
/// most. The variables are those of the check, and one for each disequation.
#[derive(Drop)]
pub(crate) struct Choice {
    pub(crate) literals: Vec<Literal>,
    pub(crate) degrees: Vec<u32>,
    pub(crate) variables: Vec<u32>,
    /// The greatest of the degrees, and 0 where there is none.
    pub(crate) greatest: u32,
    /// How many of the variables, from the first on, are constants to be solved for, where the check is flat.
    pub(crate) constants: Option<usize>,
    /// The lowest degree at which they are: the greatest one of a disequation, and 0 where there is none.
    pub(crate) lowest: u32,
}

/// Appends the literals of these nodes with one truth value.
fn append_literals(
    literals: &mut Vec<Literal>,
    ids: &[NodeId],
    truth: bool,
) -> Result<(), AllocError>
    ensures { OnOk result (literals.new.items ≡ literals.old.items ++ map (λ id. (truth, id)) ids.now) }
{
    for id in ids {
        literals.push((truth, *id))?;
    }
    Ok(())
}

/// The negations of what is forced.
fn literals_of(
    alloc: Global,
    equal: &[NodeId],
    unequal: &[NodeId],
) -> Result<Vec<Literal>, AllocError>
    ensures { IfOk result (λ v. v.items ≡ literals_of equal.now unequal.now) }
{
    let mut literals = Vec::new(alloc);
    append_literals(&mut literals, equal, false)?;
    append_literals(&mut literals, unequal, true)?;
    Ok(literals)
}

/// Appends the degrees of these nodes, each that much higher.
fn append_degrees(
    degrees: &mut Vec<u32>,
    table: &NodeTable,
    ids: &[NodeId],
    higher: u32,
) -> Result<(), AllocError>
    requires low { All (IsLow table.now) ids.now }
    requires limit { higher ≤ 1 }
    ensures { OnOk result (degrees.new.items ≡ degrees.old.items ++ map (λ id. degree_at table.now id + higher) ids.now) }
{
    for id in ids {
        degrees.push(table.degree(*id) as u32 + higher)?;
    }
    Ok(())
}

/// The degrees that the generators have at most.
fn degrees_of(
    alloc: Global,
    table: &NodeTable,
    equal: &[NodeId],
    unequal: &[NodeId],
) -> Result<Vec<u32>, AllocError>
    requires equal { All (IsLow table.now) equal.now }
    requires unequal { All (IsLow table.now) unequal.now }
    ensures { IfOk result (λ v. v.items ≡ degrees_of table.now equal.now unequal.now) }
{
    let mut degrees = Vec::new(alloc);
    append_degrees(&mut degrees, table, equal, 0)?;
    append_degrees(&mut degrees, table, unequal, 1)?;
    Ok(degrees)
}

/// These variables, and so many numbers from one on.
fn with_range(
    alloc: Global,
    variables: &[u32],
    first: u32,
    count: u32,
) -> Result<Vec<u32>, AllocError>
    requires { first + count < 2 ^ 32 }
    ensures { IfOk result (λ v. v.items ≡ variables.now ++ range_with_len first count) }
{
    let mut all = Vec::from_slice(alloc, variables)?;
    for number in first..first + count {
        all.push(number)?;
    }
    Ok(all)
}

/// The greatest of some numbers, and 0 where there is none.
fn greatest(numbers: &[u32]) -> u32
    ensures bound { All (λ n. n ≤ result) numbers.now }
    ensures least { (m : ℕ) → All (λ n. n ≤ m) numbers.now → result ≤ m }
{
    let mut greatest = 0;
    for number in numbers {
        if *number > greatest {
            greatest = *number;
        }
    }
    greatest
}

/// The greatest degree of these nodes, and 0 where there is none.
pub(crate) fn greatest_degree(table: &NodeTable, ids: &[NodeId]) -> u32
    requires { All (IsLow table.now) ids.now }
    ensures { IsGreatestDegree table.now ids.now result }
{
    let mut greatest = 0;
    for id in ids {
        let degree = table.degree(*id) as u32;
        if degree > greatest {
            greatest = degree;
        }
    }
    greatest
}

/// How many constants there are to be solved for in a check with these variables, where it is flat.
fn constants_if(flat: bool, variables: &[u32]) -> Option<usize>
    ensures { result ≡ constants_if flat variables.now }
{
    if flat { Some(variables.len()) } else { None }
}

impl Choice {
    /// The choice of these equalities that are forced, and of these whose negations are. In a flat check the variables are the
    /// constants.
    pub(crate) fn of(
        alloc: Global,
        table: &NodeTable,
        variables: &[u32],
        flat: bool,
        lowest: u32,
        equal: &[NodeId],
        unequal: &[NodeId],
    ) -> Result<Choice, AllocError>
        requires equal { All (IsLow table.now) equal.now }
        requires unequal { All (IsLow table.now) unequal.now }
        requires few { length equal.now + length unequal.now ≤ 2097152 }
        ensures { IfOk result (HasParts table.now variables.now equal.now unequal.now flat lowest) }
    {
        let literals = literals_of(alloc, equal, unequal)?;
        let degrees = degrees_of(alloc, table, equal, unequal)?;
        let first = table.len() + equal.len() as u32;
        let constants = constants_if(flat, variables);
        let variables = with_range(alloc, variables, first, unequal.len() as u32)?;
        let greatest = greatest(degrees.as_slice());
        Ok(Choice {
            literals,
            degrees,
            variables,
            greatest,
            constants,
            lowest,
        })
    }

    /// How many constants are to be solved for at a degree.
    pub(crate) fn constants_at(&self, degree: u32) -> Option<usize>
        ensures { result ≡ constants_at degree self.now }
    {
        if degree < self.lowest {
            None
        } else {
            self.constants
        }
    }
}
