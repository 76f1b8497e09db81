//! An index of lines by the variables of their leading monomials, so that those whose leading monomials divide a monomial, or
//! have a variable in common with it, are found among few.
ghost use Rattle.std.specs.Prelude.{◌≡◌, ℕ, ◌<◌, ◌≤◌, ◌==◌, ◌++◌, ◌∷◌, [], List, All, Contains, length, take, true, if◌then◌else◌};
ghost use Rattle.std.specs.Prelude.{IfOk, IfSome, IfNone, OnOk, OnErr, IsTrue};
ghost use Rattle.std.specs.declared.cmp.Ordering.{Ordering as Order};
ghost use Rattle.ffc_ring.specs.Monomial.{Monomial, IsMonomial, Divides};
ghost use Rattle.ffc_ring.specs.Polynomial.{Terms};
ghost use Rattle.ffc_basis.specs.Indexing.{IsIndexOf, listed, has_variable, is_one, without_last};
ghost use Rattle.ffc_basis.specs.Indexing.{first_or, other_than};
ghost use Rattle.ffc_line.specs.Lines.{polys_of};

use ffc_field::Field;
use ffc_line::Line;
use ffc_mono::{MonoOrder, MonoRef};
use ffc_poly::Poly;
use std::alloc::{AllocError, Global};
use std::collections::{BTreeMap, BTreeSet};

/// Lines by variables, each list in increasing order.
type Lists = BTreeMap<u32, Vec<usize>>;

/// In which leading monomials each variable occurs. A line that is 0 is in no list. A variable keeps its list, with the list's
/// memory, when no line is left in it.
#[derive(Debug, Drop)]
pub(crate) struct Index {
    /// Lines by the variable of the lowest number of their leading monomials: each line other than constants is in one list.
    by_first: Lists,
    /// Lines by each variable of their leading monomials.
    by_any: Lists,
    /// The first line that is a constant other than 0.
    pub(crate) constant: Option<usize>,
}

/// The lines of a variable.
fn lines_of(lists: &Lists, x: u32) -> &[usize]
    ensures { result.now ≡ listed lists.now x }
{
    match lists.get(&x) {
        Some(lines) => lines.as_slice(),
        None => &[],
    }
}

/// Appends a line to the list of a variable.
fn append(alloc: Global, lists: &mut Lists, x: u32, line: usize) -> Result<(), AllocError>
    ensures ok { OnOk result ((y : ℕ) → listed lists.new y
        ≡ (if y == x then listed lists.old y ++ line ∷ [] else listed lists.old y)) }
    ensures err { OnErr result ((y : ℕ) → listed lists.new y ≡ listed lists.old y) }
{
    match lists.get_mut(&x) {
        Some(lines) => lines.push(line)?,
        None => {
            let mut lines = Vec::new(alloc);
            lines.push(line)?;
            lists.insert(x, lines)?;
        }
    }
    Ok(())
}

/// Drops the last line of the list of a variable.
fn drop_last(lists: &mut Lists, x: u32)
    ensures { (y : ℕ) → listed lists.new y
        ≡ (if y == x then without_last (listed lists.old y) else listed lists.old y) }
{
    if let Some(lines) = lists.get_mut(&x) {
        let _ = lines.pop();
    }
}

/// Drops the last line of the list of each variable of a monomial.
fn drop_from_all(lists: &mut Lists, powers: &[(u32, u32)])
    requires { IsMonomial powers.now }
    ensures { (y : ℕ) → listed lists.new y
        ≡ (if has_variable y powers.now then without_last (listed lists.old y) else listed lists.old y) }
{
    for power in powers {
        drop_last(lists, power.0);
    }
}

/// Appends a line to the list of each variable of a monomial, or to none.
fn append_to_all(
    alloc: Global,
    lists: &mut Lists,
    powers: &[(u32, u32)],
    line: usize,
) -> Result<(), AllocError>
    requires { IsMonomial powers.now }
    ensures ok { OnOk result ((y : ℕ) → listed lists.new y
        ≡ (if has_variable y powers.now then listed lists.old y ++ line ∷ [] else listed lists.old y)) }
    ensures err { OnErr result ((y : ℕ) → listed lists.new y ≡ listed lists.old y) }
{
    for (count, power) in powers.iter().enumerate() {
        match append(alloc, lists, power.0, line) {
            Ok(()) => {}
            Err(stop) => {
                drop_from_all(lists, &powers[..count]);
                return Err(stop);
            }
        }
    }
    Ok(())
}

/// The first power of a monomial, or none.
fn first_of(powers: &[(u32, u32)]) -> &[(u32, u32)]
    ensures { result.now ≡ take 1 powers.now }
{
    match powers {
        [] => powers,
        [_, ..] => &powers[..1],
    }
}

/// The first constant, where a line with this leading monomial comes after others.
fn first_constant(constant: Option<usize>, powers: &[(u32, u32)], number: usize) -> Option<usize>
    ensures { result ≡ (if is_one powers.now then first_or constant number else constant) }
{
    match (constant, powers) {
        (None, []) => Some(number),
        (None, [_, ..]) => None,
        (Some(line), _) => Some(line),
    }
}

/// A number, if there is one and it is not this one.
fn other_than(constant: Option<usize>, number: usize) -> Option<usize>
    ensures { result ≡ other_than number constant }
{
    match constant {
        Some(line) => { if line == number { None } else { Some(line) } }
        None => None,
    }
}

/// Adds those of these lines that are before a number.
fn add_before(found: &mut BTreeSet<usize>, lines: &[usize], before: usize) -> Result<(), AllocError>
    ensures kept { OnOk result ((i : ℕ) → Contains found.old.keys i → Contains found.new.keys i) }
    ensures added { OnOk result ((i : ℕ) → Contains lines.now i → i < before → Contains found.new.keys i) }
    ensures only { OnOk result (All (λ i. i < before) found.old.keys → All (λ i. i < before) found.new.keys) }
{
    for line in lines {
        if *line < before {
            found.insert(*line)?;
        }
    }
    Ok(())
}

impl Index {
    /// The index of no lines. It takes no memory.
    pub(crate) fn new(alloc: Global) -> Self
        ensures { (p : ℕ) (cmp : Monomial → Monomial → Order) → IsIndexOf p cmp [] result }
    {
        Index {
            by_first: BTreeMap::new(alloc),
            by_any: BTreeMap::new(alloc),
            constant: None,
        }
    }

    /// The lines whose leading monomials begin with a variable.
    pub(crate) fn begun_by(&self, x: u32) -> &[usize]
        ensures { result.now ≡ listed self.now.by_first x }
    {
        lines_of(&self.by_first, x)
    }

    /// The lines before a number whose leading monomials have a variable in common with a monomial.
    pub(crate) fn partners(
        &self,
        alloc: Global,
        m: MonoRef<'_>,
        before: usize,
    ) -> Result<BTreeSet<usize>, AllocError>
        ensures all { IfOk result (λ found. (x i : ℕ) → has_variable x m.entry.powers.now ≡ true
            → Contains (listed self.now.by_any x) i → i < before → Contains found.keys i) }
        ensures only { IfOk result (λ found. All (λ i. i < before) found.keys) }
    {
        let mut found = BTreeSet::new(alloc);
        for power in m.pairs() {
            add_before(&mut found, lines_of(&self.by_any, power.0), before)?;
        }
        Ok(found)
    }

    /// Lists the next line, whose number is given. Without memory nothing changes.
    pub(crate) fn push<F: Field, O: MonoOrder>(
        &mut self,
        alloc: Global,
        number: usize,
        poly: &Poly<F, O>,
    ) -> Result<(), AllocError>
        ensures ok { OnOk result ((gs : List Terms) → length gs ≡ number → IsIndexOf F.ORDER O.cmp gs self.old
            → IsIndexOf F.ORDER O.cmp (gs ++ poly.now ∷ []) self.new) }
        ensures err { OnErr result ((gs : List Terms) → IsIndexOf F.ORDER O.cmp gs self.old
            → IsIndexOf F.ORDER O.cmp gs self.new) }
    {
        if poly.len() == 0 {
            return Ok(());
        }
        let powers = poly.term(0).1.pairs();
        append_to_all(alloc, &mut self.by_any, powers, number)?;
        match append_to_all(alloc, &mut self.by_first, first_of(powers), number) {
            Ok(()) => {}
            Err(stop) => {
                drop_from_all(&mut self.by_any, powers);
                return Err(stop);
            }
        }
        self.constant = first_constant(self.constant, powers, number);
        Ok(())
    }

    /// Drops the last line, which has this number. It takes no memory.
    fn pop<F: Field, O: MonoOrder>(&mut self, number: usize, poly: &Poly<F, O>)
        ensures { (gs : List Terms) → length gs ≡ number → IsIndexOf F.ORDER O.cmp (gs ++ poly.now ∷ []) self.old
            → IsIndexOf F.ORDER O.cmp gs self.new }
    {
        if poly.len() == 0 {
            return;
        }
        let powers = poly.term(0).1.pairs();
        drop_from_all(&mut self.by_any, powers);
        drop_from_all(&mut self.by_first, first_of(powers));
        self.constant = other_than(self.constant, number);
    }

    /// Drops the lines from a number on, of all these. It takes no memory.
    pub(crate) fn cut<F: Field, O: MonoOrder>(&mut self, lines: &[Line<F, O>], len: usize)
        requires { len ≤ length lines.now }
        ensures { IsIndexOf F.ORDER O.cmp (polys_of lines.now) self.old
            → IsIndexOf F.ORDER O.cmp (take len (polys_of lines.now)) self.new }
    {
        for number in (len..lines.len()).rev() {
            self.pop(number, &lines[number].poly);
        }
    }
}

/// Appends a line and lists it. Without memory nothing changes.
pub(crate) fn push_line<F: Field, O: MonoOrder>(
    lines: &mut Vec<Line<F, O>>,
    index: &mut Index,
    line: Line<F, O>,
) -> Result<(), AllocError>
    ensures ok { OnOk result (lines.new.items ≡ lines.old.items ++ line ∷ []) }
    ensures err { OnErr result (lines.new.items ≡ lines.old.items) }
    ensures index { IsIndexOf F.ORDER O.cmp (polys_of lines.old.items) index.old
        → IsIndexOf F.ORDER O.cmp (polys_of lines.new.items) index.new }
{
    let alloc = *lines.allocator();
    let number = lines.len();
    lines.push(line)?;
    match index.push(alloc, number, &lines[number].poly) {
        Ok(()) => Ok(()),
        Err(stop) => {
            lines.truncate(number);
            Err(stop)
        }
    }
}
