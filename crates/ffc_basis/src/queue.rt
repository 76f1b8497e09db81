//! The order in which pairs are reduced. Reductions of lines come first: a pair simplifies where both lines are linear, or
//! where a line's leading monomial divides that of another line and the line is no longer than the other. Of these, lines that
//! say that a variable is a value or another variable come first, so that a circuit is evaluated, and no line is made by one
//! that is still to become shorter. Other pairs follow
//! as S-polynomials: those that cancel a leading term by a divisor, then those of low degree (Cox, Little and O'Shea, chapter
//! 2, section 10).
//!
//! A pair that the criteria of Gebauer and Möller (1988) leave out comes after all others: a third line's leading monomial
//! divides the least common multiple of the two leading monomials, and its pairs with both lines come before, or are done, or
//! need none. A pair comes before another whose least common multiple is a proper multiple of its own, or which has the same
//! one and a later second line, or the same second line and an earlier first line. So those that are left out follow one after
//! another, in this order, once all others are done.
//!
//! The order is a cache. No answer depends on it but by how soon it comes.
ghost use Rattle.std.specs.Prelude.{◌≡◌, ◌<◌, ◌⊎◌, IfOk, IfSome};
ghost use Rattle.ffc_basis.specs.PairTable.{IsPendingAt};

use crate::index::Index;
use crate::pair::PairRecord;
use crate::represented::is_recorded;
use ffc_field::Field;
use ffc_line::Line;
use ffc_mono::{DEGREE_LIMIT, MonoOrder, MonoRef};
use std::alloc::{AllocError, Global};
use std::collections::BinaryHeap;
use std::mem;

/// So many lines that begin with a variable are looked at before a pair waits.
const MOST_LOOKED: usize = 2;

/// A pair that waits. The greatest comes first.
#[derive(Clone, Copy, Debug, PartialEq, Eq, PartialOrd, Ord)]
pub(crate) struct Turn {
    /// Whether it simplifies.
    simplifies: bool,
    /// Whether one line says that a variable is a variable or a value, and the other is led by a multiple of the variable.
    replaces: bool,
    /// Whether one leading monomial divides the other.
    divides: bool,
    /// How far the degree of the least common multiple is below all numbers.
    ease: u32,
    /// How far its place among the pairs is below all numbers.
    age: usize,
}

impl Turn {
    /// The place among the pairs.
    fn place(self) -> usize {
        usize::MAX - self.age
    }
}

/// A pair that is left out. The greatest comes first.
#[derive(Clone, Copy, Debug, PartialEq, Eq, PartialOrd, Ord)]
struct Late {
    /// How far the degree of the least common multiple is below all numbers.
    ease: u32,
    /// How far the second line is below all numbers.
    second: usize,
    first: usize,
    turn: Turn,
}

/// Pairs that wait, by their places.
#[derive(Debug, Drop)]
pub(crate) struct Queue {
    near: BinaryHeap<Turn>,
    /// Those that the criteria leave out.
    late: BinaryHeap<Late>,
    /// Those that the criteria left out, and that did not follow from others.
    open: Vec<Turn>,
    /// Those that were taken out, in that order. What is known of a pair is known by the lines that there were then, so those
    /// that are pending again after lines are dropped are the last.
    taken: Vec<Turn>,
    /// Whether each pair is reduced, or follows by itself. So it is where a limit was passed at a pair.
    pub keeps_all: bool,
    /// Whether the pairs that were left out before wait again.
    has_all: bool,
}

impl Queue {
    /// An empty queue. It takes no memory.
    pub fn new(alloc: Global) -> Self {
        Queue {
            near: BinaryHeap::new(alloc),
            late: BinaryHeap::new(alloc),
            open: Vec::new(alloc),
            taken: Vec::new(alloc),
            keeps_all: false,
            has_all: false,
        }
    }

    /// Drops the places from a number on, where limits were passed at some of the others or not. It takes no memory.
    pub fn cut(&mut self, alloc: Global, len: usize, is_over: bool) {
        let mut near = mem::replace(&mut self.near, BinaryHeap::new(alloc)).into_vec();
        near.retain(|turn| turn.place() < len);
        self.near = BinaryHeap::from(near);
        let mut late = mem::replace(&mut self.late, BinaryHeap::new(alloc)).into_vec();
        late.retain(|late| late.turn.place() < len);
        self.late = BinaryHeap::from(late);
        self.open.retain(|turn| turn.place() < len);
        self.keeps_all = is_over;
        self.has_all = self.has_all && is_over;
    }

    /// Lets a pair wait. Where a line before its second one leaves it out whatever is done until then, it waits with those that
    /// are left out: so it does as soon as it is the next one.
    pub fn put<F: Field, O: MonoOrder>(
        &mut self,
        lines: &[Line<F, O>],
        index: &Index,
        pair: &PairRecord,
        place: usize,
    ) -> Result<(), AllocError> {
        let turn = turn_of(lines, pair, place);
        if is_covered_at_once(lines, index, pair) {
            self.late.push(late_of(turn, pair))?;
        } else {
            self.near.push(turn)?;
        }
        Ok(())
    }

    /// Lets the pairs wait again that were taken out and are pending, and those that were left out where each is to be reduced.
    /// It is called after lines are dropped, before their places are used again.
    pub fn refresh(&mut self, pairs: &[PairRecord]) -> Result<(), AllocError> {
        self.put_pending(pairs)?;
        if self.keeps_all && !self.has_all {
            self.put_unsettled(pairs)?;
            self.has_all = true;
        }
        Ok(())
    }

    /// Lets the pairs wait again that were taken out as the last ones and are pending.
    fn put_pending(&mut self, pairs: &[PairRecord]) -> Result<(), AllocError> {
        while let Some(turn) = self.taken.last().copied() {
            let place = turn.place();
            if place < pairs.len() {
                if !pairs[place].is_pending() {
                    return Ok(());
                }
                self.near.push(turn)?;
            }
            self.taken.pop();
        }
        Ok(())
    }

    /// Lets all pairs wait again that were taken out and are not settled.
    fn put_unsettled(&mut self, pairs: &[PairRecord]) -> Result<(), AllocError> {
        for turn in &self.taken {
            if waiting_at(pairs, turn.place()).is_some() {
                self.near.push(*turn)?;
            }
        }
        Ok(())
    }

    /// The place of the next pair that the criteria do not leave out, and whether it simplifies. It still waits.
    pub fn front<F: Field, O: MonoOrder>(
        &mut self,
        lines: &[Line<F, O>],
        index: &Index,
        pairs: &[PairRecord],
    ) -> Result<Option<(usize, bool)>, AllocError>
        ensures { IfOk result (λ o. IfSome o (λ t. IsPendingAt pairs.now t.0)) }
    {
        while let Some(turn) = self.near.peek().copied() {
            let place = turn.place();
            if let Some(pair) = waiting_at(pairs, place) {
                if !is_covered(lines, index, pairs, &pair) {
                    return Ok(Some((place, turn.simplifies)));
                }
                self.late.push(late_of(turn, &pair))?;
            }
            self.near.pop();
        }
        Ok(None)
    }

    /// Whether the next pair simplifies. So it does where none waits: then there is nothing left to do.
    pub fn simplifies<F: Field, O: MonoOrder>(
        &mut self,
        lines: &[Line<F, O>],
        index: &Index,
        pairs: &[PairRecord],
    ) -> Result<bool, AllocError> {
        match self.front(lines, index, pairs)? {
            Some((_, simplifies)) => Ok(simplifies),
            None => Ok(self.late.is_empty() && self.open.is_empty()),
        }
    }

    /// Takes out the next pair that the criteria do not leave out.
    pub fn next_near<F: Field, O: MonoOrder>(
        &mut self,
        lines: &[Line<F, O>],
        index: &Index,
        pairs: &[PairRecord],
    ) -> Result<Option<usize>, AllocError>
        ensures { IfOk result (λ o. IfSome o (IsPendingAt pairs.now)) }
    {
        let Some((place, _)) = self.front(lines, index, pairs)? else {
            return Ok(None);
        };
        if let Some(turn) = self.near.pop() {
            self.taken.push(turn)?;
        }
        Ok(Some(place))
    }

    /// Takes out the next pair that they leave out.
    pub fn next_late(&mut self, pairs: &[PairRecord]) -> Result<Option<usize>, AllocError>
        ensures { IfOk result (λ o. IfSome o (IsPendingAt pairs.now)) }
    {
        while let Some(late) = self.late.pop() {
            let place = late.turn.place();
            if waiting_at(pairs, place).is_some() {
                self.taken.push(late.turn)?;
                return Ok(Some(place));
            }
        }
        Ok(None)
    }

    /// Lets the pair wait again that was taken out as the last one, until no other waits.
    pub fn put_back(&mut self) -> Result<(), AllocError> {
        if let Some(turn) = self.taken.pop() {
            self.open.push(turn)?;
        }
        Ok(())
    }

    /// Takes out a pair that was put back.
    pub fn next_open(&mut self, pairs: &[PairRecord]) -> Result<Option<usize>, AllocError>
        ensures { IfOk result (λ o. IfSome o (IsPendingAt pairs.now)) }
    {
        while let Some(turn) = self.open.pop() {
            let place = turn.place();
            if waiting_at(pairs, place).is_some() {
                self.taken.push(turn)?;
                return Ok(Some(place));
            }
        }
        Ok(None)
    }
}

/// The pair at a place, where it was not settled.
fn waiting_at(pairs: &[PairRecord], place: usize) -> Option<PairRecord>
    ensures { IfSome result (λ _. IsPendingAt pairs.now place) }
{
    if place < pairs.len() && !pairs[place].is_settled() {
        Some(pairs[place])
    } else {
        None
    }
}

/// The leading monomial of a line.
fn lead_of<F: Field, O: MonoOrder>(lines: &[Line<F, O>], line: usize) -> Option<MonoRef<'_>> {
    let (_, lead) = lines.get(line)?.poly.lead()?;
    Some(lead)
}

/// The exponent of a variable in a monomial.
fn exponent_in(powers: &[(u32, u32)], x: u32) -> u32 {
    for power in powers {
        if power.0 >= x {
            return if power.0 == x { power.1 } else { 0 };
        }
    }
    0
}

/// The degree of the least common multiple of two monomials.
fn lcm_degree(m: MonoRef<'_>, n: MonoRef<'_>) -> u32 {
    let mut degree = m.degree();
    for power in n.pairs() {
        let more = power.1.saturating_sub(exponent_in(m.pairs(), power.0));
        degree = degree.saturating_add(more);
    }
    degree
}

/// The leading monomials of the two lines of a pair. Their least common multiple is not made to see which monomials divide it.
#[derive(Clone, Copy)]
struct Leads<'a> {
    first: MonoRef<'a>,
    second: MonoRef<'a>,
    /// The degree of the least common multiple.
    degree: u32,
}

impl<'a> Leads<'a> {
    /// Whether the least common multiple is within the limit on degrees.
    fn is_within(self) -> bool {
        self.degree <= DEGREE_LIMIT
    }

    /// Whether a monomial divides the least common multiple.
    fn is_multiple_of(self, m: MonoRef<'_>) -> bool {
        if m.degree() > self.degree {
            return false;
        }
        for power in m.pairs() {
            if power.1 > exponent_in(self.second.pairs(), power.0)
                && power.1 > exponent_in(self.first.pairs(), power.0)
            {
                return false;
            }
        }
        true
    }
}

/// The leading monomials of the lines of a pair, where both are not 0.
fn leads_of<'a, F: Field, O: MonoOrder>(
    lines: &'a [Line<F, O>],
    pair: &PairRecord,
) -> Option<Leads<'a>> {
    let first = lead_of(lines, pair.first)?;
    let second = lead_of(lines, pair.second)?;
    Some(Leads {
        first,
        second,
        degree: lcm_degree(first, second),
    })
}

/// A pair that is left out.
fn late_of(turn: Turn, pair: &PairRecord) -> Late {
    Late {
        ease: turn.ease,
        second: usize::MAX - pair.second,
        first: pair.first,
        turn,
    }
}

/// The turn of a pair.
fn turn_of<F: Field, O: MonoOrder>(lines: &[Line<F, O>], pair: &PairRecord, place: usize) -> Turn {
    let mut turn = Turn {
        simplifies: false,
        replaces: false,
        divides: false,
        ease: 0,
        age: usize::MAX - place,
    };
    if let (Some(m), Some(n)) = (lead_of(lines, pair.first), lead_of(lines, pair.second)) {
        let degree = lcm_degree(m, n);
        let by_first = m.divides(n);
        let by_second = n.divides(m);
        turn.divides = by_first || by_second;
        turn.replaces = by_first && is_replacing(lines, pair.first)
            || by_second && is_replacing(lines, pair.second);
        turn.simplifies = degree <= 1
            || by_first && is_no_longer(lines, pair.first, pair.second)
            || by_second && is_no_longer(lines, pair.second, pair.first);
        turn.ease = u32::MAX - degree;
    }
    turn
}

/// Whether a line has no more terms than another, or at most two: replacing a variable by a variable or a value makes no
/// polynomial longer.
fn is_no_longer<F: Field, O: MonoOrder>(lines: &[Line<F, O>], line: usize, other: usize) -> bool {
    match (lines.get(line), lines.get(other)) {
        (Some(line), Some(other)) => line.poly.len() <= other.poly.len().max(2),
        _ => false,
    }
}

/// Whether a line says that a variable is a variable or a value.
fn is_replacing<F: Field, O: MonoOrder>(lines: &[Line<F, O>], line: usize) -> bool {
    match lines.get(line) {
        Some(line) => match line.poly.lead() {
            Some((_, m)) => m.degree() <= 1 && line.poly.len() <= 2,
            None => false,
        },
        None => false,
    }
}

/// Whether the criteria leave a pair out.
fn is_covered<F: Field, O: MonoOrder>(
    lines: &[Line<F, O>],
    index: &Index,
    pairs: &[PairRecord],
    pair: &PairRecord,
) -> bool {
    let Some(leads) = leads_of(lines, pair) else {
        return false;
    };
    leads.is_within()
        && (is_covered_from(lines, index, pairs, pair, leads.second, leads)
            || is_covered_from(lines, index, pairs, pair, leads.first, leads))
}

/// Whether a line whose leading monomial begins with a variable of a monomial leaves a pair out.
fn is_covered_from<F: Field, O: MonoOrder>(
    lines: &[Line<F, O>],
    index: &Index,
    pairs: &[PairRecord],
    pair: &PairRecord,
    m: MonoRef<'_>,
    leads: Leads<'_>,
) -> bool {
    for power in m.pairs() {
        if is_covered_by(lines, index.begun_by(power.0), pairs, pair, leads) {
            return true;
        }
    }
    false
}

/// Whether a line before the second one of a pair leaves it out, whatever is known of other pairs.
fn is_covered_at_once<F: Field, O: MonoOrder>(
    lines: &[Line<F, O>],
    index: &Index,
    pair: &PairRecord,
) -> bool {
    let Some(leads) = leads_of(lines, pair) else {
        return false;
    };
    leads.is_within()
        && (is_covered_before(lines, index, pair, leads.second, leads)
            || is_covered_before(lines, index, pair, leads.first, leads))
}

/// Whether such a line's leading monomial begins with a variable of a monomial. Only the last ones are looked at: where another
/// one leaves the pair out, that is seen when the pair is the next one.
fn is_covered_before<F: Field, O: MonoOrder>(
    lines: &[Line<F, O>],
    index: &Index,
    pair: &PairRecord,
    m: MonoRef<'_>,
    leads: Leads<'_>,
) -> bool {
    for power in m.pairs() {
        let numbers = index.begun_by(power.0);
        let before = numbers
            .partition_point(|number| *number < pair.second)
            .min(numbers.len());
        let from = before.saturating_sub(MOST_LOOKED);
        for number in numbers[from..before].iter().rev() {
            if covers_at_once(lines, *number, pair, leads) {
                return true;
            }
        }
    }
    false
}

/// Whether a line before the second one of a pair leaves it out, whatever is known of other pairs.
fn covers_at_once<F: Field, O: MonoOrder>(
    lines: &[Line<F, O>],
    line: usize,
    pair: &PairRecord,
    leads: Leads<'_>,
) -> bool {
    if line == pair.first {
        return false;
    }
    let Some(m) = lead_of(lines, line) else {
        return false;
    };
    leads.is_multiple_of(m)
        && (line > pair.first
            || lcm_degree(m, leads.second) < leads.degree
            || m.is_coprime(leads.second))
}

/// The place to look at in a step: first those before a number, from the last one on, and then the others. A pair mostly follows
/// from those with the last line before its second one.
pub(crate) fn turned(before: usize, step: usize) -> usize
    ensures { (result ≡ step) ⊎ (result < before) }
{
    if step < before {
        before - 1 - step
    } else {
        step
    }
}

/// Whether one of these lines leaves a pair out.
fn is_covered_by<F: Field, O: MonoOrder>(
    lines: &[Line<F, O>],
    numbers: &[usize],
    pairs: &[PairRecord],
    pair: &PairRecord,
    leads: Leads<'_>,
) -> bool {
    let before = numbers
        .partition_point(|number| *number < pair.second)
        .min(numbers.len());
    for step in 0..numbers.len() {
        if covers(lines, numbers[turned(before, step)], pairs, pair, leads) {
            return true;
        }
    }
    false
}

/// Whether a line leaves a pair out.
fn covers<F: Field, O: MonoOrder>(
    lines: &[Line<F, O>],
    line: usize,
    pairs: &[PairRecord],
    pair: &PairRecord,
    leads: Leads<'_>,
) -> bool {
    if line == pair.first || line == pair.second {
        return false;
    }
    let Some(m) = lead_of(lines, line) else {
        return false;
    };
    leads.is_multiple_of(m)
        && is_earlier(
            m,
            line,
            leads.second,
            pair.second,
            pairs,
            pair,
            leads.degree,
        )
        && is_earlier(m, line, leads.first, pair.first, pairs, pair, leads.degree)
}

/// Whether the pair of a line and one of the lines of a pair, whose leading monomials divide the least common multiple of that
/// pair, comes before that pair, or is done, or needs nothing. The degree is that of the least common multiple.
fn is_earlier(
    m: MonoRef<'_>,
    line: usize,
    n: MonoRef<'_>,
    other: usize,
    pairs: &[PairRecord],
    pair: &PairRecord,
    degree: u32,
) -> bool {
    let second = line.max(other);
    second < pair.second
        || second == pair.second && line.min(other) > pair.first
        || lcm_degree(m, n) < degree
        || m.is_coprime(n)
        || is_recorded(pairs, line.min(other), second)
}
