//! The equalities of one field, group by group: evaluation, then elimination, then lines of a basis, then the search by cases.
ghost use Rattle.std.specs.Prelude.{IsErrOf};
ghost use Rattle.ffc_base.specs.Metering.{Metered};

use ffc_base::{Meter, SearchStop, Unit};
use ffc_basis::{Completion, Progress};
use ffc_bits::bit_of;
use ffc_cdcl::Lit;
use ffc_cert::CertLine;
use ffc_circuit::{
    Generator, GeneratorStop, Inputs, Ranking, copies_at, differences, groups_of, values_forward,
    with_inverse,
};
use ffc_field::{Field, FieldId, ForField};
use ffc_mono::GradedReverseLex;
use ffc_search::{Found, reduced_within, search};
use ffc_stack::BasisStack;
use ffc_term::NodeTable;
use std::alloc::{AllocError, Global};

/// Of the units that are left, the equalities that hold are completed with at most one part in each of these, one after the
/// other; with none at first, which does what simplifies them.
const PARTS: [u64; 3] = [0, 64, 16];

/// Of the units that are left, at most one of this many parts is taken to search by bits before that.
const BIT_PARTS: u64 = 2;

/// Of the units that are left, the other equalities are completed with at most one part in this many.
const LAST_PARTS: u64 = 4;

/// What is known of some equalities of one field.
#[derive(Drop)]
pub enum Answer {
    /// Values of their variables with which they hold.
    Values(Vec<(u32, u64)>),
    /// They do not hold together: a tree whose generators are those of these equalities, and whose variables are ranks, and for
    /// each line of bits in it the ranks that its last numbers are for.
    Closed(Vec<Lit>, Ranking, Vec<CertLine>, Vec<Vec<u32>>),
    /// These are not decided. With true, the units of the share were spent; else the search does not go on with them, whatever the
    /// units are: it has no further choice, or a limit is passed.
    Undecided(Vec<Lit>, bool),
}

/// What a search over one field ends with.
#[derive(Drop)]
enum Reached {
    /// Values of the variables.
    Values(Vec<(u32, u64)>),
    /// A tree whose generators are those of these equalities, and for each line of bits in it the ranks that its last numbers
    /// are for.
    Closed(Vec<Lit>, Vec<CertLine>, Vec<Vec<u32>>),
}

/// Equalities of one field, as they are on a trail: first those that hold, then the others.
#[derive(Clone, Copy)]
pub struct Problem<'a> {
    pub alloc: Global,
    pub table: &'a NodeTable,
    pub equalities: &'a [Lit],
    /// Whether bits are reasoned about as integers.
    pub bits: bool,
    /// Whether those that do not hold are searched with the others at once, where most variables are equal to others.
    pub at_once: bool,
}

/// One of so many parts of the units that are left.
pub fn part_of_left(meter: &Meter, parts: u64) -> u64 {
    if parts == 0 {
        return 0;
    }
    meter.left() / parts
}

/// Variables with their values.
fn paired<F: Field>(
    alloc: Global,
    variables: &[u32],
    values: &[F],
) -> Result<Vec<(u32, u64)>, AllocError> {
    let mut pairs = Vec::new(alloc);
    for (variable, value) in variables.iter().zip(values) {
        pairs.push((*variable, value.residue()))?;
    }
    Ok(pairs)
}

/// What the equalities that hold say of those that do not.
#[derive(Drop)]
enum Finding {
    /// They do not hold together by themselves.
    Refuted,
    /// The sides of this one are equal too.
    Equal(usize),
    /// The sides of these may be equal or not; those of the others are not.
    Open(Vec<usize>),
}

/// What the lines say of differences that are not zero.
fn compare<F: Field>(
    alloc: Global,
    stack: &mut BasisStack<F, GradedReverseLex>,
    unequal: &[Generator<F>],
    meter: &mut Meter,
) -> Result<Finding, SearchStop> {
    let mut open = Vec::new(alloc);
    for (k, poly) in unequal.iter().enumerate() {
        match reduced_within(stack, poly, meter)? {
            Some(reduced) => {
                if reduced.rest.is_zero() {
                    return Ok(Finding::Equal(k));
                }
                if !reduced.rest.is_constant() {
                    open.push(k)?;
                }
            }
            None => open.push(k)?,
        }
    }
    Ok(Finding::Open(open))
}

/// Completes the lines of the equalities that hold, further and further, until they settle the others.
fn settle<F: Field>(
    alloc: Global,
    stack: &mut BasisStack<F, GradedReverseLex>,
    equal: &[Generator<F>],
    unequal: &[Generator<F>],
    meter: &mut Meter,
) -> Result<Finding, SearchStop> {
    stack.push_within(equal, 0, meter)?;
    let mut found = Finding::Open(Vec::new(alloc));
    if unequal.is_empty() {
        return Ok(found);
    }
    for parts in PARTS {
        let progress = stack.go_on(part_of_left(meter, parts), meter)?;
        if let Progress::Done(Completion::Constant(_)) = progress {
            return Ok(Finding::Refuted);
        }
        found = compare(alloc, stack, unequal, meter)?;
        if is_settled(&progress, &found) {
            return Ok(found);
        }
    }
    Ok(found)
}

/// Whether further completion says no more.
fn is_settled(progress: &Progress, found: &Finding) -> bool {
    matches!(progress, Progress::Done(_)) || matches!(found, Finding::Equal(_))
}

/// Values that follow from those of inputs by the equalities that hold, so many, which come first.
fn values_by_equalities<F: Field>(
    alloc: Global,
    polys: &[Generator<F>],
    holding: usize,
    meter: &mut Meter,
) -> Result<Option<Vec<(u32, u64)>>, GeneratorStop> {
    let (equal, unequal) = polys.split_at(holding.min(polys.len()));
    let mut borrows = Vec::new(alloc);
    for poly in equal {
        borrows.push(poly)?;
    }
    values_forward(
        alloc,
        borrows.as_slice(),
        unequal,
        holding,
        Inputs::First,
        meter,
    )
}

/// Values of variables where these are their ranks.
fn unranked(
    alloc: Global,
    ranking: &Ranking,
    values: &[(u32, u64)],
) -> Result<Vec<(u32, u64)>, AllocError> {
    let mut pairs = Vec::new(alloc);
    for (rank, value) in values {
        if let Some(variable) = ranking.variable(*rank) {
            pairs.push((variable, *value))?;
        }
    }
    Ok(pairs)
}

/// Values that follow from those of inputs by the lines as well: these have sums that the equalities have step by step.
fn values_by_lines<F: Field>(
    alloc: Global,
    stack: &BasisStack<F, GradedReverseLex>,
    unequal: &[Generator<F>],
    equalities: usize,
    ranking: &Ranking,
    meter: &mut Meter,
) -> Result<Option<Vec<(u32, u64)>>, SearchStop> {
    let mut polys = Vec::new(alloc);
    for line in stack.lines() {
        polys.push(&line.poly)?;
    }
    let polys = polys.as_slice();
    match values_forward(alloc, polys, unequal, equalities, Inputs::Last, meter)? {
        Some(values) => Ok(Some(unranked(alloc, ranking, values.as_slice())?)),
        None => Ok(None),
    }
}

/// The equalities that hold.
fn holding(alloc: Global, equalities: &[Lit]) -> Result<Vec<Lit>, AllocError> {
    let mut found = Vec::new(alloc);
    for equality in equalities {
        if equality.positive {
            found.push(*equality)?;
        }
    }
    Ok(found)
}

/// The variable that is the inverse for the equality at a place.
fn inverse_of(first: u32, place: usize) -> Option<u32> {
    let place = u32::try_from(place).ok()?;
    first.checked_add(place)
}

/// The equalities at these places.
fn equalities_at(
    alloc: Global,
    equalities: &[Lit],
    places: &[usize],
) -> Result<Vec<Lit>, AllocError> {
    let mut chosen = Vec::new(alloc);
    for place in places {
        if let Some(equality) = equalities.get(*place) {
            chosen.push(*equality)?;
        }
    }
    Ok(chosen)
}

impl Problem<'_> {
    /// Appends those equalities that say that sides with these differences are not equal, and their generators. Each has a
    /// variable for the inverse of its difference, in the order in which they are appended.
    fn append_unequal<F: Field>(
        self,
        unequal: &[Generator<F>],
        places: &[usize],
        ranking: &Ranking,
        chosen: &mut Vec<Lit>,
    ) -> Result<Vec<Generator<F>>, SearchStop> {
        let before = self.equalities.len().saturating_sub(unequal.len());
        let mut gens = Vec::new(self.alloc);
        for place in places {
            let equality = self.equalities.get(before.saturating_add(*place));
            let variable = inverse_of(self.table.len(), chosen.len());
            let rank = variable.and_then(|name| ranking.rank(name));
            match (equality, unequal.get(*place), rank) {
                (Some(equality), Some(poly), Some(rank)) => {
                    gens.push(with_inverse(self.alloc, poly, rank)?)?;
                    chosen.push(*equality)?;
                }
                _ => return Err(SearchStop::GaveUp),
            }
        }
        Ok(gens)
    }
    /// The stack to search, where `stack` has the lines of the equalities that hold, completed as far as they were looked at,
    /// and `found` is what these say of the others. Nothing is kept of that completion but where two sides are equal: a search
    /// by cases is better off without long lines.
    fn prepared<F: Field>(
        self,
        mut stack: BasisStack<F, GradedReverseLex>,
        sides: (&[Generator<F>], &[Generator<F>]),
        found: Finding,
        ranking: &Ranking,
        chosen: &mut Vec<Lit>,
        meter: &mut Meter,
    ) -> Result<BasisStack<F, GradedReverseLex>, SearchStop> {
        let (equal, unequal) = sides;
        match found {
            Finding::Refuted => {}
            Finding::Equal(place) => {
                let gens = self.append_unequal(unequal, &[place], ranking, chosen)?;
                stack.push_within(gens.as_slice(), part_of_left(meter, LAST_PARTS), meter)?;
            }
            Finding::Open(places) => {
                let gens = self.append_unequal(unequal, places.as_slice(), ranking, chosen)?;
                stack = BasisStack::new(self.alloc);
                stack.push_within(equal, 0, meter)?;
                stack.push_within(gens.as_slice(), 0, meter)?;
            }
        }
        Ok(stack)
    }

    /// Searches the lines of these equalities for values.
    fn search_lines<F: Field>(
        self,
        mut stack: BasisStack<F, GradedReverseLex>,
        ranking: &Ranking,
        chosen: Vec<Lit>,
        meter: &mut Meter,
    ) -> Result<Reached, SearchStop> {
        let ranks = ranking.ranks(self.alloc)?;
        match search(self.alloc, &mut stack, ranks.as_slice(), self.bits, meter)? {
            Found::Values(values) => {
                let pairs = paired(self.alloc, ranking.variables(), values.as_slice())?;
                Ok(Reached::Values(pairs))
            }
            Found::Closed(tree, sums) => Ok(Reached::Closed(chosen, tree, sums)),
        }
    }

    /// Searches for values, where these are the differences of the equalities' sides in ranks.
    fn reach<F: Field>(
        self,
        polys: &[Generator<F>],
        ranking: &Ranking,
        meter: &mut Meter,
    ) -> Result<Reached, SearchStop> {
        let mut chosen = holding(self.alloc, self.equalities)?;
        let count = chosen.len();
        if count > polys.len() {
            return Err(SearchStop::GaveUp);
        }
        let (equal, unequal) = polys.split_at(count);
        let mut stack = BasisStack::new(self.alloc);
        let found = settle(self.alloc, &mut stack, equal, unequal, meter)?;
        if let Some(values) = values_by_lines(self.alloc, &stack, unequal, count, ranking, meter)? {
            return Ok(Reached::Values(values));
        }
        let sides = (equal, unequal);
        let stack = self.prepared(stack, sides, found, ranking, &mut chosen, meter)?;
        self.search_lines(stack, ranking, chosen, meter)
    }

    /// The same with nothing completed but what simplifies, and with all that do not hold at once.
    fn reach_at_once<F: Field>(
        self,
        polys: &[Generator<F>],
        ranking: &Ranking,
        meter: &mut Meter,
    ) -> Result<Reached, SearchStop> {
        let mut chosen = holding(self.alloc, self.equalities)?;
        let count = chosen.len();
        if count > polys.len() {
            return Err(SearchStop::GaveUp);
        }
        let (equal, unequal) = polys.split_at(count);
        let mut stack = BasisStack::new(self.alloc);
        stack.push_within(equal, 0, meter)?;
        if let Some(values) = values_by_lines(self.alloc, &stack, unequal, count, ranking, meter)? {
            return Ok(Reached::Values(values));
        }
        let mut places = Vec::new(self.alloc);
        for place in 0..unequal.len() {
            places.push(place)?;
        }
        let gens = self.append_unequal(unequal, places.as_slice(), ranking, &mut chosen)?;
        stack.push_within(gens.as_slice(), 0, meter)?;
        self.search_lines(stack, ranking, chosen, meter)
    }

    /// Searches so with a part of the units, where bits are reasoned about and there are any.
    fn reach_by_bits<F: Field>(
        self,
        polys: &[Generator<F>],
        ranking: &Ranking,
        meter: &mut Meter,
    ) -> Result<Option<Reached>, SearchStop> {
        if !self.bits || !polys.iter().any(|poly| bit_of(poly).is_some()) {
            return Ok(None);
        }
        let mut own = Meter::new(part_of_left(meter, BIT_PARTS));
        let reached = self.reach_at_once(polys, ranking, &mut own);
        charge(meter, &own)?;
        match reached {
            Ok(reached) => Ok(Some(reached)),
            Err(SearchStop::Memory) => Err(SearchStop::Memory),
            Err(_) => Ok(None),
        }
    }

    /// Searches without bits too where the search with them gives up: one line of bits that the checker does not take spoils a tree.
    fn reach_either_way<F: Field>(
        self,
        polys: &[Generator<F>],
        ranking: &Ranking,
        meter: &mut Meter,
    ) -> Result<Reached, SearchStop> {
        match self.reach(polys, ranking, meter) {
            Err(SearchStop::GaveUp) if self.bits => {
                let without = Problem {
                    bits: false,
                    ..self
                };
                without.reach(polys, ranking, meter)
            }
            reached => reached,
        }
    }

    /// Searches for values, by bits first.
    fn answer<F: Field>(
        self,
        polys: &[Generator<F>],
        ranking: Ranking,
        meter: &mut Meter,
    ) -> Result<Answer, SearchStop> {
        let reached = match self.reach_by_bits(polys, &ranking, meter)? {
            Some(reached) => reached,
            None if self.at_once => self.reach_at_once(polys, &ranking, meter)?,
            None => self.reach_either_way(polys, &ranking, meter)?,
        };
        Ok(match reached {
            Reached::Values(values) => Answer::Values(values),
            Reached::Closed(chosen, tree, sums) => Answer::Closed(chosen, ranking, tree, sums),
        })
    }

    /// The answer for equalities with these differences.
    fn answer_group<F: Field>(
        self,
        polys: &[Generator<F>],
        meter: &mut Meter,
    ) -> Result<Answer, SearchStop> {
        let holding = holding(self.alloc, self.equalities)?.len();
        if let Some(values) = values_by_equalities(self.alloc, polys, holding, meter)? {
            return Ok(Answer::Values(values));
        }
        if let Some(answer) = self.by_elimination(polys, meter)? {
            return Ok(answer);
        }
        let Some(first) = inverse_of(self.table.len(), holding) else {
            return Err(SearchStop::GaveUp);
        };
        let inverses = polys.len().saturating_sub(holding);
        let ranking = Ranking::of(self.alloc, polys, first, inverses)?;
        let ranked = ranking.ranked(self.alloc, polys)?;
        self.answer(ranked.as_slice(), ranking, meter)
    }

    /// The answer for the equalities at these places, which are in order.
    fn answer_at<F: Field>(
        self,
        polys: &[Generator<F>],
        places: &[usize],
        meter: &mut Meter,
    ) -> Result<Answer, SearchStop> {
        if places.len() == polys.len() {
            return self.answer_group(polys, meter);
        }
        let own = copies_at(self.alloc, polys, places)?;
        self.answer_group(own.as_slice(), meter)
    }

    /// The answer for one group, whose equalities are at these places, within these units.
    fn answer_within<F: Field>(
        self,
        polys: &[Generator<F>],
        places: &[usize],
        units: u64,
        meter: &mut Meter,
    ) -> Result<Answer, SearchStop> {
        let equalities = equalities_at(self.alloc, self.equalities, places)?;
        let problem = Problem {
            equalities: equalities.as_slice(),
            ..self
        };
        let mut own = Meter::new(units.min(meter.left()));
        let answer = problem.answer_at(polys, places, &mut own);
        charge(meter, &own)?;
        problem.undecided(answer)
    }

    /// An answer, where a search that stops leaves these equalities undecided.
    fn undecided(self, answer: Result<Answer, SearchStop>) -> Result<Answer, SearchStop>
        ensures { ¬ (IsErrOf result SearchStop.Spent) }
    {
        let unfinished = match answer {
            Err(SearchStop::Spent) => true,
            Err(SearchStop::GaveUp) => false,
            answer => return answer,
        };
        let equalities = Vec::from_slice(self.alloc, self.equalities)?;
        Ok(Answer::Undecided(equalities, unfinished))
    }

    /// The answer for a part: of the last one, or of one before. Each group but the very last one takes at most half of the units
    /// that are left.
    fn search_part<F: Field>(
        self,
        is_last_part: bool,
        meter: &mut Meter,
    ) -> Result<Answer, SearchStop> {
        let mut gathered = Gathered::new(self.alloc);
        let polys = differences::<F>(self.alloc, self.table, self.equalities)?;
        let groups = groups_of(self.alloc, self.equalities, polys.as_slice())?;
        for (k, places) in groups.iter().enumerate() {
            let is_last = is_last_part && k.saturating_add(1) >= groups.len();
            let units = part_of_left(meter, if is_last { 1 } else { 2 });
            let answer = self.answer_within(polys.as_slice(), places.as_slice(), units, meter)?;
            if let Some(answer) = gathered.add(answer)? {
                return Ok(answer);
            }
        }
        Ok(gathered.answer())
    }

    /// The answer over the field `F`, on its own units: part by part, since most trails are refuted by their first part, and so
    /// nothing is made of the others.
    fn searched<F: Field>(
        self,
        parts: &[Vec<Lit>],
        meter: &mut Meter,
    ) -> Result<Answer, SearchStop> {
        let mut gathered = Gathered::new(self.alloc);
        for (k, part) in parts.iter().enumerate() {
            let problem = Problem {
                equalities: part.as_slice(),
                ..self
            };
            let is_last = k.saturating_add(1) >= parts.len();
            let answer = problem.search_part::<F>(is_last, meter);
            if let Some(answer) = gathered.add(problem.undecided(answer)?)? {
                return Ok(answer);
            }
        }
        Ok(gathered.answer())
    }

    /// The answer for parts that share no variable, over the field of this name, with a share of the units that are left.
    pub fn over_field(
        self,
        field: FieldId,
        parts: &[Vec<Lit>],
        share: u64,
        meter: &mut Meter,
    ) -> Result<Answer, SearchStop>
        ensures metered { Metered SearchStop.Spent result meter.old meter.new }
    {
        let work = Work {
            problem: self,
            parts,
            meter: Meter::new(share.min(meter.left())),
        };
        let (answer, taken) = field.run(work);
        charge(meter, &taken)?;
        self.undecided(answer)
    }
}

/// Keeps which equalities are undecided: the first that more units may decide, or else the first. Those of one group are enough to
/// keep the solver from all trails that have them.
pub fn leave(undecided: &mut Option<(Vec<Lit>, bool)>, equalities: Vec<Lit>, unfinished: bool) {
    let replaces = match undecided {
        None => true,
        Some((_, before)) => unfinished && !*before,
    };
    if replaces {
        *undecided = Some((equalities, unfinished));
    }
}

/// What the groups or parts searched so far have led to.
#[derive(Drop)]
struct Gathered {
    values: Vec<(u32, u64)>,
    undecided: Option<(Vec<Lit>, bool)>,
}

impl Gathered {
    /// Nothing was searched. It takes no memory.
    fn new(alloc: Global) -> Self {
        Gathered {
            values: Vec::new(alloc),
            undecided: None,
        }
    }

    /// Adds an answer, unless it ends the search: then it is given back.
    fn add(&mut self, answer: Answer) -> Result<Option<Answer>, AllocError> {
        match answer {
            Answer::Values(pairs) => self.values.extend_from_slice(pairs.as_slice())?,
            Answer::Undecided(equalities, unfinished) => {
                leave(&mut self.undecided, equalities, unfinished);
            }
            Answer::Closed(chosen, ranking, tree, sums) => {
                return Ok(Some(Answer::Closed(chosen, ranking, tree, sums)));
            }
        }
        Ok(None)
    }

    /// The answer for all of them.
    fn answer(self) -> Answer {
        let Gathered { values, undecided } = self;
        match undecided {
            Some((equalities, unfinished)) => Answer::Undecided(equalities, unfinished),
            None => Answer::Values(values),
        }
    }
}

/// The problem with its parts and a meter of its own, which is handed back beside the answer.
#[derive(Drop)]
struct Work<'a> {
    problem: Problem<'a>,
    parts: &'a [Vec<Lit>],
    meter: Meter,
}

impl ForField for Work<'_> {
    type Out = (Result<Answer, SearchStop>, Meter);

    ghost can_run = { λ _ _. Unit {0} };

    ghost gives = { λ _ _ _. Unit {0} };

    fn run<F: Field>(self) -> (Result<Answer, SearchStop>, Meter) {
        let Work {
            problem,
            parts,
            mut meter,
        } = self;
        let answer = problem.searched::<F>(parts, &mut meter);
        (answer, meter)
    }
}

/// Takes the units that another meter counts.
pub fn charge(meter: &mut Meter, taken: &Meter) -> Result<(), SearchStop>
    ensures metered { Metered SearchStop.Spent result meter.old meter.new }
{
    meter.charge(Unit::Trial, taken.count(Unit::Trial))?;
    meter.charge(Unit::Reduction, taken.count(Unit::Reduction))?;
    meter.charge(Unit::Assignment, taken.count(Unit::Assignment))?;
    meter.charge(Unit::Chain, taken.count(Unit::Chain))?;
    Ok(())
}
