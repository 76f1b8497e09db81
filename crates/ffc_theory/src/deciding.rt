//! Deciding checks, one after another.
ghost use Rattle.std.specs.Prelude.{◌≡◌, ◌+◌, ◌≤◌, true, false, OnOk, IfOk, IfErr, IfSome, IfNone};
ghost use Rattle.ffc_base.specs.Metering.{total};
ghost use Rattle.ffc_theory.specs.Bounds.{IsBeyondEarly, IsCauseBeyond};
ghost use Rattle.ffc_cert.specs.WellFormed.{IsReadable};
ghost use Rattle.ffc_rules.specs.Causes.{is_small};
ghost use Rattle.ffc_rules.specs.Entries.{limits, EntryOk};
ghost use Rattle.ffc_rules.specs.Laws.{IsValid};
ghost use Rattle.ffc_check.specs.Judged.{judged_check};
ghost use Rattle.ffc_trials.specs.Parts.{IsConeOf};
ghost use Rattle.ffc_trials.specs.Stops.{IsCaused, IsGiven, IsGivenIn, IsWithinLimits, IsVerdict, MayBeDecided};
ghost use Rattle.ffc_trials.specs.Stops.{SpendsAll, cause_of};
ghost use Rattle.ffc_trials.specs.Versions.{written_version};

use crate::attempts::{decided_early, decided_late};
use crate::proposing::proposed;
use ffc_base::{Meter, Unit};
use ffc_cert::Entry;
use ffc_engine::Engine;
use ffc_term::Check;
use ffc_trials::{
    Cone, DecideStop, Enumeration, Room, check_limits, decide_small, first_count, small_span,
};
use std::alloc::{AllocError, Global};

/// What is kept from one check to the next. An entry is given only where the checker accepts it for its own check, so no clause speaks
/// of the checks before.
#[derive(Drop)]
pub struct Session {
    alloc: Global,
    room: Room,
    engine: Engine,
}

/// The most assignments that are tried before the engine is asked.
const EARLY_TRIALS: u64 = 256;

/// The stop where all units were taken, by one meter or another.
fn spent_by(trials: &Meter, engine: &Meter, steps: u64) -> DecideStop
    requires all { total trials.now + total engine.now ≡ steps }
    ensures { SpendsAll steps result }
{
    let both = |kind: Unit| trials.count(kind) + engine.count(kind);
    DecideStop::Spent(
        both(Unit::Trial),
        both(Unit::Reduction),
        both(Unit::Assignment),
        both(Unit::Chain),
    )
}

/// Decides another check, as far as the budget reaches: a few assignments are tried, then the engine is asked, and what it leaves
/// of the budget goes to further assignments. The engine leaves at least as many as are tried in any case.
#[tactic(auto, using(ffc_trials::proofs::VersionLemmas::given_in, ffc_trials::proofs::VersionLemmas::model_in))]
fn decide_large(
    kept: &mut Session,
    check: &Check,
    cone: &Cone,
    steps: u64,
    bits: bool,
) -> Result<Entry, DecideStop>
    requires valid { IsValid (judged_check check.now) }
    requires cone { IsConeOf (judged_check check.now) cone.now }
    requires large { is_small limits (judged_check check.now) steps ≡ false }
    requires within { IsWithinLimits (judged_check check.now) }
    ensures given { IfOk result (IsGivenIn bits (judged_check check.now)) }
    ensures caused { IfErr result (IsCaused steps (judged_check check.now)) }
{
    let first = first_count(cone.nodes.len(), steps);
    let early = first.min(EARLY_TRIALS);
    let mut trials = Meter::new(steps);
    let mut engine = Meter::new(steps - first);
    let mut enumeration = Enumeration::new(kept.alloc, &mut kept.room, check, cone)?;
    if enumeration.go_on(check, cone, early, &mut trials) {
        let values = enumeration.into_values(check, cone, &mut kept.room);
        return Ok(Entry::Sat(values));
    }
    if let Some(entry) = proposed(kept.alloc, &mut kept.engine, check, bits, &mut engine)? {
        enumeration.into_room(check, cone, &mut kept.room);
        return Ok(entry);
    }
    let left = steps - early - engine.spent();
    if enumeration.go_on(check, cone, left, &mut trials) {
        let values = enumeration.into_values(check, cone, &mut kept.room);
        return Ok(Entry::Sat(values));
    }
    enumeration.into_room(check, cone, &mut kept.room);
    Err(spent_by(&trials, &engine, steps))
}

/// The entry of a check that is small within the budget. None of another one whose equalities are within the limits of
/// polynomials.
fn settled(
    kept: &mut Session,
    check: &Check,
    cone: &Cone,
    steps: u64,
) -> Result<Option<Entry>, DecideStop>
    requires valid { IsValid (judged_check check.now) }
    requires cone { IsConeOf (judged_check check.now) cone.now }
    ensures given { IfOk result (λ found. IfSome found (IsGiven (judged_check check.now))) }
    ensures small { IfOk result (λ found. IfSome found (λ _. is_small limits (judged_check check.now) steps ≡ true)) }
    ensures large { IfOk result (λ found. IfNone found (is_small limits (judged_check check.now) steps ≡ false)) }
    ensures within { IfOk result (λ found. IfNone found (IsWithinLimits (judged_check check.now))) }
    ensures caused { IfErr result (IsCaused steps (judged_check check.now)) }
    ensures beyond { IfErr result (λ stop. IsCauseBeyond steps (judged_check check.now) (cause_of stop)) }
{
    if let Some(span) = small_span(check, cone, steps) {
        let entry = decide_small(kept.alloc, &mut kept.room, check, cone, span, steps)?;
        return Ok(Some(entry));
    }
    check_limits(check, cone)?;
    Ok(None)
}

/// Decides another check, and where that spends its budget by combinations of what the check's clauses force, with a budget of their
/// own: they go through matrices of up to their whole budget, where the engine often decides with little.
#[tactic(auto, using(ffc_trials::proofs::VersionLemmas::given_in, ffc_trials::proofs::VersionLemmas::model_in))]
fn decide_beyond(
    kept: &mut Session,
    check: &Check,
    cone: &Cone,
    steps: u64,
    bits: bool,
) -> Result<Entry, DecideStop>
    requires valid { IsValid (judged_check check.now) }
    requires cone { IsConeOf (judged_check check.now) cone.now }
    requires large { is_small limits (judged_check check.now) steps ≡ false }
    requires within { IsWithinLimits (judged_check check.now) }
    requires early { IsBeyondEarly steps (judged_check check.now) }
    ensures given { IfOk result (IsGivenIn bits (judged_check check.now)) }
    ensures caused { IfErr result (IsCaused steps (judged_check check.now)) }
    ensures beyond { IfErr result (λ stop. IsCauseBeyond steps (judged_check check.now) (cause_of stop)) }
{
    match decide_large(kept, check, cone, steps, bits) {
        Ok(entry) => Ok(entry),
        Err(DecideStop::Memory) => Err(DecideStop::Memory),
        Err(stop) => match decided_late(kept.alloc, check, cone, steps)? {
            Some(entry) => Ok(entry),
            None => Err(stop),
        },
    }
}

impl Session {
    /// Before the first check.
    pub fn new(alloc: Global) -> Result<Session, AllocError> {
        Ok(Session {
            alloc,
            room: Room::new(alloc),
            engine: Engine::new(alloc)?,
        })
    }

    /// Decides a check within a budget of units of work. With `bits` a refutation may have lines of bits, and is one of version 3.
    ///
    /// What calls came before changes no clause. A check with few assignments is gone through. Of another one whose equalities are
    /// within the limits of polynomials, some assignments are tried, and the engine over polynomials is asked for an entry, which is
    /// given where it is readable and the checker accepts it.
    ///
    /// # Errors
    ///
    /// A stop says why there is no entry: `IsCaused` has the condition of each but `Memory`, which may come at any time.
    #[tactic(auto, using(ffc_trials::proofs::VersionLemmas::given_in, ffc_trials::proofs::VersionLemmas::model_in))]
    pub fn decide(&mut self, check: &Check, steps: u64, bits: bool) -> Result<Entry, DecideStop>
        requires valid { IsValid (judged_check check.now) }
        ensures readable { IfOk result (IsReadable (written_version bits)) }
        ensures right { IfOk result (EntryOk (judged_check check.now)) }
        ensures verdict { IfOk result IsVerdict }
        ensures decided { OnOk result (MayBeDecided steps (judged_check check.now)) }
        ensures caused { IfErr result (IsCaused steps (judged_check check.now)) }
    {
        let cone = Cone::of(self.alloc, check)?;
        if let Some(entry) = settled(self, check, &cone, steps)? {
            return Ok(entry);
        }
        decide_large(self, check, &cone, steps, bits)
    }

    /// Decides a check as `decide` does, with the attempts with a bound: linear algebra, propagation and roots before, combinations
    /// after. Each has a meter of its own with `steps` units, so the units that an undecided check states are those of the assignments
    /// and the engine.
    ///
    /// # Errors
    ///
    /// As those of `decide`; the budget is spent only where no bound speaks of the check (`IsCauseBeyond`).
    #[tactic(auto, using(ffc_trials::proofs::VersionLemmas::given_in, ffc_trials::proofs::VersionLemmas::model_in))]
    pub fn decide_in_order(
        &mut self,
        check: &Check,
        steps: u64,
        bits: bool,
    ) -> Result<Entry, DecideStop>
        requires valid { IsValid (judged_check check.now) }
        ensures readable { IfOk result (IsReadable (written_version bits)) }
        ensures right { IfOk result (EntryOk (judged_check check.now)) }
        ensures verdict { IfOk result IsVerdict }
        ensures decided { OnOk result (MayBeDecided steps (judged_check check.now)) }
        ensures caused { IfErr result (IsCaused steps (judged_check check.now)) }
        ensures beyond { IfErr result (λ stop. IsCauseBeyond steps (judged_check check.now) (cause_of stop)) }
    {
        let cone = Cone::of(self.alloc, check)?;
        if let Some(entry) = settled(self, check, &cone, steps)? {
            return Ok(entry);
        }
        if let Some(entry) = decided_early(self.alloc, check, &cone, steps)? {
            return Ok(entry);
        }
        decide_beyond(self, check, &cone, steps, bits)
    }
}
