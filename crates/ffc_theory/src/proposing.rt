//! Entries that the engine proposes, tested before they are given.
ghost use Rattle.std.specs.Prelude.{◌≡◌, false, IfOk, IfErr, IfSome};
ghost use Rattle.ffc_rules.specs.Laws.{IsValid};
ghost use Rattle.ffc_check.specs.Judged.{judged_check};
ghost use Rattle.ffc_trials.specs.Stops.{IsGivenIn};

use ffc_base::{Meter, SearchStop, Unit};
use ffc_cert::Entry;
use ffc_engine::Engine;
use ffc_term::Check;
use ffc_trials::{DecideStop, tested};
use std::alloc::Global;

/// Of fewer units no parts are made.
const LEAST: u64 = 65_536;

/// Of the units one part in so many goes to a first attempt, and to one that reasons about bits.
const FIRST: u64 = 256;

const REASONING: u64 = 128;

/// What the engine proposes, reasoning about bits as integers or not, where it may be given, with lines of bits or without them.
/// None also where the meter is full, and where the engine gave up.
fn asked(
    alloc: Global,
    engine: &mut Engine,
    check: &Check,
    reasons: bool,
    bits: bool,
    meter: &mut Meter,
) -> Result<Option<Entry>, DecideStop>
    requires valid { IsValid (judged_check check.now) }
    ensures given { IfOk result (λ found. IfSome found (IsGivenIn bits (judged_check check.now))) }
    ensures only { IfErr result (λ stop. stop ≡ DecideStop.Memory) }
    ensures same_budget { meter.new.budget ≡ meter.old.budget }
{
    match engine.propose(check, reasons, meter) {
        Ok(Some(entry)) => tested(alloc, check, entry, bits),
        Ok(None) | Err(SearchStop::Spent | SearchStop::GaveUp) => Ok(None),
        Err(SearchStop::Memory) => Err(DecideStop::Memory),
    }
}

/// Counts the units that a part took.
fn charge(meter: &mut Meter, part: &Meter)
    ensures same_budget { meter.new.budget ≡ meter.old.budget }
{
    let _ = meter.charge(Unit::Trial, part.count(Unit::Trial));
    let _ = meter.charge(Unit::Reduction, part.count(Unit::Reduction));
    let _ = meter.charge(Unit::Assignment, part.count(Unit::Assignment));
    let _ = meter.charge(Unit::Chain, part.count(Unit::Chain));
}

/// The same without lines of bits, with so many units.
fn asked_shortly(
    alloc: Global,
    engine: &mut Engine,
    check: &Check,
    reasons: bool,
    units: u64,
    meter: &mut Meter,
) -> Result<Option<Entry>, DecideStop>
    requires valid { IsValid (judged_check check.now) }
    ensures given { IfOk result (λ found. IfSome found (IsGivenIn false (judged_check check.now))) }
    ensures only { IfErr result (λ stop. stop ≡ DecideStop.Memory) }
    ensures same_budget { meter.new.budget ≡ meter.old.budget }
{
    let mut part = Meter::new(units);
    let found = asked(alloc, engine, check, reasons, false, &mut part)?;
    charge(meter, &part);
    Ok(found)
}

/// What the engine proposes, with lines of bits or without them, where it may be given. None also where the meter is full, and where
/// the engine gave up.
///
/// Without lines of bits, what it finds by reasoning about bits may be values all the same, which need no such lines. So where it
/// decides nothing within a part of the units, that is tried with another part, and then the rest is for the engine without it.
pub fn proposed(
    alloc: Global,
    engine: &mut Engine,
    check: &Check,
    bits: bool,
    meter: &mut Meter,
) -> Result<Option<Entry>, DecideStop>
    requires valid { IsValid (judged_check check.now) }
    ensures given { IfOk result (λ found. IfSome found (IsGivenIn bits (judged_check check.now))) }
    ensures only { IfErr result (λ stop. stop ≡ DecideStop.Memory) }
    ensures same_budget { meter.new.budget ≡ meter.old.budget }
{
    if bits || meter.left() < LEAST {
        return asked(alloc, engine, check, bits, bits, meter);
    }
    let units = meter.left() / FIRST;
    if let Some(entry) = asked_shortly(alloc, engine, check, false, units, meter)? {
        return Ok(Some(entry));
    }
    let units = meter.left() / REASONING;
    if let Some(entry) = asked_shortly(alloc, engine, check, true, units, meter)? {
        return Ok(Some(entry));
    }
    asked(alloc, engine, check, false, false, meter)
}
