//! Deciding a check that has few assignments.
ghost use Rattle.std.specs.Prelude.{◌≡◌, IfOk, IfErr};
ghost use Rattle.ffc_rules.specs.Laws.{IsValid};
ghost use Rattle.ffc_check.specs.Judged.{judged_check};
ghost use Rattle.ffc_trials.specs.Parts.{IsConeOf};
ghost use Rattle.ffc_trials.specs.Stops.{IsGiven, IsSmallSpan};

use crate::cone::Cone;
use crate::enumerate::{Enumeration, Room};
use crate::stop::DecideStop;
use ffc_base::Meter;
use ffc_cert::Entry;
use ffc_term::Check;
use std::alloc::Global;

/// Decides a check that is small within the budget of `steps` by going through all `span` assignments of its constants.
pub fn decide_small(
    alloc: Global,
    room: &mut Room,
    check: &Check,
    cone: &Cone,
    span: u64,
    steps: u64,
) -> Result<Entry, DecideStop>
    requires valid { IsValid (judged_check check.now) }
    requires cone { IsConeOf (judged_check check.now) cone.now }
    requires small { IsSmallSpan (judged_check check.now) steps span }
    ensures given { IfOk result (IsGiven (judged_check check.now)) }
    ensures only { IfErr result (λ stop. stop ≡ DecideStop.Memory) }
{
    let mut trials = Meter::new(steps);
    let mut enumeration = Enumeration::new(alloc, room, check, cone)?;
    if enumeration.go_on(check, cone, span, &mut trials) {
        let values = enumeration.into_values(check, cone, room);
        return Ok(Entry::Sat(values));
    }
    enumeration.into_room(check, cone, room);
    Ok(Entry::UnsatCases)
}
