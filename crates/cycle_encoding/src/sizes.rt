// The counts of the formula of cycles, slots and values where sets may have pins.
ghost use Rattle.std.specs.Prelude.{◌≡◌, ◌<◌, ◌≤◌, ◌^◌};
ghost use Rattle.std.specs.List.{count_by, range_with_len};
ghost use Rattle.graph_meaning.specs.WellFormed as wellformed;
ghost use Rattle.graph_meaning.specs.WellFormed.{IsLaunchGraph};
ghost use Rattle.cycle_encoding.specs.Framed.{IsFrame, over};
ghost use Rattle.cycle_encoding.specs.CycleFormula.{wants_in};
ghost use Rattle.cycle_encoding.specs.Counts as counts;
ghost use Rattle.cycle_encoding.specs.Facts.{is_unsafe_shown};
ghost use Rattle.cycle_encoding.specs.Families.{is_made_target};
ghost use Rattle.cycle_encoding.specs.Variables.{is_overwriting, pinned_sets};

use crate::counts::{Sizes, cluster_count};
use crate::destined_counts::{launch_count, place_sizes};
use crate::facts::next_class;
use crate::needs_counts::needs_count;
use crate::seen::is_shown;
use crate::{Facts, Frame, Scope};
use schedule_meaning::{To, pin_of};

/// How many classes are shown.
#[tactic(auto, using(crate::proofs::Tallies::count_more))]
fn shown_count(facts: &Facts, scope: &Scope) -> u64
    requires graph { IsLaunchGraph facts.now }
    ensures value { result ≡ count_by (is_unsafe_shown facts.now (wants_in scope.now))
        (range_with_len 0 (wellformed.next_class facts.now.rows)) }
    ensures few { result < 2 ^ 32 }
{
    let mut count = 0;
    for class in 0..next_class(facts.graph()) {
        count += u64::from(is_shown(facts, scope, class));
    }
    count
}

/// How many targets without a pin have to be made.
fn target_count(facts: &Facts) -> u64
    ensures value { result ≡ count_by (is_made_target facts.now) facts.now.sets }
    ensures few { result < 2 ^ 62 }
{
    let mut count = 0;
    for set in facts.graph().sets.as_slice() {
        count += u64::from(facts.is_needed_target(set));
    }
    count
}

/// Whether the set is pinned to an input's register.
pub fn is_overwriting(facts: &Facts, number: u32) -> bool
    ensures { result ≡ is_overwriting facts.now number }
{
    match pin_of(facts.graph(), To::Set(number)) {
        Some(pin) => facts.graph().is_input_register(pin),
        None => false,
    }
}

/// How many sets are.
pub fn overwriting_count(facts: &Facts) -> u64
    ensures value { result ≡ count_by (is_overwriting facts.now) (pinned_sets facts.now) }
    ensures few { result ≤ 31 }
{
    let mut count = 0;
    for set in facts.pins() {
        count += u64::from(is_overwriting(facts, *set));
    }
    count
}

/// The counts of the formula of cycles, slots and values.
pub fn cycle_sizes(frame: &Frame) -> Sizes
    requires frame { IsFrame frame.now }
    ensures vars { result.vars ≡ over frame.now counts.cycle_vars }
    ensures clauses { result.clauses ≡ over frame.now counts.cycle_size }
    ensures few_vars { result.vars < 2 ^ 50 }
    ensures few_clauses { result.clauses < 2 ^ 63 }
{
    let seen = shown_count(frame.facts, frame.scope)
        * (cluster_count(frame.table) * u64::from(frame.k));
    let overwritten = overwriting_count(frame.facts) * (u64::from(frame.k) + 1);
    let places = place_sizes(frame);
    let needs = needs_count(frame);
    Sizes {
        vars: launch_count(frame) + seen + overwritten + places.vars,
        clauses: target_count(frame.facts) + needs + seen + places.clauses,
    }
}
