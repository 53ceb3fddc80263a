// The work on one goal: its graph, rounds of matching, and then cycles in rising order until they are enough.
ghost use Rattle.std.specs.Prelude.{◌≡◌, ◌<◌, length, IfOk, Some, slice_get};
ghost use Rattle.goal_meaning.specs.Views.{GoalTree, InputTree, input_view};
ghost use Rattle.goal_meaning.specs.WellFormed.{IsInput};
ghost use Rattle.saturation.specs.GoalTerms.{rules_of};
ghost use Rattle.denali_run.specs.MatchedGoals.{IsSettings};
ghost use Rattle.denali_run.specs.Right.{Right};

use crate::results::{Answered, Matched};
use crate::searching::search;
use crate::settings::Settings;
use goal_meaning::Input;
use items::NoMemory;
use saturation::{
    Rules, SaturateFault, StartFault, axioms_make_rules_true, grown_graphs_are_one,
    grown_graphs_can_be_launched, launched_graphs_stand, rules, saturate, start, to_launch,
};
use std::alloc::{AllocError, Global};

/// Answers one goal of the input.
pub fn solve_goal(
    alloc: Global,
    input: &Input,
    at: u32,
    settings: &Settings,
) -> Result<Answered, NoMemory>
    requires input { IsInput (input_view input.now) }
    requires at { at < length input.now.goals }
    requires settings { IsSettings settings.now }
    ensures right { IfOk result (λ answered. (goal : GoalTree) → slice_get (input_view input.now).goals at ≡ Some goal
        → Right (input_view input.now) goal settings.now answered) }
{
    let rules = rules(alloc, input, settings.library)?;
    solve_by_rules(alloc, input, &rules, at, settings)
}

/// Answers one goal by the rules of its input, which serve for all goals.
pub(crate) fn solve_by_rules(
    alloc: Global,
    input: &Input,
    rules: &Rules,
    at: u32,
    settings: &Settings,
) -> Result<Answered, NoMemory>
    requires input { IsInput (input_view input.now) }
    requires rules { rules.now ≡ rules_of settings.now.library (input_view input.now) }
    requires at { at < length input.now.goals }
    requires settings { IsSettings settings.now }
    ensures right { IfOk result (λ answered. (goal : GoalTree) → slice_get (input_view input.now).goals at ≡ Some goal
        → Right (input_view input.now) goal settings.now answered) }
{
    grown_graphs_are_one();
    axioms_make_rules_true();
    launched_graphs_stand();
    grown_graphs_can_be_launched();
    let goal = &input.goals.as_slice()[at as usize];
    let first = match start(alloc, goal) {
        Ok(graph) => graph,
        Err(StartFault::NoWorld { class, a, b }) => return Ok(Answered::NoWorld { class, a, b }),
        Err(StartFault::Memory) => return Err(AllocError),
    };
    let saturated = match saturate(alloc, first, rules, settings.rounds, settings.nodes) {
        Ok(saturated) => saturated,
        Err(SaturateFault::NoWorld { class, a, b }) => {
            return Ok(Answered::NoWorld { class, a, b });
        }
        Err(SaturateFault::Memory) => return Err(AllocError),
    };
    let graph = to_launch(alloc, &saturated, goal, input)?;
    let matched = Matched {
        graph,
        rounds: saturated.rounds,
        stop: saturated.stop,
    };
    search(alloc, matched, &input.table, settings)
}
