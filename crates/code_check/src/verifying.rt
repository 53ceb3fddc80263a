// The check of a code against its goal.
ghost use Rattle.std.specs.Prelude.{◌≡◌, ◌+◌, ◌<◌, ◌≤◌, ◌^◌, [], List, length, map, All, IfOk, IfSome, MatchOption, Some, slice_get};
ghost use Rattle.word_terms.specs.Keys.{op_signature};
ghost use Rattle.egraph.specs.Graph.{HasClass, IsGraph};
ghost use Rattle.std.specs.List.{AllZip};
ghost use Rattle.pattern_match.specs.Classes.{IsClass};
ghost use Rattle.goal_meaning.specs.Expanded.{expanded, let_terms};
ghost use Rattle.alpha_encode.specs.Decoded.{decoded};
ghost use Rattle.alpha_encode.specs.declared.instructions.Instr.{Instr};
ghost use Rattle.goal_meaning.specs.Views.{GoalTree, InputTree, goal_view, input_view};
ghost use Rattle.goal_meaning.specs.WellFormed.{IsGoal, IsInput};
ghost use Rattle.axiom_library.specs.declared.libraries.Library.{Library as LibraryOf};
ghost use Rattle.saturation.specs.AtStart.{IsGrownAtStart, StandsAtStart};
ghost use Rattle.saturation.specs.GoalTerms.{rules_of};
ghost use Rattle.code_check.specs.Answers.{IsAnswerOf, IsGoalBelow};
ghost use Rattle.code_check.specs.Codes.{ArePlaces, FitsGoal, IsCodeOf};
ghost use Rattle.code_check.specs.Compared.{ArePresentAddresses, ArePresentClasses, ArePresentClassesOfSome, IsBranchOf, terms_at_branch};
ghost use Rattle.code_check.specs.Outcomes.{HasOneBranch};
ghost use Rattle.code_check.specs.Same.{IsFirstDifferent, Same, terms_at_end};
ghost use Rattle.code_check.specs.Terms.{terms_at_entry};
ghost use Rattle.code_check.specs.Verified.{IsRightFor};

use crate::branches::{Branch, find_branch, words_before};
use crate::code_terms::{Inserted, insert_code};
use crate::codes::{At, Code, Part, Verified};
use crate::comparing::{first_different_target, is_same_guard, is_same_leaving, is_same_memory};
use crate::laws::{compared_graphs_decide, same_code_does_the_goal, written_terms_are_sorted};
use crate::trapping::first_trap;
use axiom_library::Library;
use egraph::{Egraph, rows_name_present_classes};
use goal_meaning::{Goal, Input};
use graph_meaning::Stop;
use items::NoMemory;
use pattern_match::terms_have_one_class;
use saturation::{
    Rules, SaturateFault, StartFault, let_classes, more_terms_may_be_inserted, rules, saturate,
    start,
};
use std::alloc::{AllocError, Global};
use word_ops::Op;

/// The first word that may trap, or part of the goal that isn't the same in the code.
fn first_different(
    alloc: Global,
    graph: &Egraph<Op>,
    lets: &[u32],
    goal: &Goal,
    words: &[u32],
    places: &[At],
    branch: Option<Branch>,
    inserted: &Inserted,
) -> Result<Option<Part>, NoMemory>
    requires lets { AllZip (IsClass graph.now []) (let_terms (goal_view goal.now)) lets.now }
    requires present { All (HasClass graph.now) lets.now }
    requires below { IsGoalBelow (goal_view goal.now) }
    requires inputs { All (λ i. i.reg < 32) goal.now.inputs }
    requires few { length goal.now.sets < 2 ^ 32 }
    requires few_words { length words.now < 2 ^ 32 }
    requires few_rows { length graph.now.rows < 2 ^ 30 }
    requires places { ArePlaces (goal_view goal.now).sets places.now }
    requires register { IfSome branch (λ b. b.register < 32) }
    requires branch { ArePresentClassesOfSome graph.now inserted.now.at_branch inserted.now.memory_at_branch }
    requires end { ArePresentClassesOfSome graph.now inserted.now.at_end inserted.now.memory_at_end }
    requires addresses { (instrs : List Instr) × (map decoded words.now ≡ map Some instrs)
        × ArePresentAddresses graph.now instrs terms_at_entry inserted.now.addresses }
    ensures { IfOk result (λ found. (instrs : List Instr) → map decoded words.now ≡ map Some instrs →
        IsBranchOf instrs branch → HasOneBranch instrs →
        ArePresentAddresses graph.now instrs terms_at_entry inserted.now.addresses →
        ArePresentClasses graph.now inserted.now.at_branch inserted.now.memory_at_branch (terms_at_branch branch instrs) →
        ArePresentClasses graph.now inserted.now.at_end inserted.now.memory_at_end (terms_at_end instrs) →
        MatchOption found (Same graph.now (expanded (goal_view goal.now)) instrs places.now)
        (IsFirstDifferent graph.now (expanded (goal_view goal.now)) instrs places.now)) }
{
    let trap = first_trap(alloc, graph, words, inserted.addresses.as_slice())?;
    if let Some(at) = trap {
        return Ok(Some(Part::Trap(at)));
    }
    let guard = is_same_guard(alloc, graph, lets, &goal.guard, branch, &inserted.at_branch)?;
    if !guard {
        return Ok(Some(Part::Guard));
    }
    let inputs = goal.inputs.as_slice();
    let memory = inserted.memory_at_branch;
    let exit = is_same_leaving(graph, inputs, branch, &inserted.at_branch, memory);
    if !exit {
        return Ok(Some(Part::Exit));
    }
    let sets = goal.sets.as_slice();
    let different = first_different_target(alloc, graph, lets, sets, places, &inserted.at_end)?;
    if let Some(set) = different {
        return Ok(Some(Part::Set(set)));
    }
    let memory = inserted.memory_at_end;
    let same = is_same_memory(alloc, graph, lets, sets, &inserted.at_end, memory)?;
    if !same {
        return Ok(Some(Part::Memory));
    }
    Ok(None)
}

fn verified(rounds: u32, stop: Stop, different: Option<Part>) -> Verified
    ensures { IsAnswerOf rounds stop different result }
{
    match different {
        Some(part) => Verified::Unknown { rounds, stop, part },
        None => Verified::Yes,
    }
}

/// The check from the first graph of the goal on.
fn verify_from(
    alloc: Global,
    rules: &Rules,
    goal: &Goal,
    first: Egraph<Op>,
    code: &Code,
    rounds: u32,
    nodes: u32,
) -> Result<Verified, NoMemory>
    requires below { IsGoalBelow (goal_view goal.now) }
    requires inputs { All (λ i. i.reg < 32) goal.now.inputs }
    requires sets { length goal.now.sets < 2 ^ 32 }
    requires fits { FitsGoal (goal_view goal.now) code.now }
    requires graph { IsGraph op_signature first }
    requires grown { IsGrownAtStart (goal_view goal.now) first }
    requires stands { StandsAtStart (goal_view goal.now) first }
    requires few { length first.current + 20480 < 2 ^ 30 }
    requires rounds { rounds ≤ 16 }
    requires nodes { nodes ≤ 4096 }
    ensures right { IfOk result (λ answer. (library : LibraryOf) (input : InputTree) → IsInput input →
        rules.now ≡ rules_of library input → IsGoal input.ops (goal_view goal.now) →
        IsRightFor input (goal_view goal.now) code.now rounds nodes library answer) }
{
    compared_graphs_decide();
    same_code_does_the_goal();
    more_terms_may_be_inserted();
    terms_have_one_class();
    rows_name_present_classes::<Op>();
    written_terms_are_sorted();
    let words = code.words.as_slice();
    let branch = find_branch(words);
    let before = words_before(words, branch);
    let mut graph = first;
    let inserted = insert_code(alloc, &mut graph, words, before)?;
    let saturated = match saturate(alloc, graph, rules, rounds, nodes) {
        Ok(saturated) => saturated,
        Err(SaturateFault::NoWorld { class, a, b }) => {
            return Ok(Verified::NoWorld { class, a, b });
        }
        Err(SaturateFault::Memory) => return Err(AllocError),
    };
    let places = code.places.as_slice();
    let named = goal.lets.as_slice();
    let found = let_classes(alloc, &saturated.graph, named)?;
    let lets = found.as_slice();
    let graph = &saturated.graph;
    let different = first_different(alloc, graph, lets, goal, words, places, branch, &inserted)?;
    Ok(verified(saturated.rounds, saturated.stop, different))
}

/// Whether the words are the goal. The rounds are those of the goal's terms and of the terms that the words write, with
/// the rules of the library.
pub fn verify(
    alloc: Global,
    input: &Input,
    code: &Code,
    rounds: u32,
    nodes: u32,
    library: Library,
) -> Result<Verified, NoMemory>
    requires input { IsInput (input_view input.now) }
    requires code { IsCodeOf (input_view input.now) code.now }
    requires rounds { rounds ≤ 16 }
    requires nodes { (1 ≤ nodes) × (nodes ≤ 4096) }
    ensures right { IfOk result (λ answer. (goal : GoalTree) → slice_get (input_view input.now).goals code.now.goal ≡ Some goal →
        IsRightFor (input_view input.now) goal code.now rounds nodes library answer) }
{
    let rules = rules(alloc, input, library)?;
    verify_by_rules(alloc, input, &rules, code, rounds, nodes)
}

/// The same by the rules of the input and of a library, which serve for all codes of the input.
pub(crate) fn verify_by_rules(
    alloc: Global,
    input: &Input,
    rules: &Rules,
    code: &Code,
    rounds: u32,
    nodes: u32,
) -> Result<Verified, NoMemory>
    requires input { IsInput (input_view input.now) }
    requires code { IsCodeOf (input_view input.now) code.now }
    requires rounds { rounds ≤ 16 }
    requires nodes { nodes ≤ 4096 }
    ensures right { IfOk result (λ answer. (library : LibraryOf) → rules.now ≡ rules_of library (input_view input.now) →
        (goal : GoalTree) → slice_get (input_view input.now).goals code.now.goal ≡ Some goal →
        IsRightFor (input_view input.now) goal code.now rounds nodes library answer) }
{
    compared_graphs_decide();
    let at = code.goal;
    let goal = &input.goals.as_slice()[at as usize];
    match start(alloc, goal) {
        Ok(first) => verify_from(alloc, rules, goal, first, code, rounds, nodes),
        Err(StartFault::NoWorld { class, a, b }) => Ok(Verified::NoWorld { class, a, b }),
        Err(StartFault::Memory) => Err(AllocError),
    }
}
