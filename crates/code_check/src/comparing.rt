// The parts of a code and of its goal, compared by the classes that their terms have after the rounds.
ghost use Rattle.std.specs.Prelude.{◌≡◌, ◌≢◌, ◌<◌, ◌^◌, ℕ, [], List, length, map, All, AllPairs, IfOk, IfSome, IsTrue, ◌↔◌, Some, option_map};
ghost use Rattle.std.specs.List.{AllZip};
ghost use Rattle.word_ops.specs.declared.sorts.Op.{Op as TermOperator};
ghost use Rattle.word_terms.specs.Tree.{AreBelow, Tree, application, none, substituted};
ghost use Rattle.word_terms.specs.View.{tree_of};
ghost use Rattle.egraph.specs.Graph.{HasClass};
ghost use Rattle.pattern_match.specs.Classes.{IsClass};
ghost use Rattle.goal_meaning.specs.Expanded.{expanded_target};
ghost use Rattle.goal_meaning.specs.Outcomes.{is_memory};
ghost use Rattle.goal_meaning.specs.Views.{target_view};
ghost use Rattle.saturation.specs.GoalTerms.{input_term};
ghost use Rattle.code_check.specs.Answers.{AreTargetsBelow};
ghost use Rattle.code_check.specs.Codes.{ArePlaces};
ghost use Rattle.code_check.specs.Compared.{ArePresentClasses, ArePresentClassesOfSome, FindsClass, IsFirstDifferentTarget, IsFoundPlace, IsSameBranch, IsSameLeaving, TellsTarget, are_one};
ghost use Rattle.code_check.specs.Same.{HaveSameClass, IsAsAtEntry, memory_target_term};
ghost use Rattle.code_check.specs.Terms.{TermState};

use crate::branches::Branch;
use crate::codes::At;
use egraph::Egraph;
use goal_meaning::{InputReg, Set};
use items::NoMemory;
use pattern_match::{class_of_pattern, terms_have_one_class};
use saturation::lets_are_their_terms;
use std::alloc::Global;
use word_ops::Op;
use word_terms::Term;

/// The class of an operator without operands.
pub(crate) fn find_leaf(graph: &Egraph<Op>, op: Op) -> Option<u32>
    ensures { FindsClass graph.now (application op none) result }
{
    graph.class_of(op, &[])
}

/// The class of a term, whose lets have these classes.
fn find_term(
    alloc: Global,
    graph: &Egraph<Op>,
    lets: &[u32],
    term: &Term<Op>,
) -> Result<Option<u32>, NoMemory>
    requires present { All (HasClass graph.now) lets.now }
    requires below { AreBelow (length lets.now) (tree_of term.now) }
    ensures { IfOk result (λ found. (es : List (Tree TermOperator)) → AllZip (IsClass graph.now []) es lets.now →
        FindsClass graph.now (substituted es (tree_of term.now)) found) }
{
    lets_are_their_terms();
    // A graph keeps its invariant, which is known here once one of its methods was called.
    let _made = graph.made();
    class_of_pattern(alloc, graph, term, lets)
}

/// The class of a register's term. A register that wasn't written has the one of its term at entry.
fn find_register(graph: &Egraph<Op>, classes: &[Option<u32>], register: u8) -> Option<u32>
    requires low { register < 32 }
    requires classes { (memory : ℕ) × ArePresentClassesOfSome graph.now classes.now memory }
    ensures { (ts : TermState) (memory : ℕ) → ArePresentClasses graph.now classes.now memory ts →
        FindsClass graph.now (ts.registers register) result }
{
    match classes[register as usize] {
        Some(class) => Some(graph.now(class)),
        None if register == 31 => find_leaf(graph, Op::Constant(0)),
        None => find_leaf(graph, Op::Input(register)),
    }
}

/// Whether two terms have a class, and one.
pub(crate) fn is_one(first: Option<u32>, second: Option<u32>) -> bool
    ensures { result ≡ are_one first second }
{
    let Some(class) = first else {
        return false;
    };
    let Some(other) = second else {
        return false;
    };
    class == other
}

/// Whether a register's term and this one have a class, and one.
fn has_term(
    alloc: Global,
    graph: &Egraph<Op>,
    classes: &[Option<u32>],
    register: u8,
    lets: &[u32],
    term: &Term<Op>,
) -> Result<bool, NoMemory>
    requires low { register < 32 }
    requires classes { (memory : ℕ) × ArePresentClassesOfSome graph.now classes.now memory }
    requires present { All (HasClass graph.now) lets.now }
    requires below { AreBelow (length lets.now) (tree_of term.now) }
    ensures { IfOk result (λ same. (es : List (Tree TermOperator)) (ts : TermState) (memory : ℕ) →
        AllZip (IsClass graph.now []) es lets.now → ArePresentClasses graph.now classes.now memory ts →
        (IsTrue same ↔ HaveSameClass graph.now (ts.registers register) (substituted es (tree_of term.now)))) }
{
    terms_have_one_class();
    let class = find_register(graph, classes, register);
    let wanted = find_term(alloc, graph, lets, term)?;
    Ok(is_one(class, wanted))
}

fn branches_on(
    alloc: Global,
    graph: &Egraph<Op>,
    lets: &[u32],
    guard: &Term<Op>,
    branch: Option<Branch>,
    classes: &[Option<u32>],
) -> Result<bool, NoMemory>
    requires present { All (HasClass graph.now) lets.now }
    requires below { AreBelow (length lets.now) (tree_of guard.now) }
    requires register { IfSome branch (λ b. b.register < 32) }
    requires classes { (memory : ℕ) × ArePresentClassesOfSome graph.now classes.now memory }
    ensures { IfOk result (λ same. (es : List (Tree TermOperator)) (ts : TermState) (memory : ℕ) →
        AllZip (IsClass graph.now []) es lets.now → ArePresentClasses graph.now classes.now memory ts →
        (IsTrue same ↔ IsSameBranch graph.now (Some (substituted es (tree_of guard.now))) branch ts)) }
{
    match branch {
        Some(branch) => has_term(alloc, graph, classes, branch.register, lets, guard),
        None => Ok(false),
    }
}

/// Whether guard and branch are one, or both are missing.
pub(crate) fn is_same_guard(
    alloc: Global,
    graph: &Egraph<Op>,
    lets: &[u32],
    guard: &Option<Term<Op>>,
    branch: Option<Branch>,
    classes: &[Option<u32>],
) -> Result<bool, NoMemory>
    requires present { All (HasClass graph.now) lets.now }
    requires below { IfSome (option_map tree_of guard.now) (AreBelow (length lets.now)) }
    requires register { IfSome branch (λ b. b.register < 32) }
    requires classes { (memory : ℕ) × ArePresentClassesOfSome graph.now classes.now memory }
    ensures { IfOk result (λ same. (es : List (Tree TermOperator)) (ts : TermState) (memory : ℕ) →
        AllZip (IsClass graph.now []) es lets.now → ArePresentClasses graph.now classes.now memory ts →
        (IsTrue same ↔ IsSameBranch graph.now (option_map (substituted es) (option_map tree_of guard.now)) branch ts)) }
{
    match guard {
        Some(guard) => branches_on(alloc, graph, lets, guard, branch, classes),
        None => Ok(branch.is_none()),
    }
}

fn is_same_input(graph: &Egraph<Op>, classes: &[Option<u32>], register: u8) -> bool
    requires low { register < 32 }
    requires classes { (memory : ℕ) × ArePresentClassesOfSome graph.now classes.now memory }
    ensures { (ts : TermState) (memory : ℕ) → ArePresentClasses graph.now classes.now memory ts →
        (IsTrue result ↔ HaveSameClass graph.now (ts.registers register) (input_term register)) }
{
    terms_have_one_class();
    let class = find_register(graph, classes, register);
    let wanted = find_leaf(graph, Op::Input(register));
    is_one(class, wanted)
}

fn are_same_inputs(graph: &Egraph<Op>, inputs: &[InputReg], classes: &[Option<u32>]) -> bool
    requires inputs { All (λ i. i.reg < 32) inputs.now }
    requires classes { (memory : ℕ) × ArePresentClassesOfSome graph.now classes.now memory }
    ensures { (ts : TermState) (memory : ℕ) → ArePresentClasses graph.now classes.now memory ts →
        (IsTrue result ↔ All (λ i. HaveSameClass graph.now (ts.registers i.reg) (input_term i.reg)) inputs.now) }
{
    for input in inputs {
        if !is_same_input(graph, classes, input.reg) {
            return false;
        }
    }
    true
}

fn is_same_exit(
    graph: &Egraph<Op>,
    inputs: &[InputReg],
    classes: &[Option<u32>],
    memory: u32,
) -> bool
    requires inputs { All (λ i. i.reg < 32) inputs.now }
    requires classes { ArePresentClassesOfSome graph.now classes.now memory }
    ensures { (ts : TermState) → ArePresentClasses graph.now classes.now memory ts →
        (IsTrue result ↔ IsAsAtEntry graph.now inputs.now ts) }
{
    terms_have_one_class();
    let class = graph.now(memory);
    let entry = find_leaf(graph, Op::Entry);
    let same = is_one(Some(class), entry);
    if !same {
        return false;
    }
    are_same_inputs(graph, inputs, classes)
}

/// Whether memory and input registers are as at entry, where there is a branch.
pub(crate) fn is_same_leaving(
    graph: &Egraph<Op>,
    inputs: &[InputReg],
    branch: Option<Branch>,
    classes: &[Option<u32>],
    memory: u32,
) -> bool
    requires inputs { All (λ i. i.reg < 32) inputs.now }
    requires classes { ArePresentClassesOfSome graph.now classes.now memory }
    ensures { (ts : TermState) → ArePresentClasses graph.now classes.now memory ts →
        (IsTrue result ↔ IsSameLeaving graph.now inputs.now branch ts) }
{
    match branch {
        Some(_) => is_same_exit(graph, inputs, classes, memory),
        None => true,
    }
}

fn find_place(places: &[At], set: u32) -> Option<u8>
    ensures { IsFoundPlace places.now set result }
{
    for place in places {
        if place.set == set {
            return Some(place.reg);
        }
    }
    None
}

pub(crate) fn is_memory_set(set: &Set) -> bool
    ensures { result ≡ is_memory (target_view set.now) }
{
    set.name.bytes() == b"M".as_slice()
}

/// Whether the target is memory, or its register has the class of its term.
fn is_same_target(
    alloc: Global,
    graph: &Egraph<Op>,
    lets: &[u32],
    set: &Set,
    at: u32,
    places: &[At],
    classes: &[Option<u32>],
) -> Result<bool, NoMemory>
    requires present { All (HasClass graph.now) lets.now }
    requires below { AreBelow (length lets.now) (tree_of set.now.value) }
    requires places { All (λ p. p.reg < 31) places.now }
    requires differ { AllPairs (λ p q. p.set ≢ q.set) places.now }
    requires classes { (memory : ℕ) × ArePresentClassesOfSome graph.now classes.now memory }
    ensures { IfOk result (λ same. (es : List (Tree TermOperator)) (ts : TermState) (memory : ℕ) →
        AllZip (IsClass graph.now []) es lets.now → ArePresentClasses graph.now classes.now memory ts →
        TellsTarget graph.now places.now (expanded_target es (target_view set.now)) ts at same) }
{
    if is_memory_set(set) {
        return Ok(true);
    }
    match find_place(places, at) {
        Some(register) => has_term(alloc, graph, classes, register, lets, &set.value),
        None => Ok(true),
    }
}

/// The first target that is a word and whose register hasn't the class of its term.
pub(crate) fn first_different_target(
    alloc: Global,
    graph: &Egraph<Op>,
    lets: &[u32],
    sets: &[Set],
    places: &[At],
    classes: &[Option<u32>],
) -> Result<Option<u32>, NoMemory>
    requires present { All (HasClass graph.now) lets.now }
    requires below { AreTargetsBelow (length lets.now) (map target_view sets.now) }
    requires few { length sets.now < 2 ^ 32 }
    requires places { ArePlaces (map target_view sets.now) places.now }
    requires classes { (memory : ℕ) × ArePresentClassesOfSome graph.now classes.now memory }
    ensures { IfOk result (λ found. (es : List (Tree TermOperator)) (ts : TermState) (memory : ℕ) →
        AllZip (IsClass graph.now []) es lets.now → ArePresentClasses graph.now classes.now memory ts →
        IsFirstDifferentTarget graph.now places.now (map (expanded_target es) (map target_view sets.now)) ts found) }
{
    for at in 0..sets.len() {
        let number = at as u32;
        let same = is_same_target(alloc, graph, lets, &sets[at], number, places, classes)?;
        if !same {
            return Ok(Some(number));
        }
    }
    Ok(None)
}

/// The class of the term that is set for `M`, or of the memory at entry.
fn find_memory(
    alloc: Global,
    graph: &Egraph<Op>,
    lets: &[u32],
    sets: &[Set],
) -> Result<Option<u32>, NoMemory>
    requires present { All (HasClass graph.now) lets.now }
    requires below { AreTargetsBelow (length lets.now) (map target_view sets.now) }
    ensures { IfOk result (λ found. (es : List (Tree TermOperator)) → AllZip (IsClass graph.now []) es lets.now →
        FindsClass graph.now (memory_target_term (map (expanded_target es) (map target_view sets.now))) found) }
{
    for set in sets {
        if is_memory_set(set) {
            return find_term(alloc, graph, lets, &set.value);
        }
    }
    Ok(find_leaf(graph, Op::Entry))
}

/// Whether the memory has the class of the term that is set for `M`, or is as at entry where none is.
pub(crate) fn is_same_memory(
    alloc: Global,
    graph: &Egraph<Op>,
    lets: &[u32],
    sets: &[Set],
    classes: &[Option<u32>],
    memory: u32,
) -> Result<bool, NoMemory>
    requires present { All (HasClass graph.now) lets.now }
    requires below { AreTargetsBelow (length lets.now) (map target_view sets.now) }
    requires classes { ArePresentClassesOfSome graph.now classes.now memory }
    ensures { IfOk result (λ same. (es : List (Tree TermOperator)) (ts : TermState) →
        AllZip (IsClass graph.now []) es lets.now → ArePresentClasses graph.now classes.now memory ts →
        (IsTrue same ↔ HaveSameClass graph.now ts.memory
        (memory_target_term (map (expanded_target es) (map target_view sets.now))))) }
{
    terms_have_one_class();
    let class = graph.now(memory);
    let wanted = find_memory(alloc, graph, lets, sets)?;
    Ok(is_one(Some(class), wanted))
}
