// The canonical text of an input.
ghost use Rattle.std.specs.Prelude.{◌≡◌, ◌+◌, ◌∷◌, ◌++◌, [], OnOk, IfOk, decimal, is_some, map, option_map};
ghost use Rattle.std.specs.Option.{option_map_or};
ghost use Rattle.std.specs.List.{flat_map};
ghost use Rattle.forms.specs.Printing.{atom_text, lines_of, others_of, plain_text, plains_from, plains_text};
ghost use Rattle.goal_meaning.specs.InputForms.{axiom_plain, declaration_plain, goal_plain, guard_plains, input_name as name_of_input, input_plain, leaf_atom, let_plain, machine_plains, naming, operator_name, pin_plains, pool_plain, register_plain, target_plain, assume_plain, term_plain, variable_plain};
ghost use Rattle.goal_meaning.specs.Expanded.{let_names};
ghost use Rattle.goal_meaning.specs.Names.{declared_name};
ghost use Rattle.goal_reader.specs.Printing.{input_text};
ghost use Rattle.goal_meaning.specs.Views.{assume_view, axiom_view, goal_view, input_view, let_view, target_view};
ghost use Rattle.goal_meaning.specs.declared.goals.InputReg.{InputReg as InputRegOf};
ghost use Rattle.std.specs.Prelude.{List, slice_index_or};
ghost use Rattle.word_terms.specs.View.{tree_of};

use goal_meaning::{Assume, Axiom, DeclaredOp, Goal, Input, InputReg, Let, Set};
use items::{Items, NoMemory};
use itoa::Buffer;
use std::alloc::Global;
use text_core::Name;
use word_ops::{Op, op_name};
use word_terms::Term;

fn put_number(text: &mut Vec<u8>, number: u64) -> Result<(), NoMemory>
    ensures { OnOk result (text.new.items ≡ text.old.items ++ decimal number) }
{
    let mut buffer = Buffer::new();
    text.extend_from_slice(buffer.format(number).as_bytes())?;
    Ok(())
}

/// The name of the first input in the register; nothing where there is none.
fn put_input_name(text: &mut Vec<u8>, inputs: &[InputReg], register: u8) -> Result<(), NoMemory>
    ensures { OnOk result (text.new.items ≡ text.old.items ++ name_of_input inputs.now register) }
{
    for input in inputs {
        if input.reg == register {
            text.extend_from_slice(input.name.bytes())?;
            return Ok(());
        }
    }
    Ok(())
}

fn put_operator(text: &mut Vec<u8>, declared: &[DeclaredOp], op: Op) -> Result<(), NoMemory>
    ensures { OnOk result (text.new.items ≡ text.old.items ++ operator_name declared.now op) }
{
    match op {
        Op::Word(word) => text.extend_from_slice(op_name(word))?,
        Op::Select(access) => text.extend_from_slice(access.select_name())?,
        Op::Store(access) => text.extend_from_slice(access.store_name())?,
        Op::Declared { index, .. } => {
            if let Some(operator) = declared.get(index as usize) {
                text.extend_from_slice(operator.name.bytes())?;
            }
        }
        _ => {}
    }
    Ok(())
}

/// Whether the operator is written as an atom.
fn is_leaf(op: Op) -> bool
    ensures { (inputs : List InputRegOf) → result ≡ is_some (leaf_atom inputs op) }
{
    match op {
        Op::Entry | Op::Input(_) | Op::Constant(_) => true,
        _ => false,
    }
}

fn put_leaf(text: &mut Vec<u8>, inputs: &[InputReg], op: Op) -> Result<(), NoMemory>
    ensures { OnOk result (text.new.items
        ≡ text.old.items ++ option_map_or atom_text (leaf_atom inputs.now op) []) }
{
    match op {
        Op::Entry => text.extend_from_slice(b"M")?,
        Op::Input(register) => put_input_name(text, inputs, register)?,
        Op::Constant(number) => put_number(text, number)?,
        _ => {}
    }
    Ok(())
}

/// A term, where declared operators, inputs and variables have these names.
pub fn put_term(
    text: &mut Vec<u8>,
    term: &Term<Op>,
    declared: &[DeclaredOp],
    inputs: &[InputReg],
    variables: &[Name],
) -> Result<(), NoMemory>
    ensures { OnOk result (text.new.items ≡ text.old.items
        ++ plain_text (term_plain (naming declared.now inputs.now variables.now) (tree_of term.now))) }
{
    match term {
        Term::Var(at) => {
            if let Some(name) = variables.get(*at as usize) {
                text.extend_from_slice(name.bytes())?;
            }
            Ok(())
        }
        Term::App(op, operands) => {
            if is_leaf(*op) {
                return put_leaf(text, inputs, *op);
            }
            text.extend_from_slice(b"(")?;
            put_operator(text, declared, *op)?;
            for operand in operands.iter() {
                text.extend_from_slice(b" ")?;
                put_term(text, operand, declared, inputs, variables)?;
            }
            text.extend_from_slice(b")")?;
            Ok(())
        }
    }
}

/// A register with its dollar sign.
pub fn put_register(text: &mut Vec<u8>, register: u8) -> Result<(), NoMemory>
    ensures { OnOk result (text.new.items ≡ text.old.items ++ plain_text (register_plain register)) }
{
    text.extend_from_slice(b"$")?;
    put_number(text, u64::from(register))
}

/// Each input with a space before it.
#[tactic(auto, using(crate::proofs::Printed::each_more, crate::proofs::Printed::others_each))]
fn put_inputs(text: &mut Vec<u8>, inputs: &[InputReg]) -> Result<(), NoMemory>
    ensures { OnOk result (text.new.items ≡ text.old.items ++ others_of (plains_from (map input_plain inputs.now))) }
{
    for input in inputs {
        text.extend_from_slice(b" (in ")?;
        text.extend_from_slice(input.name.bytes())?;
        text.extend_from_slice(b" ")?;
        put_register(text, input.reg)?;
        text.extend_from_slice(b")")?;
    }
    Ok(())
}

/// `( pool {REGISTER} )`.
#[tactic(auto, using(crate::proofs::Printed::each_more, crate::proofs::Printed::others_each))]
pub fn put_pool(text: &mut Vec<u8>, pool: &[u8]) -> Result<(), NoMemory>
    ensures { OnOk result (text.new.items ≡ text.old.items ++ plain_text (pool_plain pool.now)) }
{
    text.extend_from_slice(b"(pool")?;
    for register in pool {
        text.extend_from_slice(b" ")?;
        put_register(text, *register)?;
    }
    text.extend_from_slice(b")")?;
    Ok(())
}

/// The names of the lets.
fn names_of_lets(alloc: Global, lets: &[Let]) -> Result<Items<Name>, NoMemory>
    ensures { IfOk result (λ names. names ≡ let_names (map let_view lets.now)) }
{
    let mut names = Items::new(alloc);
    for one in lets {
        names.push(one.name.copy()?)?;
    }
    Ok(names)
}

/// Each let with a space before it.
#[tactic(auto, using(crate::proofs::Printed::each_more, crate::proofs::Printed::others_each))]
fn put_lets(
    text: &mut Vec<u8>,
    lets: &[Let],
    declared: &[DeclaredOp],
    inputs: &[InputReg],
    names: &[Name],
) -> Result<(), NoMemory>
    ensures { OnOk result (text.new.items ≡ text.old.items ++ others_of (plains_from
        (map (λ l. let_plain (naming declared.now inputs.now names.now) (let_view l)) lets.now))) }
{
    for one in lets {
        text.extend_from_slice(b" (let ")?;
        text.extend_from_slice(one.name.bytes())?;
        text.extend_from_slice(b" ")?;
        put_term(text, &one.value, declared, inputs, names)?;
        text.extend_from_slice(b")")?;
    }
    Ok(())
}

/// Each assumption with a space before it.
#[tactic(auto, using(crate::proofs::Printed::each_more, crate::proofs::Printed::others_each))]
fn put_assumes(
    text: &mut Vec<u8>,
    assumes: &[Assume],
    declared: &[DeclaredOp],
    inputs: &[InputReg],
    names: &[Name],
) -> Result<(), NoMemory>
    ensures { OnOk result (text.new.items ≡ text.old.items ++ others_of (plains_from
        (map (λ a. assume_plain (naming declared.now inputs.now names.now) (assume_view a)) assumes.now))) }
{
    for assume in assumes {
        text.extend_from_slice(b" (assume ")?;
        put_term(text, &assume.left, declared, inputs, names)?;
        text.extend_from_slice(b" ")?;
        put_term(text, &assume.right, declared, inputs, names)?;
        text.extend_from_slice(b")")?;
    }
    Ok(())
}

/// The guard with a space before it, if there is one.
fn put_guard(
    text: &mut Vec<u8>,
    guard: &Option<Term<Op>>,
    declared: &[DeclaredOp],
    inputs: &[InputReg],
    names: &[Name],
) -> Result<(), NoMemory>
    ensures { OnOk result (text.new.items ≡ text.old.items ++ others_of (plains_from
        (guard_plains (naming declared.now inputs.now names.now) (option_map tree_of guard.now)))) }
{
    if let Some(term) = guard {
        text.extend_from_slice(b" (when ")?;
        put_term(text, term, declared, inputs, names)?;
        text.extend_from_slice(b")")?;
    }
    Ok(())
}

fn put_target(
    text: &mut Vec<u8>,
    target: &Set,
    declared: &[DeclaredOp],
    inputs: &[InputReg],
    names: &[Name],
) -> Result<(), NoMemory>
    ensures { OnOk result (text.new.items ≡ text.old.items
        ++ plain_text (target_plain (naming declared.now inputs.now names.now) (target_view target.now))) }
{
    text.extend_from_slice(b"(set ")?;
    text.extend_from_slice(target.name.bytes())?;
    if let Some(register) = target.pin {
        text.extend_from_slice(b" ")?;
        put_register(text, register)?;
    }
    text.extend_from_slice(b" ")?;
    put_term(text, &target.value, declared, inputs, names)?;
    text.extend_from_slice(b")")?;
    Ok(())
}

/// Each target with a space before it.
#[tactic(auto, using(crate::proofs::Printed::each_more, crate::proofs::Printed::others_each))]
fn put_targets(
    text: &mut Vec<u8>,
    targets: &[Set],
    declared: &[DeclaredOp],
    inputs: &[InputReg],
    names: &[Name],
) -> Result<(), NoMemory>
    ensures { OnOk result (text.new.items ≡ text.old.items ++ others_of (plains_from
        (map (λ t. target_plain (naming declared.now inputs.now names.now) (target_view t)) targets.now))) }
{
    for target in targets {
        text.extend_from_slice(b" ")?;
        put_target(text, target, declared, inputs, names)?;
    }
    Ok(())
}

fn put_goal(
    alloc: Global,
    text: &mut Vec<u8>,
    goal: &Goal,
    declared: &[DeclaredOp],
) -> Result<(), NoMemory>
    ensures { OnOk result (text.new.items ≡ text.old.items
        ++ plain_text (goal_plain declared.now (goal_view goal.now))) }
{
    let inputs = goal.inputs.as_slice();
    let lets = goal.lets.as_slice();
    let names = names_of_lets(alloc, lets)?;
    let names = names.as_slice();
    text.extend_from_slice(b"(goal ")?;
    text.extend_from_slice(goal.name.bytes())?;
    put_inputs(text, inputs)?;
    text.extend_from_slice(b" ")?;
    put_pool(text, goal.pool.as_slice())?;
    put_lets(text, lets, declared, inputs, names)?;
    put_assumes(text, goal.assumes.as_slice(), declared, inputs, names)?;
    put_guard(text, &goal.guard, declared, inputs, names)?;
    put_targets(text, goal.sets.as_slice(), declared, inputs, names)?;
    text.extend_from_slice(b")")?;
    Ok(())
}

/// The names, one space between them.
fn put_names(text: &mut Vec<u8>, names: &[Name]) -> Result<(), NoMemory>
    ensures { OnOk result (text.new.items ≡ text.old.items ++ plains_text (plains_from
        (map variable_plain names.now))) }
{
    if names.is_empty() {
        return Ok(());
    }
    text.extend_from_slice(names[0].bytes())?;
    put_more_names(text, &names[1..])
}

#[tactic(auto, using(crate::proofs::Printed::each_more, crate::proofs::Printed::others_each))]
fn put_more_names(text: &mut Vec<u8>, names: &[Name]) -> Result<(), NoMemory>
    ensures { OnOk result (text.new.items ≡ text.old.items ++ others_of (plains_from (map variable_plain names.now))) }
{
    for name in names {
        text.extend_from_slice(b" ")?;
        text.extend_from_slice(name.bytes())?;
    }
    Ok(())
}

fn put_axiom(text: &mut Vec<u8>, one: &Axiom, declared: &[DeclaredOp]) -> Result<(), NoMemory>
    ensures { OnOk result (text.new.items ≡ text.old.items
        ++ plain_text (axiom_plain declared.now (axiom_view one.now))) }
{
    let variables = one.variables.as_slice();
    text.extend_from_slice(b"(axiom (")?;
    put_names(text, variables)?;
    text.extend_from_slice(b") ")?;
    put_term(text, &one.left, declared, &[], variables)?;
    text.extend_from_slice(b" ")?;
    put_term(text, &one.right, declared, &[], variables)?;
    text.extend_from_slice(b")")?;
    Ok(())
}

/// Each declaration on a line.
#[tactic(auto, using(crate::proofs::Printed::each_more, crate::proofs::Printed::lines_each))]
fn put_declarations(text: &mut Vec<u8>, operators: &[DeclaredOp]) -> Result<(), NoMemory>
    ensures { OnOk result (text.new.items ≡ text.old.items
        ++ lines_of (plains_from (map declaration_plain operators.now))) }
{
    for operator in operators {
        text.extend_from_slice(b"(op ")?;
        text.extend_from_slice(operator.name.bytes())?;
        text.extend_from_slice(b" ")?;
        put_number(text, operator.arity.count() as u64)?;
        text.extend_from_slice(b")\n")?;
    }
    Ok(())
}

/// Each axiom on a line.
#[tactic(auto, using(crate::proofs::Printed::each_more, crate::proofs::Printed::lines_each))]
fn put_axioms(text: &mut Vec<u8>, axioms: &[Axiom], declared: &[DeclaredOp]) -> Result<(), NoMemory>
    ensures { OnOk result (text.new.items ≡ text.old.items
        ++ lines_of (plains_from (map (λ a. axiom_plain declared.now (axiom_view a)) axioms.now))) }
{
    for one in axioms {
        put_axiom(text, one, declared)?;
        text.extend_from_slice(b"\n")?;
    }
    Ok(())
}

/// Each goal on a line.
#[tactic(auto, using(crate::proofs::Printed::each_more, crate::proofs::Printed::lines_each))]
fn put_goals(
    alloc: Global,
    text: &mut Vec<u8>,
    goals: &[Goal],
    declared: &[DeclaredOp],
) -> Result<(), NoMemory>
    ensures { OnOk result (text.new.items ≡ text.old.items
        ++ lines_of (plains_from (map (λ g. goal_plain declared.now (goal_view g)) goals.now))) }
{
    for goal in goals {
        put_goal(alloc, text, goal, declared)?;
        text.extend_from_slice(b"\n")?;
    }
    Ok(())
}

/// The canonical text of an input: a line for each form.
pub fn print(alloc: Global, input: &Input) -> Result<Vec<u8>, NoMemory>
    ensures { IfOk result (λ text. text.items ≡ input_text (input_view input.now)) }
{
    let declared = input.ops.as_slice();
    let mut text = if input.builtin {
        Vec::new(alloc)
    } else {
        machine_table::print(alloc, &input.table)?
    };
    put_declarations(&mut text, declared)?;
    put_axioms(&mut text, input.axioms.as_slice(), declared)?;
    put_goals(alloc, &mut text, input.goals.as_slice(), declared)?;
    Ok(text)
}
