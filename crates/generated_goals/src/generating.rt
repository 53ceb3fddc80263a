// A goal made from a number.
ghost use Rattle.std.specs.Prelude.{◌≡◌, ◌<◌, ◌≤◌, ◌∷◌, [], IfOk};
ghost use Rattle.goal_meaning.specs.Rules.{default_pool};
ghost use Rattle.goal_meaning.specs.Views.{goal_view, input_view, target_view};
ghost use Rattle.saturation.specs.GoalTerms.{input_term};
ghost use Rattle.word_terms.specs.View.{tree_of};
ghost use Rattle.generated_goals.specs.Generated as specs;

use goal_meaning::{FREE_REGISTERS, Goal, Input, InputReg, Set};
use items::{Items, NoMemory};
use machine_table::ev6;
use std::alloc::Global;
use text_core::Name;
use word_ops::{Op, Operate, WordOp};
use word_terms::{Term, application};

/// The register of the input `a`.
const A: u8 = 9;
/// The register of the input `b`.
const B: u8 = 10;

/// The next number of the sequence.
fn next_number(number: u32) -> u32
    requires { number < 256 }
    ensures value { result ≡ specs.next_number number }
    ensures below { result < 256 }
{
    (13 * number + 7) % 256
}

/// The operate that a number picks.
fn picked(number: u32) -> Operate
    ensures { result ≡ specs.picked number }
{
    match number % 5 {
        0 => Operate::Addq,
        1 => Operate::Subq,
        2 => Operate::Xor,
        3 => Operate::Bis,
        _ => Operate::S4addq,
    }
}

/// The word of a register at entry.
fn input(alloc: Global, register: u8) -> Term<Op>
    ensures { tree_of result ≡ input_term register }
{
    application(Op::Input(register), Vec::new(alloc))
}

/// `( OP term b )`
fn applied(alloc: Global, op: Operate, term: Term<Op>) -> Result<Term<Op>, NoMemory>
    ensures { IfOk result (λ t. tree_of t ≡ specs.applied op (tree_of term)) }
{
    let operands = vec![in alloc; term, input(alloc, B)]?;
    Ok(application(Op::Word(WordOp::Operate(op)), operands))
}

/// `a` with `size` operates applied.
fn chain(alloc: Global, size: u32) -> Result<Term<Op>, NoMemory>
    requires { size < 256 }
    ensures { IfOk result (λ t. tree_of t ≡ specs.chain size size) }
{
    let mut number = size;
    let mut term = input(alloc, A);
    for _step in 0..size {
        number = next_number(number);
        term = applied(alloc, picked(number), term)?;
    }
    Ok(term)
}

fn input_in(alloc: Global, name: &[u8], register: u8) -> Result<InputReg, NoMemory>
    ensures { IfOk result (λ i. i ≡ specs.named_input name.now register) }
{
    Ok(InputReg {
        name: Name::new(alloc, name)?,
        reg: register,
    })
}

/// The inputs `a` and `b`.
fn inputs(alloc: Global) -> Result<Vec<InputReg>, NoMemory>
    ensures { IfOk result (λ is. is.items ≡ (specs.generated_goal 0).inputs) }
{
    let a = input_in(alloc, b"a", A)?;
    let b = input_in(alloc, b"b", B)?;
    Ok(vec![in alloc; a, b]?)
}

/// The target `x`.
fn target(alloc: Global, size: u32) -> Result<Set, NoMemory>
    requires { size < 256 }
    ensures { IfOk result (λ s. (target_view s ∷ []) ≡ (specs.generated_goal size).sets) }
{
    Ok(Set {
        name: Name::new(alloc, b"x")?,
        value: chain(alloc, size)?,
        pin: None,
    })
}

fn pool(alloc: Global) -> Result<Items<u8>, NoMemory>
    ensures { IfOk result (λ pool. pool ≡ default_pool specs.registers) }
{
    Items::from_slice(alloc, &FREE_REGISTERS)
}

fn goal(alloc: Global, size: u32) -> Result<Goal, NoMemory>
    requires { size < 256 }
    ensures { IfOk result (λ g. goal_view g ≡ specs.generated_goal size) }
{
    Ok(Goal {
        name: Name::new(alloc, b"gen")?,
        inputs: Items::from(inputs(alloc)?),
        pool: pool(alloc)?,
        lets: Items::new(alloc),
        assumes: Items::new(alloc),
        guard: None,
        sets: Items::from(vec![in alloc; target(alloc, size)?]?),
    })
}

/// The input with one goal, which sets `x` to a chain of `size` operates, 1 to 20.
pub fn generated(alloc: Global, size: u32) -> Result<Input, NoMemory>
    requires { (1 ≤ size) × (size ≤ 20) }
    ensures { IfOk result (λ input. input_view input ≡ specs.generated_input size) }
{
    Ok(Input {
        table: ev6(alloc)?,
        builtin: true,
        ops: Items::new(alloc),
        axioms: Items::new(alloc),
        goals: Items::from(vec![in alloc; goal(alloc, size)?]?),
    })
}
