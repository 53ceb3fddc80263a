// The goals of lifts.
ghost use Rattle.std.specs.Prelude.{◌≡◌, ◌<◌, All, IfOk, codes, map, unwrap_or};
ghost use Rattle.code_lift.specs.Goals.{input_of_lifts};
ghost use Rattle.code_lift.specs.Lifted as terms;
ghost use Rattle.code_lift.specs.LiftingView.{lifting_view};
ghost use Rattle.code_lift.specs.Views.{lift_view, lifts_view};
ghost use Rattle.code_lift.specs.WellFormed.{AreLifts, IsLift};
ghost use Rattle.goal_meaning.specs.Views.{assume_view, goal_view, input_view, target_view};
ghost use Rattle.goal_meaning.specs.WellFormed.{IsInput};
ghost use Rattle.proc_goal.specs.Goals.{sets_or_memory};
ghost use Rattle.word_terms.specs.View.{tree_of};

use crate::laws::goals_of_lifts_are_well_formed;
use crate::lifting::{Address, Lifting, lifted, numbered};
use crate::lifts::{Lift, Lifts};
use crate::terms::{sum_term, value_term};
use goal_meaning::{Assume, Goal, Input, InputReg, Set};
use items::{Items, NoMemory};
use std::alloc::Global;
use text_core::Name;
use word_ops::{Op, Operate};
use word_terms::{Term, application, constant, operate_2, variable};

/// The low bits of the address are 0.
fn assume(alloc: Global, address: Address) -> Result<Assume, NoMemory>
    requires { address.power < 4 }
    ensures { IfOk result (λ a. assume_view a ≡ terms.assume_of address) }
{
    let base = value_term(alloc, address.value);
    let place = sum_term(alloc, base, address.displacement)?;
    let mask = constant(alloc, (1 << address.power) - 1);
    let left = operate_2(alloc, Operate::And, place, mask)?;
    let right = constant(alloc, 0);
    Ok(Assume { left, right })
}

fn assumes(alloc: Global, addresses: &[Address]) -> Result<Items<Assume>, NoMemory>
    requires { All (λ a. a.power < 4) addresses.now }
    ensures { IfOk result (λ assumes. map assume_view assumes ≡ map terms.assume_of addresses.now) }
{
    let mut assumes = Items::new(alloc);
    for address in addresses {
        assumes.push(assume(alloc, *address)?)?;
    }
    Ok(assumes)
}

fn input(alloc: Global, register: u8) -> Result<InputReg, NoMemory>
    ensures { IfOk result (λ i. i ≡ terms.input_named register) }
{
    let name = numbered(alloc, b'r', u64::from(register))?;
    Ok(InputReg {
        name,
        reg: register,
    })
}

fn register_set(alloc: Global, lifting: &Lifting, register: u8) -> Result<Set, NoMemory>
    requires { register < 32 }
    ensures { IfOk result (λ s. target_view s ≡ terms.register_set (lifting_view lifting.now) register) }
{
    let name = numbered(alloc, b'r', u64::from(register))?;
    let value = value_term(alloc, lifting.value(register));
    let pin = Some(register);
    Ok(Set { name, value, pin })
}

fn memory_set(alloc: Global, memory: Term<Op>) -> Result<Set, NoMemory>
    ensures { IfOk result (λ s. target_view s ≡ record { name = codes "M"; value = tree_of memory; pin = None }) }
{
    let name = Name::new(alloc, b"M")?;
    let pin = None;
    Ok(Set {
        name,
        value: memory,
        pin,
    })
}

/// The set of the memory, where a word wrote it.
fn memory_sets(alloc: Global, memory: Option<u32>) -> Result<Items<Set>, NoMemory>
    ensures { IfOk result (λ sets. map target_view sets ≡ terms.memory_sets memory) }
{
    let mut sets = Items::new(alloc);
    if let Some(at) = memory {
        sets.push(memory_set(alloc, variable(at))?)?;
    }
    Ok(sets)
}

/// The memory where a word wrote it, and the registers of `out` that the words write.
fn sets_written(alloc: Global, lifting: &Lifting, out: &[u8]) -> Result<Items<Set>, NoMemory>
    requires { All (λ r. r < 31) out.now }
    ensures { IfOk result (λ sets. map target_view sets ≡ terms.sets_of (lifting_view lifting.now) out.now) }
{
    let mut sets = memory_sets(alloc, lifting.memory)?;
    for register in out {
        if lifting.has_let(*register) {
            sets.push(register_set(alloc, lifting, *register)?)?;
        }
    }
    Ok(sets)
}

/// The same, and the memory as it is where there is neither.
fn sets(alloc: Global, lifting: &Lifting, out: &[u8]) -> Result<Items<Set>, NoMemory>
    requires { All (λ r. r < 31) out.now }
    ensures { IfOk result (λ sets. map target_view sets
        ≡ sets_or_memory (terms.sets_of (lifting_view lifting.now) out.now)) }
{
    let mut sets = sets_written(alloc, lifting, out)?;
    if sets.is_empty() {
        sets.push(memory_set(alloc, application(Op::Entry, Vec::new(alloc)))?)?;
    }
    Ok(sets)
}

/// Whether the words write the register, and it is neither an input nor in `out`.
fn is_spare(lifting: &Lifting, out: &[u8], register: u8) -> bool
    requires { register < 32 }
    ensures { result ≡ terms.is_spare (lifting_view lifting.now) out.now register }
{
    let is_free = !lifting.is_input(register) && !out.contains(&register);
    lifting.has_let(register) && is_free
}

/// The registers that the words write, and that are neither inputs nor in `out`.
fn spare_registers(alloc: Global, lifting: &Lifting, out: &[u8]) -> Result<Items<u8>, NoMemory>
    ensures { IfOk result (λ spare. spare ≡ terms.spare_registers (lifting_view lifting.now) out.now) }
{
    let mut spare = Items::new(alloc);
    for register in 0..31u8 {
        if is_spare(lifting, out, register) {
            spare.push(register)?;
        }
    }
    Ok(spare)
}

fn inputs(alloc: Global, lifting: &Lifting) -> Result<Items<InputReg>, NoMemory>
    ensures { IfOk result (λ inputs. inputs ≡ map terms.input_named (terms.inputs_read (lifting_view lifting.now))) }
{
    let mut inputs = Items::new(alloc);
    for register in 0..31u8 {
        if lifting.is_input(register) {
            inputs.push(input(alloc, register)?)?;
        }
    }
    Ok(inputs)
}

/// The pool that is given, or the spare registers.
fn pool(alloc: Global, lift: &Lift, lifting: &Lifting) -> Result<Items<u8>, NoMemory>
    ensures { IfOk result (λ pool. pool
        ≡ unwrap_or lift.now.pool (terms.spare_registers (lifting_view lifting.now) lift.now.out)) }
{
    match &lift.pool {
        Some(pool) => Items::from_slice(alloc, pool.as_slice()),
        None => spare_registers(alloc, lifting, lift.out.as_slice()),
    }
}

/// The goal of a lift.
pub fn goal(alloc: Global, lift: &Lift) -> Result<Goal, NoMemory>
    requires { IsLift (lift_view lift.now) }
    ensures { IfOk result (λ g. goal_view g ≡ terms.goal_of_lift (lift_view lift.now)) }
{
    let lifting = lifted(alloc, lift.words.as_slice())?;
    let name = lift.name.copy()?;
    let inputs = inputs(alloc, &lifting)?;
    let pool = pool(alloc, lift, &lifting)?;
    let assumes = assumes(alloc, &lifting.addresses)?;
    let sets = sets(alloc, &lifting, lift.out.as_slice())?;
    let lets = Items::from(lifting.lets);
    let guard = None;
    Ok(Goal {
        name,
        inputs,
        pool,
        lets,
        assumes,
        guard,
        sets,
    })
}

fn all_goals(alloc: Global, lifts: &[Lift]) -> Result<Items<Goal>, NoMemory>
    requires { All (λ l. IsLift (lift_view l)) lifts.now }
    ensures { IfOk result (λ goals. map goal_view goals ≡ map terms.goal_of_lift (map lift_view lifts.now)) }
{
    let mut goals = Items::new(alloc);
    for lift in lifts {
        goals.push(goal(alloc, lift)?)?;
    }
    Ok(goals)
}

/// The goals of lifts, one for each: a let for each word that writes, an assumption for each address on which a word
/// may trap, and the memory and the registers that count as targets. A call costs some steps for each word.
pub fn goals(alloc: Global, lifts: Lifts) -> Result<Input, NoMemory>
    requires { AreLifts (lifts_view lifts) }
    ensures input { IfOk result (λ input. input_view input ≡ input_of_lifts (lifts_view lifts)) }
    ensures well_formed { IfOk result (λ input. IsInput (input_view input)) }
{
    goals_of_lifts_are_well_formed();
    let Lifts {
        table,
        builtin,
        lifts,
    } = lifts;
    let goals = all_goals(alloc, lifts.as_slice())?;
    let ops = Items::new(alloc);
    let axioms = Items::new(alloc);
    Ok(Input {
        table,
        builtin,
        ops,
        axioms,
        goals,
    })
}
