// The table of the equations, row by row.
ghost use Rattle.std.specs.Prelude.{◌≡◌, ℕ, List, All, IfOk, OnOk};
ghost use Rattle.word_ops.specs.Worlds.{World};
ghost use Rattle.axiom_base.specs.Rewrites.{IsRule, IsTrueIn};
ghost use Rattle.axiom_base.specs.Equations as rows;

use crate::narrow::{bytes_loaded, bytes_stored, narrow_load, narrow_store};
use crate::rule::Rule;
use crate::shapes::{
    absorbing, associative, by_inverse, cancelling, commutative, from_zero, idempotent, involutive,
    neutral, of_inverse, scaled, sign_extended,
};
use crate::stores::{read_back, read_displaced, stored_again, stored_byte, stored_displaced};
use items::{Items, NoMemory};
use std::alloc::Global;
use word_ops::{
    Access, Operate, Sort, WordOp, meanings_are_in_range, memories_hold_words, words_have_bits,
};
use word_terms::{constant, operate_2, two, variable};

/// The 66 equations, in the order of the table. Where the left side stands, the right side equals it.
pub fn equations(alloc: Global) -> Result<Items<Rule>, NoMemory>
    ensures rows { IfOk result (λ rules. rules ≡ rows.equations) }
    ensures true_rows { OnOk result ((world : World) (names : ℕ → List ℕ) →
        All (IsTrueIn world names) rows.equations) }
{
    equations_are_true();
    let mut rules = additions(alloc)?;
    rules.append(&mut differences(alloc)?)?;
    rules.append(&mut multiplications(alloc)?)?;
    rules.append(&mut shifts(alloc)?)?;
    rules.append(&mut scaled_sums(alloc)?)?;
    rules.append(&mut ands(alloc)?)?;
    rules.append(&mut ors(alloc)?)?;
    rules.append(&mut exclusive_ors(alloc)?)?;
    rules.append(&mut inversions(alloc)?)?;
    rules.append(&mut comparisons(alloc)?)?;
    rules.append(&mut bytes(alloc)?)?;
    rules.append(&mut memories(alloc)?)?;
    rules.append(&mut narrow_loads(alloc)?)?;
    rules.append(&mut narrow_stores(alloc)?)?;
    rules.append(&mut narrow_displaced(alloc)?)?;
    Ok(Items::from(rules))
}

/// Does nothing. Its clauses are laws: each equation is a rule, and is true in every world.
pub fn equations_are_true()
    ensures rules { All IsRule rows.equations }
    ensures true_rows { (world : World) (names : ℕ → List ℕ) → All (IsTrueIn world names) rows.equations }
{
    meanings_are_in_range();
    memories_hold_words();
    words_have_bits();
}

fn additions(alloc: Global) -> Result<Vec<Rule>, NoMemory>
    ensures { IfOk result (λ rules. rules.items ≡ rows.additions) }
{
    let mut rules = Vec::new(alloc);
    rules.push(commutative(alloc, Operate::Addq)?)?;
    rules.push(associative(alloc, Operate::Addq)?)?;
    rules.push(neutral(alloc, Operate::Addq, 0)?)?;
    Ok(rules)
}

fn differences(alloc: Global) -> Result<Vec<Rule>, NoMemory>
    ensures { IfOk result (λ rules. rules.items ≡ rows.differences) }
{
    let mut rules = Vec::new(alloc);
    rules.push(by_inverse(alloc, Operate::Subq, Operate::Addq, WordOp::Neg)?)?;
    rules.push(of_inverse(alloc, Operate::Addq, WordOp::Neg, Operate::Subq)?)?;
    rules.push(from_zero(alloc, WordOp::Neg, Operate::Subq)?)?;
    rules.push(cancelling(alloc, Operate::Subq)?)?;
    rules.push(neutral(alloc, Operate::Subq, 0)?)?;
    rules.push(involutive(alloc, WordOp::Neg)?)?;
    Ok(rules)
}

fn multiplications(alloc: Global) -> Result<Vec<Rule>, NoMemory>
    ensures { IfOk result (λ rules. rules.items ≡ rows.multiplications) }
{
    let mut rules = Vec::new(alloc);
    rules.push(commutative(alloc, Operate::Mulq)?)?;
    rules.push(associative(alloc, Operate::Mulq)?)?;
    rules.push(neutral(alloc, Operate::Mulq, 1)?)?;
    rules.push(absorbing(alloc, Operate::Mulq, 0)?)?;
    rules.push(commutative(alloc, Operate::Umulh)?)?;
    Ok(rules)
}

fn shifts(alloc: Global) -> Result<Vec<Rule>, NoMemory>
    ensures { IfOk result (λ rules. rules.items ≡ rows.shifts) }
{
    let mut rules = Vec::new(alloc);
    let sum = operate_2(alloc, Operate::Addq, variable(0), variable(0))?;
    let shifted = operate_2(alloc, Operate::Sll, variable(0), constant(alloc, 1))?;
    rules.push(Rule::over(alloc, &[Sort::Word], sum, shifted)?)?;
    let shifted = operate_2(alloc, Operate::Sll, variable(0), constant(alloc, 1))?;
    let sum = operate_2(alloc, Operate::Addq, variable(0), variable(0))?;
    rules.push(Rule::over(alloc, &[Sort::Word], shifted, sum)?)?;
    rules.push(neutral(alloc, Operate::Sll, 0)?)?;
    rules.push(neutral(alloc, Operate::Srl, 0)?)?;
    Ok(rules)
}

fn scaled_sums(alloc: Global) -> Result<Vec<Rule>, NoMemory>
    ensures { IfOk result (λ rules. rules.items ≡ rows.scaled_sums) }
{
    let mut rules = Vec::new(alloc);
    rules.push(scaled(alloc, Operate::Addq, 2, Operate::S4addq)?)?;
    rules.push(scaled(alloc, Operate::Addq, 3, Operate::S8addq)?)?;
    rules.push(scaled(alloc, Operate::Subq, 2, Operate::S4subq)?)?;
    rules.push(scaled(alloc, Operate::Subq, 3, Operate::S8subq)?)?;
    Ok(rules)
}

fn ands(alloc: Global) -> Result<Vec<Rule>, NoMemory>
    ensures { IfOk result (λ rules. rules.items ≡ rows.ands) }
{
    let mut rules = Vec::new(alloc);
    rules.push(commutative(alloc, Operate::And)?)?;
    rules.push(associative(alloc, Operate::And)?)?;
    rules.push(idempotent(alloc, Operate::And)?)?;
    rules.push(absorbing(alloc, Operate::And, 0)?)?;
    Ok(rules)
}

fn ors(alloc: Global) -> Result<Vec<Rule>, NoMemory>
    ensures { IfOk result (λ rules. rules.items ≡ rows.ors) }
{
    let mut rules = Vec::new(alloc);
    rules.push(commutative(alloc, Operate::Bis)?)?;
    rules.push(associative(alloc, Operate::Bis)?)?;
    rules.push(idempotent(alloc, Operate::Bis)?)?;
    rules.push(neutral(alloc, Operate::Bis, 0)?)?;
    Ok(rules)
}

fn exclusive_ors(alloc: Global) -> Result<Vec<Rule>, NoMemory>
    ensures { IfOk result (λ rules. rules.items ≡ rows.exclusive_ors) }
{
    let mut rules = Vec::new(alloc);
    rules.push(commutative(alloc, Operate::Xor)?)?;
    rules.push(associative(alloc, Operate::Xor)?)?;
    rules.push(cancelling(alloc, Operate::Xor)?)?;
    rules.push(neutral(alloc, Operate::Xor, 0)?)?;
    Ok(rules)
}

fn inversions(alloc: Global) -> Result<Vec<Rule>, NoMemory>
    ensures { IfOk result (λ rules. rules.items ≡ rows.inversions) }
{
    let mut rules = Vec::new(alloc);
    rules.push(from_zero(alloc, WordOp::Not, Operate::Ornot)?)?;
    rules.push(involutive(alloc, WordOp::Not)?)?;
    rules.push(of_inverse(alloc, Operate::And, WordOp::Not, Operate::Bic)?)?;
    rules.push(of_inverse(alloc, Operate::Bis, WordOp::Not, Operate::Ornot)?)?;
    rules.push(of_inverse(alloc, Operate::Xor, WordOp::Not, Operate::Eqv)?)?;
    Ok(rules)
}

fn comparisons(alloc: Global) -> Result<Vec<Rule>, NoMemory>
    ensures { IfOk result (λ rules. rules.items ≡ rows.comparisons) }
{
    let mut rules = Vec::new(alloc);
    rules.push(commutative(alloc, Operate::Cmpeq)?)?;
    Ok(rules)
}

fn bytes(alloc: Global) -> Result<Vec<Rule>, NoMemory>
    ensures { IfOk result (λ rules. rules.items ≡ rows.bytes) }
{
    let mut rules = Vec::new(alloc);
    let selected = two(alloc, WordOp::Selectb, variable(0), variable(1))?;
    let extracted = operate_2(alloc, Operate::Extbl, variable(0), variable(1))?;
    rules.push(Rule::over(alloc, &[Sort::Word, Sort::Word], selected, extracted)?)?;
    rules.push(stored_byte(alloc)?)?;
    rules.push(sign_extended(alloc, 56, Operate::Sextb)?)?;
    rules.push(sign_extended(alloc, 48, Operate::Sextw)?)?;
    Ok(rules)
}

fn memories(alloc: Global) -> Result<Vec<Rule>, NoMemory>
    ensures { IfOk result (λ rules. rules.items ≡ rows.memories) }
{
    let mut rules = Vec::new(alloc);
    rules.push(read_back(alloc)?)?;
    rules.push(stored_again(alloc)?)?;
    rules.push(read_displaced(alloc, Access::Quad)?)?;
    rules.push(stored_displaced(alloc, Access::Quad)?)?;
    Ok(rules)
}

fn narrow_loads(alloc: Global) -> Result<Vec<Rule>, NoMemory>
    ensures { IfOk result (λ rules. rules.items ≡ rows.narrow_loads) }
{
    let mut rules = Vec::new(alloc);
    rules.push(narrow_load(alloc, Access::Byte)?)?;
    rules.push(bytes_loaded(alloc, Access::Byte)?)?;
    rules.push(narrow_load(alloc, Access::Word)?)?;
    rules.push(bytes_loaded(alloc, Access::Word)?)?;
    rules.push(narrow_load(alloc, Access::Long)?)?;
    rules.push(bytes_loaded(alloc, Access::Long)?)?;
    Ok(rules)
}

fn narrow_stores(alloc: Global) -> Result<Vec<Rule>, NoMemory>
    ensures { IfOk result (λ rules. rules.items ≡ rows.narrow_stores) }
{
    let mut rules = Vec::new(alloc);
    rules.push(narrow_store(alloc, Access::Byte)?)?;
    rules.push(bytes_stored(alloc, Access::Byte)?)?;
    rules.push(narrow_store(alloc, Access::Word)?)?;
    rules.push(bytes_stored(alloc, Access::Word)?)?;
    rules.push(narrow_store(alloc, Access::Long)?)?;
    rules.push(bytes_stored(alloc, Access::Long)?)?;
    Ok(rules)
}

fn narrow_displaced(alloc: Global) -> Result<Vec<Rule>, NoMemory>
    ensures { IfOk result (λ rules. rules.items ≡ rows.narrow_displaced) }
{
    let mut rules = Vec::new(alloc);
    rules.push(read_displaced(alloc, Access::Byte)?)?;
    rules.push(read_displaced(alloc, Access::Word)?)?;
    rules.push(read_displaced(alloc, Access::Long)?)?;
    rules.push(stored_displaced(alloc, Access::Byte)?)?;
    rules.push(stored_displaced(alloc, Access::Word)?)?;
    rules.push(stored_displaced(alloc, Access::Long)?)?;
    Ok(rules)
}
