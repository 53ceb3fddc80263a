// Two bytes at any address.
ghost use Rattle.std.specs.Prelude.{◌≡◌, IfOk};
ghost use Rattle.word_terms.specs.Tree.{variable as variable_at};
ghost use Rattle.word_terms.specs.View.{tree_of};
ghost use Rattle.axiom_library.specs.Unaligned as rows;

use axiom_base::Rule;
use items::NoMemory;
use std::alloc::Global;
use word_ops::{Access, Op, Operate, Sort};
use word_terms::{Term, constant, operate_2, read, select, store, variable, written};

/// The address of the byte behind that of variable 1.
fn next(alloc: Global) -> Result<Term<Op>, NoMemory>
    ensures { IfOk result (λ t. tree_of t ≡ rows.next (variable_at 1)) }
{
    operate_2(alloc, Operate::Addq, variable(1), constant(alloc, 1))
}

fn taken_from_words(alloc: Global) -> Result<Term<Op>, NoMemory>
    ensures { IfOk result (λ t. tree_of t ≡ rows.taken_from_words (variable_at 0) (variable_at 1)) }
{
    let first = select(alloc, variable(0), variable(1))?;
    let second = select(alloc, variable(0), next(alloc)?)?;
    let low = operate_2(alloc, Operate::Extwl, first, variable(1))?;
    let high = operate_2(alloc, Operate::Extwh, second, variable(1))?;
    operate_2(alloc, Operate::Bis, low, high)
}

fn taken_by_bytes(alloc: Global) -> Result<Term<Op>, NoMemory>
    ensures { IfOk result (λ t. tree_of t ≡ rows.taken_by_bytes (variable_at 0) (variable_at 1)) }
{
    let low = read(alloc, Access::Byte, variable(0), variable(1))?;
    let high = read(alloc, Access::Byte, variable(0), next(alloc)?)?;
    let shifted = operate_2(alloc, Operate::Sll, high, constant(alloc, 8))?;
    operate_2(alloc, Operate::Bis, low, shifted)
}

fn with_high(alloc: Global) -> Result<Term<Op>, NoMemory>
    ensures { IfOk result (λ t. tree_of t ≡ rows.with_high (variable_at 0) (variable_at 1) (variable_at 2)) }
{
    let word = select(alloc, variable(0), next(alloc)?)?;
    let masked = operate_2(alloc, Operate::Mskwh, word, variable(1))?;
    let inserted = operate_2(alloc, Operate::Inswh, variable(2), variable(1))?;
    operate_2(alloc, Operate::Bis, masked, inserted)
}

fn with_low(alloc: Global) -> Result<Term<Op>, NoMemory>
    ensures { IfOk result (λ t. tree_of t ≡ rows.with_low (variable_at 0) (variable_at 1) (variable_at 2)) }
{
    let word = select(alloc, variable(0), variable(1))?;
    let masked = operate_2(alloc, Operate::Mskwl, word, variable(1))?;
    let inserted = operate_2(alloc, Operate::Inswl, variable(2), variable(1))?;
    operate_2(alloc, Operate::Bis, masked, inserted)
}

fn put_into_words(alloc: Global) -> Result<Term<Op>, NoMemory>
    ensures { IfOk result (λ t. tree_of t ≡ rows.put_into_words (variable_at 0) (variable_at 1) (variable_at 2)) }
{
    let first = store(alloc, variable(0), next(alloc)?, with_high(alloc)?)?;
    store(alloc, first, variable(1), with_low(alloc)?)
}

fn put_by_bytes(alloc: Global) -> Result<Term<Op>, NoMemory>
    ensures { IfOk result (λ t. tree_of t ≡ rows.put_by_bytes (variable_at 0) (variable_at 1) (variable_at 2)) }
{
    let first = written(alloc, Access::Byte, variable(0), variable(1), variable(2))?;
    let high = operate_2(alloc, Operate::Srl, variable(2), constant(alloc, 8))?;
    written(alloc, Access::Byte, first, next(alloc)?, high)
}

fn unaligned_load(alloc: Global) -> Result<Rule, NoMemory>
    ensures { IfOk result (λ rule. rule ≡ rows.unaligned_load) }
{
    let left = taken_from_words(alloc)?;
    let right = taken_by_bytes(alloc)?;
    Rule::over(alloc, &[Sort::Memory, Sort::Word], left, right)
}

fn unaligned_store(alloc: Global) -> Result<Rule, NoMemory>
    ensures { IfOk result (λ rule. rule ≡ rows.unaligned_store) }
{
    let left = put_into_words(alloc)?;
    let right = put_by_bytes(alloc)?;
    Rule::over(alloc, &[Sort::Memory, Sort::Word, Sort::Word], left, right)
}

pub(crate) fn unaligned(alloc: Global) -> Result<Vec<Rule>, NoMemory>
    ensures { IfOk result (λ rules. rules.items ≡ rows.unaligned_equations) }
{
    let mut rules = Vec::new(alloc);
    rules.push(unaligned_load(alloc)?)?;
    rules.push(unaligned_store(alloc)?)?;
    Ok(rules)
}
