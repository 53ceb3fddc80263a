// The equations of loads and stores that are narrower than a word, in terms of the word at their address.
ghost use Rattle.std.specs.Prelude.{◌≡◌, IfOk};
ghost use Rattle.word_terms.specs.Tree as tree;
ghost use Rattle.word_terms.specs.Building as trees;
ghost use Rattle.word_terms.specs.View.{tree_of};
ghost use Rattle.axiom_base.specs.Equations as rows;
ghost use Rattle.axiom_base.specs.Equations.{memory_1, memory_2};

use crate::rule::Rule;
use items::NoMemory;
use std::alloc::Global;
use word_ops::{Access, Op, Operate, Sort};
use word_terms::{Term, constant, operate_2, read, select, store, variable, written};

/// What an access reads is bytes of the word.
#[tactic(auto, using(crate::proofs::NarrowRules::load_is_rule))]
pub(crate) fn narrow_load(alloc: Global, access: Access) -> Result<Rule, NoMemory>
    ensures { IfOk result (λ rule. rule ≡ memory_1 (λ m a. (trees.read_of access m a, rows.extracted access m a))) }
{
    let left = read(alloc, access, variable(0), variable(1))?;
    let right = extracted(alloc, access)?;
    Rule::over(alloc, &[Sort::Memory, Sort::Word], left, right)
}

/// `narrow_load` from right to left.
#[tactic(auto, using(crate::proofs::NarrowRules::bytes_are_rule))]
pub(crate) fn bytes_loaded(alloc: Global, access: Access) -> Result<Rule, NoMemory>
    ensures { IfOk result (λ rule. rule ≡ memory_1 (λ m a. (rows.extracted access m a, trees.read_of access m a))) }
{
    let left = extracted(alloc, access)?;
    let right = read(alloc, access, variable(0), variable(1))?;
    Rule::over(alloc, &[Sort::Memory, Sort::Word], left, right)
}

/// What an access writes is put into the word.
#[tactic(auto, using(crate::proofs::NarrowRules::store_is_rule))]
pub(crate) fn narrow_store(alloc: Global, access: Access) -> Result<Rule, NoMemory>
    ensures { IfOk result (λ rule. rule ≡ memory_2 (λ m a v.
        (trees.written_of access m a v, trees.store_of m a (rows.inserted access m a v)))) }
{
    let left = written(alloc, access, variable(0), variable(1), variable(2))?;
    let right = store(alloc, variable(0), variable(1), inserted(alloc, access)?)?;
    Rule::over(alloc, &[Sort::Memory, Sort::Word, Sort::Word], left, right)
}

/// `narrow_store` from right to left.
#[tactic(auto, using(crate::proofs::NarrowRules::put_is_rule))]
pub(crate) fn bytes_stored(alloc: Global, access: Access) -> Result<Rule, NoMemory>
    ensures { IfOk result (λ rule. rule ≡ memory_2 (λ m a v.
        (trees.store_of m a (rows.inserted access m a v), trees.written_of access m a v))) }
{
    let left = store(alloc, variable(0), variable(1), inserted(alloc, access)?)?;
    let right = written(alloc, access, variable(0), variable(1), variable(2))?;
    Rule::over(alloc, &[Sort::Memory, Sort::Word, Sort::Word], left, right)
}

// What the access reads, out of the word.
fn extracted(alloc: Global, access: Access) -> Result<Term<Op>, NoMemory>
    ensures { IfOk result (λ t. tree_of t ≡ rows.extracted access (tree.variable 0) (tree.variable 1)) }
{
    let word = select(alloc, variable(0), variable(1))?;
    match access {
        Access::Quad => Ok(word),
        Access::Byte => operate_2(alloc, Operate::Extbl, word, variable(1)),
        Access::Word => operate_2(alloc, Operate::Extwl, word, variable(1)),
        Access::Long => {
            let bytes = operate_2(alloc, Operate::Extll, word, variable(1))?;
            operate_2(alloc, Operate::Addl, bytes, constant(alloc, 0))
        }
    }
}

// The word once the access wrote into it.
fn inserted(alloc: Global, access: Access) -> Result<Term<Op>, NoMemory>
    ensures { IfOk result (λ t. tree_of t ≡
        rows.inserted access (tree.variable 0) (tree.variable 1) (tree.variable 2)) }
{
    match access {
        Access::Quad => Ok(variable(2)),
        Access::Byte => joined(alloc, Operate::Mskbl, Operate::Insbl),
        Access::Word => joined(alloc, Operate::Mskwl, Operate::Inswl),
        Access::Long => joined(alloc, Operate::Mskll, Operate::Insll),
    }
}

fn joined(alloc: Global, mask: Operate, insert: Operate) -> Result<Term<Op>, NoMemory>
    ensures { IfOk result (λ t. tree_of t ≡
        rows.joined mask insert (tree.variable 0) (tree.variable 1) (tree.variable 2)) }
{
    let word = select(alloc, variable(0), variable(1))?;
    let masked = operate_2(alloc, mask, word, variable(1))?;
    let inserted = operate_2(alloc, insert, variable(2), variable(1))?;
    operate_2(alloc, Operate::Bis, masked, inserted)
}
