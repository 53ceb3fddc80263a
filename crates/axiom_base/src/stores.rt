// The equations of bytes in words and of words in memories.
ghost use Rattle.std.specs.Prelude.{◌≡◌, IfOk};
ghost use Rattle.word_terms.specs.Building as trees;
ghost use Rattle.word_terms.specs.Building.{w2, w3, o2};
ghost use Rattle.axiom_base.specs.Equations.{words_3, memory_2, memory_3};
ghost use Rattle.word_ops.specs.declared.operates.Operate.TheVariants.{Bis, Mskbl, Insbl};
ghost use Rattle.word_ops.specs.declared.operators.WordOp.TheVariants.{Storeb, Lda};

use crate::rule::Rule;
use items::NoMemory;
use std::alloc::Global;
use word_ops::{Access, Operate, Sort, WordOp};
use word_terms::{
    displaced_read, displaced_written, operate_2, read, select, store, three, two, variable,
    written,
};

/// A byte put into a word: the word without that byte, joined with the byte in its place.
pub(crate) fn stored_byte(alloc: Global) -> Result<Rule, NoMemory>
    ensures { IfOk result (λ rule. rule ≡
        words_3 (λ x y z. (w3 Storeb x y z, o2 Bis (o2 Mskbl x y) (o2 Insbl z y)))) }
{
    let left = three(alloc, WordOp::Storeb, variable(0), variable(1), variable(2))?;
    let masked = operate_2(alloc, Operate::Mskbl, variable(0), variable(1))?;
    let inserted = operate_2(alloc, Operate::Insbl, variable(2), variable(1))?;
    let right = operate_2(alloc, Operate::Bis, masked, inserted)?;
    Rule::over(alloc, &[Sort::Word, Sort::Word, Sort::Word], left, right)
}

/// What was stored at an address is read there.
pub(crate) fn read_back(alloc: Global) -> Result<Rule, NoMemory>
    ensures { IfOk result (λ rule. rule ≡ memory_2 (λ m a v. (trees.select_of (trees.store_of m a v) a, v))) }
{
    let stored = store(alloc, variable(0), variable(1), variable(2))?;
    let left = select(alloc, stored, variable(1))?;
    let right = variable(2);
    Rule::over(alloc, &[Sort::Memory, Sort::Word, Sort::Word], left, right)
}

/// The second of two stores at an address stands.
pub(crate) fn stored_again(alloc: Global) -> Result<Rule, NoMemory>
    ensures { IfOk result (λ rule. rule ≡
        memory_3 (λ m a v w. (trees.store_of (trees.store_of m a v) a w, trees.store_of m a w))) }
{
    let stored = store(alloc, variable(0), variable(1), variable(2))?;
    let left = store(alloc, stored, variable(1), variable(3))?;
    let right = store(alloc, variable(0), variable(1), variable(3))?;
    Rule::over(
        alloc,
        &[Sort::Memory, Sort::Word, Sort::Word, Sort::Word],
        left,
        right,
    )
}

/// A read at a base and a displacement.
pub(crate) fn read_displaced(alloc: Global, access: Access) -> Result<Rule, NoMemory>
    ensures { IfOk result (λ rule. rule ≡ memory_2 (λ m x k.
        (trees.read_of access m (w2 Lda x k), trees.displaced_read_of access m x k))) }
{
    let address = two(alloc, WordOp::Lda, variable(1), variable(2))?;
    let left = read(alloc, access, variable(0), address)?;
    let right = displaced_read(alloc, access, variable(0), variable(1), variable(2))?;
    Rule::over(alloc, &[Sort::Memory, Sort::Word, Sort::Word], left, right)
}

/// A store at a base and a displacement.
pub(crate) fn stored_displaced(alloc: Global, access: Access) -> Result<Rule, NoMemory>
    ensures { IfOk result (λ rule. rule ≡ memory_3 (λ m x k v.
        (trees.written_of access m (w2 Lda x k) v, trees.displaced_written_of access m x k v))) }
{
    let address = two(alloc, WordOp::Lda, variable(1), variable(2))?;
    let left = written(alloc, access, variable(0), address, variable(3))?;
    let right = displaced_written(
        alloc,
        access,
        variable(0),
        variable(1),
        variable(2),
        variable(3),
    )?;
    Rule::over(
        alloc,
        &[Sort::Memory, Sort::Word, Sort::Word, Sort::Word],
        left,
        right,
    )
}
