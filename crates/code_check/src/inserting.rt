// The terms of words, inserted into the graph of a goal's start. A class is kept for each register that was written, so a
// word costs few rows however large its term is.
ghost use Rattle.std.specs.Prelude.{◌≡◌, ℕ, ◌+◌, ◌<◌, ◌≤◌, ◌^◌, [], length, map, List, ◌*◌, Some, IfOk, OnOk};
ghost use Rattle.word_ops.specs.Meanings.{arity_of_op, operand_sort};
ghost use Rattle.word_ops.specs.declared.sorts.Sort.TheVariants as sorts;
ghost use Rattle.word_terms.specs.Keys.{op_signature};
ghost use Rattle.egraph.specs.Sorts.{AreOfSorts};
ghost use Rattle.saturation.specs.Trace.{AreInserted};
ghost use Rattle.alpha_encode.specs.Decoded.{decoded};
ghost use Rattle.alpha_encode.specs.declared.instructions.Instr.{Instr as Instruction};
ghost use Rattle.alpha_encode.specs.Formats.{IsSecond, IsWellFormed};
ghost use Rattle.code_check.specs.Terms.{TermState, address_at, operate_term, second_term, terms_from, terms_written_from};
ghost use Rattle.word_terms.specs.Building.{constant, w2};
ghost use Rattle.word_ops.specs.Operators.{arity_of};
ghost use Rattle.code_check.specs.Classes.{AreAddresses, AreClassesOf, AreClassesOfSome, InsertsWritten, IsLoaded, IsRowInserted, IsStored, IsTermInserted};

use alpha_encode::{Instr, Second, decode};
use egraph::{Egraph, classes_have_one_sort};
use items::NoMemory;
use saturation::more_terms_may_be_inserted;
use std::alloc::Global;
use word_ops::{Access, Op, Operate, WordOp};

/// The class of the row with this operator and these operands.
fn insert_row(graph: &mut Egraph<Op>, op: Op, operands: &[u32]) -> Result<u32, NoMemory>
    requires arity { length operands.now ≡ arity_of_op op }
    requires sorts { AreOfSorts op_signature graph.old (operand_sort op) operands.now }
    requires few { length graph.old.current < 2 ^ 31 }
    ensures row { IfOk result (λ c. IsRowInserted graph.old op operands.now c graph.new) }
{
    // A graph keeps its invariant, which is known here once one of its methods was called.
    let _rows = graph.rows();
    classes_have_one_sort::<Op>();
    graph.insert(op, operands)
}

/// The class of a register's term. One that wasn't written is inserted as it is at entry.
fn register_class(
    graph: &mut Egraph<Op>,
    classes: &[Option<u32>],
    register: u8,
) -> Result<u32, NoMemory>
    requires low { register < 32 }
    requires count { length classes.now ≡ 32 }
    requires few { length graph.old.current < 2 ^ 31 }
    ensures built { IfOk result (λ c. (ts : TermState) (memory : ℕ) → AreClassesOf graph.old classes.now memory ts →
        IsTermInserted graph.old sorts.Word (ts.registers register) c graph.new) }
    ensures few { OnOk result (length graph.new.current ≤ length graph.old.current + 1) }
{
    more_terms_may_be_inserted();
    match classes[register as usize] {
        Some(class) => Ok(class),
        None if register == 31 => insert_row(graph, Op::Constant(0), &[]),
        None => insert_row(graph, Op::Input(register), &[]),
    }
}

/// The class of an operate's second operand.
fn second_class(
    graph: &mut Egraph<Op>,
    classes: &[Option<u32>],
    second: Second,
) -> Result<u32, NoMemory>
    requires second { IsSecond second }
    requires count { length classes.now ≡ 32 }
    requires few { length graph.old.current < 2 ^ 31 }
    ensures built { IfOk result (λ c. (ts : TermState) (memory : ℕ) → AreClassesOf graph.old classes.now memory ts →
        IsTermInserted graph.old sorts.Word (second_term second ts.registers) c graph.new) }
    ensures few { OnOk result (length graph.new.current ≤ length graph.old.current + 1) }
{
    match second {
        Second::Reg(register) => register_class(graph, classes, register),
        Second::Literal(literal) => insert_row(graph, Op::Constant(u64::from(literal)), &[]),
    }
}

/// The class of what an operate gives.
fn operate_class(
    graph: &mut Egraph<Op>,
    classes: &[Option<u32>],
    op: Operate,
    ra: u8,
    second: Second,
) -> Result<u32, NoMemory>
    requires ra { ra < 32 }
    requires second { IsSecond second }
    requires count { length classes.now ≡ 32 }
    requires terms { (memory : ℕ) × AreClassesOfSome graph.old classes.now memory }
    requires few { length graph.old.current + 3 ≤ 2 ^ 31 }
    ensures built { IfOk result (λ c. (ts : TermState) (memory : ℕ) → AreClassesOf graph.old classes.now memory ts →
        IsTermInserted graph.old sorts.Word (operate_term op (ts.registers ra) (second_term second ts.registers)) c graph.new) }
    ensures few { OnOk result (length graph.new.current ≤ length graph.old.current + 3) }
{
    more_terms_may_be_inserted();
    let row = Op::Word(WordOp::Operate(op));
    if op.arity() == 1 {
        let operand = second_class(graph, classes, second)?;
        return insert_row(graph, row, &[operand]);
    }
    let first = register_class(graph, classes, ra)?;
    let operand = second_class(graph, classes, second)?;
    insert_row(graph, row, &[first, operand])
}

/// The class of an operator on a register's term and a displacement's word, which is a constant.
fn displaced_class(
    graph: &mut Egraph<Op>,
    classes: &[Option<u32>],
    op: WordOp,
    rb: u8,
    n: u64,
) -> Result<u32, NoMemory>
    requires op { arity_of op ≡ 2 }
    requires rb { rb < 32 }
    requires count { length classes.now ≡ 32 }
    requires terms { (memory : ℕ) × AreClassesOfSome graph.old classes.now memory }
    requires few { length graph.old.current + 3 ≤ 2 ^ 31 }
    ensures built { IfOk result (λ c. (ts : TermState) (memory : ℕ) → AreClassesOf graph.old classes.now memory ts →
        IsTermInserted graph.old sorts.Word (w2 op (ts.registers rb) (constant n)) c graph.new) }
    ensures few { OnOk result (length graph.new.current ≤ length graph.old.current + 3) }
{
    let base = register_class(graph, classes, rb)?;
    let constant = insert_row(graph, Op::Constant(n), &[])?;
    insert_row(graph, Op::Word(op), &[base, constant])
}

/// The class of an address: the base alone where the displacement is 0.
fn address_class(
    graph: &mut Egraph<Op>,
    classes: &[Option<u32>],
    rb: u8,
    n: u64,
) -> Result<u32, NoMemory>
    requires rb { rb < 32 }
    requires count { length classes.now ≡ 32 }
    requires terms { (memory : ℕ) × AreClassesOfSome graph.old classes.now memory }
    requires few { length graph.old.current + 3 ≤ 2 ^ 31 }
    ensures built { IfOk result (λ c. (ts : TermState) (memory : ℕ) → AreClassesOf graph.old classes.now memory ts →
        IsTermInserted graph.old sorts.Word (address_at (ts.registers rb) n) c graph.new) }
    ensures few { OnOk result (length graph.new.current ≤ length graph.old.current + 3) }
{
    if n == 0 {
        return register_class(graph, classes, rb);
    }
    displaced_class(graph, classes, WordOp::Lda, rb, n)
}

/// Inserts what a load to a register other than 31 writes, where n is the word of its displacement. It gives the class of the load's address.
fn insert_load(
    graph: &mut Egraph<Op>,
    classes: &mut [Option<u32>],
    memory: u32,
    access: Access,
    ra: u8,
    rb: u8,
    n: u64,
) -> Result<Option<u32>, NoMemory>
    requires ra { ra < 32 }
    requires rb { rb < 32 }
    requires count { length classes.old ≡ 32 }
    requires terms { AreClassesOfSome graph.old classes.old memory }
    requires few { length graph.old.current + 5 ≤ 2 ^ 31 }
    ensures loaded { IfOk result (λ address. (ts : TermState) → AreClassesOf graph.old classes.old memory ts →
        IsLoaded access ra rb n graph.old ts graph.new classes.new memory address) }
    ensures few { OnOk result (length graph.new.current ≤ length graph.old.current + 5) }
{
    more_terms_may_be_inserted();
    if ra == 31 {
        return Ok(None);
    }
    let address = address_class(graph, classes, rb, n)?;
    let class = insert_row(graph, Op::Select(access), &[memory, address])?;
    classes[ra as usize] = Some(class);
    Ok(Some(address))
}

/// Inserts the memory that a store leaves, where n is the word of its displacement. It gives the class of the store's address.
fn insert_store(
    graph: &mut Egraph<Op>,
    classes: &[Option<u32>],
    memory: &mut u32,
    access: Access,
    ra: u8,
    rb: u8,
    n: u64,
) -> Result<u32, NoMemory>
    requires ra { ra < 32 }
    requires rb { rb < 32 }
    requires count { length classes.now ≡ 32 }
    requires terms { AreClassesOfSome graph.old classes.now memory.old }
    requires few { length graph.old.current + 5 ≤ 2 ^ 31 }
    ensures stored { IfOk result (λ address. (ts : TermState) → AreClassesOf graph.old classes.now memory.old ts →
        IsStored access ra rb n graph.old ts graph.new classes.now memory.new address) }
    ensures few { OnOk result (length graph.new.current ≤ length graph.old.current + 5) }
{
    more_terms_may_be_inserted();
    let address = address_class(graph, classes, rb, n)?;
    let value = register_class(graph, classes, ra)?;
    let class = insert_row(graph, Op::Store(access), &[*memory, address, value])?;
    *memory = class;
    Ok(address)
}

/// Inserts the term that the word's instruction gives, where it writes a register other than 31 or memory. It gives the
/// class of the instruction's address, where it has one.
fn insert_instr(
    graph: &mut Egraph<Op>,
    classes: &mut [Option<u32>],
    memory: &mut u32,
    instr: Instr,
) -> Result<Option<u32>, NoMemory>
    requires instr { IsWellFormed instr }
    requires count { length classes.old ≡ 32 }
    requires terms { AreClassesOfSome graph.old classes.old memory.old }
    requires few { length graph.old.current + 5 ≤ 2 ^ 31 }
    ensures written { IfOk result (InsertsWritten instr graph.old classes.old memory.old graph.new classes.new memory.new) }
    ensures few { OnOk result (length graph.new.current ≤ length graph.old.current + 5) }
{
    more_terms_may_be_inserted();
    match instr {
        Instr::Operate { op, ra, second, rc } => {
            if rc != 31 {
                let class = operate_class(graph, classes, op, ra, second)?;
                classes[rc as usize] = Some(class);
            }
        }
        Instr::Lda { ra, rb, disp } => {
            if ra != 31 {
                let n = i64::from(disp).cast_unsigned();
                let class = displaced_class(graph, classes, WordOp::Lda, rb, n)?;
                classes[ra as usize] = Some(class);
            }
        }
        Instr::Ldah { ra, rb, disp } => {
            if ra != 31 {
                let n = i64::from(disp).cast_unsigned();
                let class = displaced_class(graph, classes, WordOp::Ldah, rb, n)?;
                classes[ra as usize] = Some(class);
            }
        }
        Instr::Load {
            access,
            ra,
            rb,
            disp,
        } => {
            let n = i64::from(disp).cast_unsigned();
            return insert_load(graph, classes, *memory, access, ra, rb, n);
        }
        Instr::Ldq { ra, rb, disp } => {
            let n = i64::from(disp).cast_unsigned();
            return insert_load(graph, classes, *memory, Access::Quad, ra, rb, n);
        }
        Instr::Store {
            access,
            ra,
            rb,
            disp,
        } => {
            let n = i64::from(disp).cast_unsigned();
            let address = insert_store(graph, classes, memory, access, ra, rb, n)?;
            return Ok(Some(address));
        }
        Instr::Stq { ra, rb, disp } => {
            let n = i64::from(disp).cast_unsigned();
            let address = insert_store(graph, classes, memory, Access::Quad, ra, rb, n)?;
            return Ok(Some(address));
        }
        Instr::Beq { .. } => {}
    }
    Ok(None)
}

fn insert_word(
    graph: &mut Egraph<Op>,
    classes: &mut [Option<u32>],
    memory: &mut u32,
    word: u32,
) -> Result<Option<u32>, NoMemory>
    requires count { length classes.old ≡ 32 }
    requires terms { AreClassesOfSome graph.old classes.old memory.old }
    requires few { length graph.old.current + 5 ≤ 2 ^ 31 }
    ensures written { IfOk result (λ address. (i : Instruction) → decoded word ≡ Some i →
        InsertsWritten i graph.old classes.old memory.old graph.new classes.new memory.new address) }
    ensures few { OnOk result (length graph.new.current ≤ length graph.old.current + 5) }
{
    match decode(word) {
        Some(instr) => insert_instr(graph, classes, memory, instr),
        None => Ok(None),
    }
}

/// Inserts the terms that the words write, in order, and gives the classes of their addresses, one for each word. Each
/// word costs at most five rows, and each row one look-up.
pub(crate) fn insert_words(
    alloc: Global,
    graph: &mut Egraph<Op>,
    classes: &mut [Option<u32>],
    memory: &mut u32,
    words: &[u32],
) -> Result<Vec<Option<u32>>, NoMemory>
    requires code { (instrs : List Instruction) × (map decoded words.now ≡ map Some instrs) }
    requires terms { AreClassesOfSome graph.old classes.old memory.old }
    requires few { length graph.old.current + 5 * length words.now ≤ 2 ^ 31 }
    ensures written { IfOk result (λ addresses. (instrs : List Instruction) (ts : TermState) → map decoded words.now ≡ map Some instrs →
        AreClassesOf graph.old classes.old memory.old ts →
        AreInserted (terms_written_from instrs ts) graph.old graph.new
        × AreClassesOf graph.new classes.new memory.new (terms_from instrs ts)
        × AreAddresses graph.new instrs ts addresses.items) }
    ensures few { OnOk result (length graph.new.current ≤ length graph.old.current + 5 * length words.now) }
{
    more_terms_may_be_inserted();
    let mut addresses = Vec::new(alloc);
    for word in words {
        let address = insert_word(graph, classes, memory, *word)?;
        addresses.push(address)?;
    }
    Ok(addresses)
}
