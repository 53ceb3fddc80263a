// The rows by which a graph knows of which numbers addresses are multiples.
ghost use Rattle.std.specs.Prelude.{◌≡◌, ◌*◌, ◌<◌, All, fold, length, IfOk, OnOk};
ghost use Rattle.own_graph.specs.Own as own_graphs;
ghost use Rattle.own_graph.specs.OwnView.{IsGiven};
ghost use Rattle.own_graph.specs.Rows.{HasRoom};

use crate::operands::{Part, number};
use crate::rows::{class_in, place_applied, place_parts, place_row_of};
use crate::stepping::value_part;
use code_lift::Address;
use graph_meaning::LaunchRow;
use items::NoMemory;
use std::alloc::Global;
use word_ops::{Op, Operate, WordOp};

/// `and` over two classes is in the class of 0. Where a word computes it the row is there in another class, and a row
/// stands once: then it is the row with the operands the other way round.
fn place_zero(
    alloc: Global,
    rows: &mut Vec<LaunchRow>,
    zero: u32,
    a: u32,
    mask: u32,
) -> Result<(), NoMemory>
    ensures { OnOk result (rows.new.items ≡ own_graphs.with_zero rows.old.items zero a mask) }
{
    let and = Op::Word(WordOp::Operate(Operate::And));
    match class_in(rows, and, &[a, mask]) {
        Some(class) if class == zero => Ok(()),
        Some(_) => place_row_of(alloc, rows, zero, and, &[mask, a]),
        None => place_row_of(alloc, rows, zero, and, &[a, mask]),
    }
}

/// The low bits of the address are 0.
fn place_low_bits(
    alloc: Global,
    rows: &mut Vec<LaunchRow>,
    address: Part,
    mask: u64,
) -> Result<(), NoMemory>
    requires { HasRoom 3 rows.old.items }
    ensures { OnOk result (rows.new.items ≡ own_graphs.with_low_bits rows.old.items address mask) }
{
    let parts = [address, number(mask), number(0)];
    let classes = place_parts(alloc, rows, &parts)?;
    place_zero(alloc, rows, classes[2], classes[0], classes[1])
}

/// The part of an address: the base alone, or its sum with a displacement, which gets its row.
fn address_part(
    alloc: Global,
    rows: &mut Vec<LaunchRow>,
    base: Part,
    displacement: u64,
) -> Result<Part, NoMemory>
    requires { HasRoom 3 rows.old.items }
    ensures rows { OnOk result (rows.new.items ≡ own_graphs.with_address rows.old.items base displacement) }
    ensures part { IfOk result (λ part. part ≡ own_graphs.address_part rows.old.items base displacement) }
{
    if displacement == 0 {
        return Ok(base);
    }
    let parts = [base, number(displacement)];
    let class = place_applied(alloc, rows, Op::Word(WordOp::Lda), &parts)?;
    Ok(Part::Class(class))
}

/// Adds the row by which the graph knows of which number the address is a multiple.
fn place_multiple(
    alloc: Global,
    values: &[u32],
    rows: &mut Vec<LaunchRow>,
    address: Address,
) -> Result<(), NoMemory>
    requires given { IsGiven (length values.now) address.value }
    requires power { address.power < 4 }
    requires room { HasRoom 6 rows.old.items }
    ensures { OnOk result (rows.new.items ≡ own_graphs.with_multiple values.now rows.old.items address) }
{
    let base = value_part(values, address.value);
    let part = address_part(alloc, rows, base, address.displacement)?;
    place_low_bits(alloc, rows, part, (1 << address.power) - 1)
}

/// Adds the rows by which the graph knows of which numbers the addresses are multiples.
pub(crate) fn place_multiples(
    alloc: Global,
    values: &[u32],
    rows: &mut Vec<LaunchRow>,
    addresses: &[Address],
) -> Result<(), NoMemory>
    requires given { All (λ a. IsGiven (length values.now) a.value) addresses.now }
    requires powers { All (λ a. a.power < 4) addresses.now }
    requires room { HasRoom (7 * length addresses.now) rows.old.items }
    ensures { OnOk result (rows.new.items ≡ fold (own_graphs.with_multiple values.now) rows.old.items addresses.now) }
{
    for address in addresses {
        place_multiple(alloc, values, rows, *address)?;
    }
    Ok(())
}
