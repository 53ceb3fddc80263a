// The first word that may trap.
ghost use Rattle.std.specs.Prelude.{◌≡◌, ◌<◌, ◌^◌, List, length, map, IfOk, Some};
ghost use Rattle.alpha_encode.specs.Decoded.{decoded};
ghost use Rattle.alpha_encode.specs.declared.instructions.Instr.{Instr as Instruction};
ghost use Rattle.graph_meaning.specs.Graphs.{plain_row};
ghost use Rattle.code_check.specs.Compared.{AreMultiples, ArePresentAddresses, IsFirstTrap, IsPresentAddress, TellsTrap, alignment_of};
ghost use Rattle.code_check.specs.Same.{rows_of};
ghost use Rattle.code_check.specs.Terms as terms;
ghost use Rattle.code_check.specs.Terms.{TermState, terms_at_entry};
ghost use Rattle.word_ops.specs.Memory as accesses;

use alpha_encode::{Instr, decode};
use egraph::{Egraph, Row, rows_name_present_classes};
use graph_meaning::{LaunchRow, multiples};
use items::{Items, NoMemory};
use pattern_match::terms_have_one_class;
use std::alloc::Global;
use text_core::Name;
use word_ops::{Access, Op};

/// The power of 2 of which an access's addresses must be multiples, where it doesn't take each address.
fn needed_alignment(access: Access) -> Option<u8>
    ensures { result ≡ terms.needed_alignment (accesses.alignment access) }
{
    match access.alignment() {
        0 => None,
        power => Some(power),
    }
}

/// The power of 2 of which the word's address must be a multiple, where the word may trap. A load to register 31 never
/// does.
fn alignment(word: u32) -> Option<u8>
    ensures { result ≡ alignment_of (decoded word) }
{
    match decode(word) {
        Some(Instr::Load { access, ra, .. }) if ra != 31 => needed_alignment(access),
        Some(Instr::Store { access, .. }) => needed_alignment(access),
        Some(Instr::Ldq { ra, .. }) if ra != 31 => Some(3),
        Some(Instr::Stq { .. }) => Some(3),
        _ => None,
    }
}

/// A row as multiples are read from it, without the name of a declared operator.
fn launch_row(alloc: Global, row: &Row<Op>) -> Result<LaunchRow, NoMemory>
    ensures { IfOk result (λ launched. launched ≡ plain_row row.now.class row.now.op row.now.operands) }
{
    Ok(LaunchRow {
        class: row.class,
        op: row.op,
        name: Name::new(alloc, &[])?,
        operands: Items::from_slice(alloc, row.operands.as_slice())?,
    })
}

fn launch_rows(alloc: Global, graph: &Egraph<Op>) -> Result<Vec<LaunchRow>, NoMemory>
    ensures { IfOk result (λ rows. rows.items ≡ rows_of graph.now) }
{
    let mut rows = Vec::new(alloc);
    for at in 0..graph.rows() {
        rows.push(launch_row(alloc, graph.row(at))?)?;
    }
    Ok(rows)
}

/// Whether the word may trap and its address isn't known to be the multiple that it must be. A word that may trap has an
/// address.
fn may_trap(graph: &Egraph<Op>, powers: &[u8], word: u32, address: Option<u32>) -> bool
    requires address { (instr : Instruction) × (ts : TermState) × (decoded word ≡ Some instr)
        × IsPresentAddress graph.now instr ts address }
    requires powers { AreMultiples graph.now powers.now }
    ensures { (instr : Instruction) (ts : TermState) → decoded word ≡ Some instr →
        IsPresentAddress graph.now instr ts address → TellsTrap graph.now instr ts result }
{
    terms_have_one_class();
    rows_name_present_classes::<Op>();
    // A graph keeps its invariant, which is known here once one of its methods was called.
    let _made = graph.made();
    match alignment(word) {
        Some(power) => match address {
            Some(class) => powers[graph.now(class) as usize] < power,
            None => true,
        },
        None => false,
    }
}

/// The first word that may trap and whose address isn't known to be the multiple that it must be. Multiples are read from
/// the rows in a time that is linear in rows and operands.
pub(crate) fn first_trap(
    alloc: Global,
    graph: &Egraph<Op>,
    words: &[u32],
    addresses: &[Option<u32>],
) -> Result<Option<u32>, NoMemory>
    requires few { length words.now < 2 ^ 32 }
    requires few_rows { length graph.now.rows < 2 ^ 30 }
    requires addresses { (instrs : List Instruction) × (map decoded words.now ≡ map Some instrs)
        × ArePresentAddresses graph.now instrs terms_at_entry addresses.now }
    ensures { IfOk result (λ found. (instrs : List Instruction) → map decoded words.now ≡ map Some instrs →
        ArePresentAddresses graph.now instrs terms_at_entry addresses.now → IsFirstTrap graph.now instrs found) }
{
    rows_name_present_classes::<Op>();
    let rows = launch_rows(alloc, graph)?;
    let powers = multiples(alloc, rows.as_slice(), graph.made() as usize)?;
    for at in 0..words.len() {
        if may_trap(graph, powers.as_slice(), words[at], addresses[at]) {
            return Ok(Some(at as u32));
        }
    }
    Ok(None)
}
