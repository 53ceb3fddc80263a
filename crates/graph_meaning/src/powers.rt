// Which classes of rows are multiples of 2, 4 or 8, by what the rows say.
//
// What a row says of its class depends on what stands of its operands, and is never less where more stands. So each row
// is looked at once, and again only when more stands of one of its operands: a class of which more was found waits in
// a queue until the rows that use it are followed. It can wait three times, since no more than 8 is ever shown.
ghost use Rattle.std.specs.Prelude.{◌≡◌, ◌<◌, ◌≤◌, ◌^◌, ◌⊎◌, ◌==◌, ◌++◌, ◌∷◌, ℕ, List, [], All, Contains, IfOk, OnOk, None, Some, false, true, length, slice_index, slice_index_or, slice_set};
ghost use Rattle.std.specs.Option.{option_map_or, option_or};
ghost use Rattle.word_ops.specs.Meanings.{constant_in};
ghost use Rattle.graph_meaning.specs.Graphs.{constant_among};
ghost use Rattle.graph_meaning.specs.Multiples as shown;
ghost use Rattle.graph_meaning.specs.Multiples.{AreMultiplesOf, IsMultiple, IsShown};
ghost use Rattle.graph_meaning.specs.Raising as raising;
ghost use Rattle.graph_meaning.specs.Raising.{AreConstants, AreFollowed, AreRaises, AreUses, IsBelow, IsFollowed, IsMasked, IsRaised, IsSeen, IsState};
ghost use Rattle.graph_meaning.specs.declared.graphs.LaunchRow.{LaunchRow as Row};

use crate::graphs::LaunchRow;
use crate::row_rules::{alignment_of_op, low_ones, said};
use items::{Items, NoMemory};
use std::alloc::Global;
use word_ops::{Op, Operate, WordOp};

/// For each class below `classes`, the greatest power n, at most 3, for which the rows show that its value is a
/// multiple of 2^n. It costs each class, row and operand a few steps.
pub fn multiples(alloc: Global, rows: &[LaunchRow], classes: usize) -> Result<Items<u8>, NoMemory>
    requires few_rows { length rows.now < 2 ^ 30 }
    requires few_classes { classes ≤ 2 ^ 31 }
    requires below { All (λ r. (r.class < classes) × All (λ c. c < classes) r.operands) rows.now }
    ensures size { IfOk result (λ powers. length powers ≡ classes) }
    ensures greatest { IfOk result (λ powers. (class : ℕ) → class < classes
        → IsMultiple rows.now class (slice_index powers class)) }
    ensures low { IfOk result (λ powers. All (λ n. n ≤ 3) powers) }
{
    let constants = constants(alloc, rows, classes)?;
    let uses = uses(alloc, rows, classes)?;
    let mut powers = filled(alloc, 0, classes)?;
    let mut queue = Vec::new(alloc);
    look_at_all(&mut powers, &mut queue, rows, &constants)?;
    follow_queue(&mut powers, &mut queue, rows, &constants, &uses)?;
    Ok(Items::from(powers))
}

/// Whether for the instruction of some row not every address will do.
fn wants_multiples(rows: &[LaunchRow]) -> bool
    ensures { result ≡ shown.wants_multiples rows.now }
{
    rows.iter().any(|row| alignment_of_op(row.op) > 0)
}

/// The multiples of a graph with these rows: as `multiples` gives them where the instruction of some row doesn't take
/// every address, else none.
pub fn known_multiples(alloc: Global, rows: &[LaunchRow]) -> Result<Items<u8>, NoMemory>
    requires few_rows { length rows.now < 2 ^ 30 }
    requires below { All (λ r. (r.class < length rows.now) × All (λ c. c < length rows.now) r.operands) rows.now }
    ensures { IfOk result (λ powers. AreMultiplesOf rows.now powers) }
{
    if !wants_multiples(rows) {
        return Ok(Items::new(alloc));
    }
    multiples(alloc, rows, rows.len())
}

/// The constant of each class.
fn constants(
    alloc: Global,
    rows: &[LaunchRow],
    classes: usize,
) -> Result<Vec<Option<u64>>, NoMemory>
    requires below { All (IsBelow classes) rows.now }
    ensures { IfOk result (λ constants. AreConstants rows.now classes constants.items) }
{
    let mut constants = filled(alloc, None, classes)?;
    for row in rows {
        note_constant(&mut constants, row);
    }
    Ok(constants)
}

/// So many times the value.
fn filled<T: Copy>(alloc: Global, value: T, count: usize) -> Result<Vec<T>, NoMemory>
    ensures size { IfOk result (λ table. length table.items ≡ count) }
    ensures each { IfOk result (λ table. (k : ℕ) → slice_index_or table.items k value ≡ value) }
{
    let mut table = Vec::new(alloc);
    for _made in 0..count {
        table.push(value)?;
    }
    Ok(table)
}

/// Notes what a row says of the constant of its class, where no row before it said one.
fn note_constant(constants: &mut Vec<Option<u64>>, row: &LaunchRow)
    requires class { row.now.class < length constants.old.items }
    ensures { constants.new.items ≡ slice_set constants.old.items row.now.class
        (option_or (slice_index_or constants.old.items row.now.class None) (constant_in row.now.op)) }
{
    if let Op::Constant(constant) = row.op {
        if constants[row.class as usize].is_none() {
            constants[row.class as usize] = Some(constant);
        }
    }
}

/// For each class the places of the rows that have it as an operand.
fn uses(alloc: Global, rows: &[LaunchRow], classes: usize) -> Result<Vec<Items<u32>>, NoMemory>
    requires few_rows { length rows.now < 2 ^ 30 }
    requires below { All (IsBelow classes) rows.now }
    ensures { IfOk result (λ uses. AreUses rows.now (length rows.now) classes uses.items) }
{
    let mut uses = Vec::new(alloc);
    for _class in 0..classes {
        uses.push(Items::new(alloc))?;
    }
    for at in 0..rows.len() {
        note_uses(&mut uses, at as u32, rows[at].operands.as_slice())?;
    }
    Ok(uses)
}

/// Notes that a row has these operands.
fn note_uses(uses: &mut Vec<Items<u32>>, at: u32, operands: &[u32]) -> Result<(), NoMemory>
    requires operands { All (λ c. c < length uses.old.items) operands.now }
    ensures size { OnOk result (length uses.new.items ≡ length uses.old.items) }
    ensures within { OnOk result ((class k : ℕ) → Contains (slice_index_or uses.new.items class []) k
        → Contains (slice_index_or uses.old.items class []) k ⊎ (k ≡ at)) }
    ensures still { OnOk result ((class k : ℕ) → Contains (slice_index_or uses.old.items class []) k
        → Contains (slice_index_or uses.new.items class []) k) }
    ensures has { OnOk result ((class : ℕ) → Contains operands.now class
        → Contains (slice_index_or uses.new.items class []) at) }
{
    for class in operands {
        note_use(uses, *class, at)?;
    }
    Ok(())
}

/// Puts a row at the end of the list of a class.
fn note_use(uses: &mut Vec<Items<u32>>, class: u32, at: u32) -> Result<(), NoMemory>
    requires class { class < length uses.old.items }
    ensures { OnOk result (uses.new.items
        ≡ slice_set uses.old.items class (slice_index_or uses.old.items class [] ++ at ∷ [])) }
{
    uses[class as usize].push(at)
}

/// Raises what stands of a class, and queues the class where that is more than before.
fn raise(powers: &mut Vec<u8>, queue: &mut Vec<u32>, class: u32, n: u8) -> Result<(), NoMemory>
    requires class { class < length powers.old.items }
    ensures { OnOk result (IsRaised powers.old.items queue.old.items class n powers.new.items queue.new.items) }
{
    if powers[class as usize] < n {
        powers[class as usize] = n;
        queue.push(class)?;
    }
    Ok(())
}

/// Looks at each row once.
fn look_at_all(
    powers: &mut Vec<u8>,
    queue: &mut Vec<u32>,
    rows: &[LaunchRow],
    constants: &[Option<u64>],
) -> Result<(), NoMemory>
    requires below { All (IsBelow (length powers.old.items)) rows.now }
    requires constants { AreConstants rows.now (length powers.old.items) constants.now }
    requires state { IsState rows.now powers.old.items queue.old.items }
    ensures size { OnOk result (length powers.new.items ≡ length powers.old.items) }
    ensures state { OnOk result (IsState rows.now powers.new.items queue.new.items) }
    ensures seen { OnOk result (All (IsSeen rows.now powers.new.items queue.new.items 0) rows.now) }
{
    for row in rows {
        look_at(powers, queue, rows, constants, row)?;
    }
    Ok(())
}

/// Goes through the queue, and follows the rows that use each class in it. A class is queued at most three times.
fn follow_queue(
    powers: &mut Vec<u8>,
    queue: &mut Vec<u32>,
    rows: &[LaunchRow],
    constants: &[Option<u64>],
    uses: &[Items<u32>],
) -> Result<(), NoMemory>
    requires few_classes { length powers.old.items ≤ 2 ^ 31 }
    requires below { All (IsBelow (length powers.old.items)) rows.now }
    requires constants { AreConstants rows.now (length powers.old.items) constants.now }
    requires uses { AreUses rows.now (length rows.now) (length powers.old.items) uses.now }
    requires state { IsState rows.now powers.old.items queue.old.items }
    requires seen { All (IsSeen rows.now powers.old.items queue.old.items 0) rows.now }
    ensures size { OnOk result (length powers.new.items ≡ length powers.old.items) }
    ensures greatest { OnOk result ((class : ℕ) → class < length powers.old.items
        → IsMultiple rows.now class (slice_index powers.new.items class)) }
{
    for at in 0..3 * powers.len() {
        if at >= queue.len() {
            return Ok(());
        }
        let class = queue[at];
        let places = uses[class as usize].as_slice();
        follow_uses(powers, queue, rows, constants, places)?;
    }
    Ok(())
}

/// Follows the rows at these places.
fn follow_uses(
    powers: &mut Vec<u8>,
    queue: &mut Vec<u32>,
    rows: &[LaunchRow],
    constants: &[Option<u64>],
    places: &[u32],
) -> Result<(), NoMemory>
    requires places { All (λ at. at < length rows.now) places.now }
    requires below { All (IsBelow (length powers.old.items)) rows.now }
    requires constants { AreConstants rows.now (length powers.old.items) constants.now }
    requires state { IsState rows.now powers.old.items queue.old.items }
    ensures state { OnOk result (IsState rows.now powers.new.items queue.new.items) }
    ensures raises { OnOk result (AreRaises powers.old.items queue.old.items powers.new.items queue.new.items) }
    ensures followed { OnOk result
        (AreFollowed rows.now powers.new.items queue.new.items (length queue.old.items) places.now) }
{
    for at in places {
        follow(powers, queue, rows, constants, &rows[*at as usize])?;
    }
    Ok(())
}

/// Raises what a row says: of its class, and, if it is an `and` that is 0, of its operands.
fn look_at(
    powers: &mut Vec<u8>,
    queue: &mut Vec<u32>,
    rows: &[LaunchRow],
    constants: &[Option<u64>],
    row: &LaunchRow,
) -> Result<(), NoMemory>
    requires row { Contains rows.now row.now }
    requires below { IsBelow (length powers.old.items) row.now }
    requires constants { AreConstants rows.now (length powers.old.items) constants.now }
    requires state { IsState rows.now powers.old.items queue.old.items }
    ensures state { OnOk result (IsState rows.now powers.new.items queue.new.items) }
    ensures raises { OnOk result (AreRaises powers.old.items queue.old.items powers.new.items queue.new.items) }
    ensures seen { OnOk result
        (IsSeen rows.now powers.new.items queue.new.items (length queue.old.items) row.now) }
{
    follow(powers, queue, rows, constants, row)?;
    raise_masked(powers, queue, rows, constants, row)
}

/// Raises what an `and` that is 0 says of its operands.
fn raise_masked(
    powers: &mut Vec<u8>,
    queue: &mut Vec<u32>,
    rows: &[LaunchRow],
    constants: &[Option<u64>],
    row: &LaunchRow,
) -> Result<(), NoMemory>
    requires row { Contains rows.now row.now }
    requires below { IsBelow (length powers.old.items) row.now }
    requires constants { AreConstants rows.now (length powers.old.items) constants.now }
    requires state { IsState rows.now powers.old.items queue.old.items }
    ensures state { OnOk result (IsState rows.now powers.new.items queue.new.items) }
    ensures raises { OnOk result (AreRaises powers.old.items queue.old.items powers.new.items queue.new.items) }
    ensures masked { OnOk result (IsMasked rows.now powers.new.items row.now) }
{
    let is_and = matches!(row.op, Op::Word(WordOp::Operate(Operate::And)));
    if !is_and || !is_zero(constants[row.class as usize]) {
        return Ok(());
    }
    match row.operands.as_slice() {
        [x, y] => raise_pair(powers, queue, rows, constants, row, *x, *y),
        _ => Ok(()),
    }
}

/// Raises both operands of an `and` that is 0.
fn raise_pair(
    powers: &mut Vec<u8>,
    queue: &mut Vec<u32>,
    rows: &[LaunchRow],
    constants: &[Option<u64>],
    row: &LaunchRow,
    x: u32,
    y: u32,
) -> Result<(), NoMemory>
    requires row { Contains rows.now row.now }
    requires op { raising.is_and row.now.op ≡ true }
    requires zero { constant_among rows.now row.now.class ≡ Some 0 }
    requires operands { row.now.operands ≡ x ∷ y ∷ [] }
    requires x { x < length powers.old.items }
    requires y { y < length powers.old.items }
    requires constants { AreConstants rows.now (length powers.old.items) constants.now }
    requires state { IsState rows.now powers.old.items queue.old.items }
    ensures state { OnOk result (IsState rows.now powers.new.items queue.new.items) }
    ensures raises { OnOk result (AreRaises powers.old.items queue.old.items powers.new.items queue.new.items) }
    ensures masked { OnOk result (IsMasked rows.now powers.new.items row.now) }
{
    let (of_x, of_y) = (constants[x as usize], constants[y as usize]);
    raise_by_mask(powers, queue, x, of_y)?;
    raise_by_mask(powers, queue, y, of_x)?;
    Ok(())
}

fn is_zero(constant: Option<u64>) -> bool
    ensures { result ≡ option_map_or (λ k. k == 0) constant false }
{
    match constant {
        Some(constant) => constant == 0,
        None => false,
    }
}

/// Raises a class that is 0 under a mask by what the mask shows.
fn raise_by_mask(
    powers: &mut Vec<u8>,
    queue: &mut Vec<u32>,
    class: u32,
    mask: Option<u64>,
) -> Result<(), NoMemory>
    requires class { class < length powers.old.items }
    ensures state { OnOk result ((rows : List Row) → IsState rows powers.old.items queue.old.items
        → IsShown rows class (option_map_or shown.low_ones mask 0) → IsState rows powers.new.items queue.new.items) }
    ensures raises { OnOk result (AreRaises powers.old.items queue.old.items powers.new.items queue.new.items) }
    ensures to { OnOk result (option_map_or shown.low_ones mask 0 ≤ slice_index powers.new.items class) }
{
    match mask {
        Some(mask) => raise(powers, queue, class, low_ones(mask)),
        None => Ok(()),
    }
}

/// Raises the class of a row to what the row says.
fn follow(
    powers: &mut Vec<u8>,
    queue: &mut Vec<u32>,
    rows: &[LaunchRow],
    constants: &[Option<u64>],
    row: &LaunchRow,
) -> Result<(), NoMemory>
    requires row { Contains rows.now row.now }
    requires below { IsBelow (length powers.old.items) row.now }
    requires constants { AreConstants rows.now (length powers.old.items) constants.now }
    requires state { IsState rows.now powers.old.items queue.old.items }
    ensures state { OnOk result (IsState rows.now powers.new.items queue.new.items) }
    ensures raises { OnOk result (AreRaises powers.old.items queue.old.items powers.new.items queue.new.items) }
    ensures followed { OnOk result
        (IsFollowed rows.now powers.new.items queue.new.items (length queue.old.items) row.now) }
{
    let n = said(powers, constants, row.op, row.operands.as_slice());
    raise(powers, queue, row.class, n)
}
