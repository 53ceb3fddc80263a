// Which launches take registers, what a reader finds in those of inputs, and which launches it may take a word from.
ghost use Rattle.std.specs.Prelude.{◌≡◌, ◌==◌, ◌&&◌, ◌≤◌, ◌↔◌, IsTrue, Any, count_by, take, length};
ghost use Rattle.schedule_meaning.specs.Launches as launches;
ghost use Rattle.schedule_meaning.specs.Readers.{IsIntact, passes, touches, is_intact, input_where};

use crate::lookups::{cluster_of, gives, instr_at, overwrites, ready_in, takes_pool, writes_pin};
use crate::schedules::Launch;
use graph_meaning::{InputClass, LaunchGraph};
use machine_table::Table;

/// How many launches before a place take a register of the pool.
pub fn taken_before(graph: &LaunchGraph, list: &[Launch], place: usize) -> usize
    requires { place ≤ length list.now }
    ensures { result ≡ count_by (launches.takes_pool graph.now) (take place list.now) }
{
    let mut count = 0;
    for before in 0..place {
        if takes_pool(list[before], instr_at(graph, list[before].row)) {
            count += 1;
        }
    }
    count
}

/// The first cycle in which others may write what the launch reads.
fn reads_until(graph: &LaunchGraph, launch: Launch) -> u64
    ensures { result ≡ launches.reads_until graph.now launch }
{
    if overwrites(graph, launch) {
        u64::from(launch.cycle) + 1
    } else {
        u64::from(launch.cycle)
    }
}

/// Whether the other launch writes the register before the reader has read it; without a reader, at any time.
fn touches(graph: &LaunchGraph, reader: Option<Launch>, register: u8, other: Launch) -> bool
    ensures { result ≡ touches graph.now reader register other }
{
    match reader {
        Some(reader) => {
            writes_pin(graph, register, other)
                && (!(reader.cycle == other.cycle && reader.slot == other.slot)
                    && u64::from(other.cycle) < reads_until(graph, reader))
        }
        None => writes_pin(graph, register, other),
    }
}

/// Whether the reader finds in the register what it had at entry; without a reader, whether it has that at the end.
fn is_intact(graph: &LaunchGraph, list: &[Launch], reader: Option<Launch>, register: u8) -> bool
    ensures { result ≡ is_intact graph.now list.now reader register }
{
    for other in list {
        if touches(graph, reader, register, *other) {
            return false;
        }
    }
    true
}

/// Whether the input is of the class, and the reader finds in its register what it had at entry.
fn may_read(
    graph: &LaunchGraph,
    list: &[Launch],
    reader: Option<Launch>,
    class: u32,
    input: &InputClass,
) -> bool
    ensures { result ≡ ((input.now.class == class) && is_intact graph.now list.now reader input.now.reg) }
{
    input.class == class && is_intact(graph, list, reader, input.reg)
}

/// The register of the first input of the class in which the reader finds what it had at entry; without a reader, in
/// which that is at the end. For each input it goes over the launches.
pub fn input_for(
    graph: &LaunchGraph,
    list: &[Launch],
    reader: Option<Launch>,
    class: u32,
) -> Option<u8>
    ensures { result ≡ input_where graph.now (is_intact graph.now list.now reader) class }
{
    for input in graph.inputs.as_slice() {
        if may_read(graph, list, reader, class, input) {
            return Some(input.reg);
        }
    }
    None
}

/// Whether there is such an input.
pub(crate) fn has_input(
    graph: &LaunchGraph,
    list: &[Launch],
    reader: Option<Launch>,
    class: u32,
) -> bool
    ensures { IsTrue result ↔ launches.HasInput graph.now class (IsIntact graph.now list.now reader) }
{
    input_for(graph, list, reader, class).is_some()
}

/// Whether the launch gives the class's word, and it is ready for the reader; without a reader it needn't be.
pub fn may_take(
    graph: &LaunchGraph,
    table: &Table,
    reader: Option<Launch>,
    class: u32,
    launch: Launch,
) -> bool
    ensures { result ≡ (launches.gives graph.now class launch && passes graph.now table.now reader launch) }
{
    let instr = instr_at(graph, launch.row);
    match reader {
        Some(reader) => {
            gives(graph, class, launch, instr)
                && ready_in(table, cluster_of(table, reader.slot), launch, instr)
                    <= u64::from(reader.cycle)
        }
        None => gives(graph, class, launch, instr),
    }
}

/// Some launch of the list gives the class's word, and it is ready for the reader.
pub(crate) fn is_given(
    graph: &LaunchGraph,
    table: &Table,
    list: &[Launch],
    reader: Option<Launch>,
    class: u32,
) -> bool
    ensures { IsTrue result
        ↔ Any (λ l. IsTrue (launches.gives graph.now class l && passes graph.now table.now reader l)) list.now }
{
    for launch in list {
        if may_take(graph, table, reader, class, *launch) {
            return true;
        }
    }
    false
}
