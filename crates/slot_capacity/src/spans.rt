// From when to when the launches of a row are that have variables.
ghost use Rattle.std.specs.Prelude.{◌≡◌, ◌≤◌, ◌<◌, ◌^◌, length, IfOk};
ghost use Rattle.cycle_encoding.specs.Framed.{IsFrame, over};
ghost use Rattle.cycle_encoding.specs.CycleFormula.{listed_in};
ghost use Rattle.slot_capacity.specs.Spans as specs;

use cycle_encoding::Frame;
use items::NoMemory;
use std::alloc::Global;

/// The first and the last cycle of a row's launches that have variables.
#[derive(Clone, Copy)]
pub struct Span {
    pub first: u32,
    pub last: u32,
}

/// Of each row's number, if it has any such launch.
pub fn spans(alloc: Global, frame: &Frame) -> Result<Vec<Option<Span>>, NoMemory>
    requires frame { IsFrame frame.now }
    ensures { IfOk result (λ spans. spans.items
        ≡ specs.spans_of frame.now.facts.now (over frame.now listed_in).launches) }
{
    let mut spans = Vec::new(alloc);
    for row in 0..frame.facts.row_numbers() {
        spans.push(row_span(frame, row))?;
    }
    Ok(spans)
}

/// The span of a row: it begins where its launches can start, and ends so early that they end by k.
fn row_span(frame: &Frame, row: u32) -> Option<Span>
    requires frame { IsFrame frame.now }
    ensures { result ≡ specs.span_of (over frame.now listed_in).launches row }
{
    let Some(instr) = frame.facts.instr_at(row) else {
        return None;
    };
    let Some(latency) = frame.table.latency(instr) else {
        return None;
    };
    let Some(first) = frame.scope.first(row) else {
        return None;
    };
    if latency > frame.k || first > frame.k - latency {
        return None;
    }
    Some(Span {
        first,
        last: frame.k - latency,
    })
}
