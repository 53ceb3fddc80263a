// Faults of lines.
ghost use Rattle.std.specs.Prelude.{◌≤◌, length};
ghost use Rattle.launch_graph.specs.RowsRead.{IsFaultOfLine};

use text_core::{Fault, Kind, TextFault, TextLines};

/// The fault of a line, or of the end of the text where the line is the count.
pub(crate) fn line_fault(text: &TextLines<'_>, line: u32, kind: Kind) -> TextFault
    requires { line ≤ length text.now }
    ensures { IsFaultOfLine text.now line kind result }
{
    TextFault::Fault(Fault {
        place: text.place(line),
        kind,
    })
}
