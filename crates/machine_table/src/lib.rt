//! Machine tables: which instructions a machine has, where each may be launched and how long it takes.
//!
//! Proved: `read` gives exactly the table that a machine form writes, or its first fault, and only tables within the
//! limits (`table`, `is_table`, `read`, `clear`, `fault`); a form writes one table at most, and then it has no fault
//! (`one_table`). `print` gives the canonical text, which is read back as the same forms, and no other table has these
//! (`printed_tables_are_read`). The look-ups are exact; names and numbers of instructions are one to one, and an
//! operate has those of its operator (`instructions_have_names`). `ev6` is the table of the 21264; on any table within
//! the limits an instruction takes 1 to 16 cycles, and a slot that it may use exists (`tables_keep_limits`).
//!
//! What nothing forced, and why:
//! - The pipes of an operate are of the 21264: its table gives them slots and latencies, and another table of a text
//!   its own.
//! - The uses of a table that was read are sorted by their instructions, so two texts that name the same uses in
//!   another order have one table.
//! - `ev6` is opened only if a proof computes with it, since a search that unfolds its 66 uses gives up.
#![tactic(auto)]

mod built_in;
mod laws;
mod names;
mod printing;
mod queries;
mod reading;
mod slots;
mod tables;
mod uses;

pub use built_in::ev6;
pub use laws::{instructions_have_names, one_table, printed_tables_are_read, tables_keep_limits};
pub use names::{instr_name, instr_number, instr_of, operate_kind};
pub use printing::print;
pub use reading::read;
pub use tables::{InstrKind, Slot, Table, Use};
