// What holds of all tables and of all instructions. The calls do nothing: their clauses are laws.
ghost use Rattle.std.specs.Prelude.{◌≡◌, ◌<◌, ◌≤◌, ℕ, All, List, None, Some, length, unwrap_or};
ghost use Rattle.forms.specs.Forms.{Form, forms_of};
ghost use Rattle.forms.specs.Printing.{more, none, plains_of};
ghost use Rattle.forms.specs.Reading.{TextHasTrees};
ghost use Rattle.machine_table.specs.Grammar.{WritesTable};
ghost use Rattle.machine_table.specs.InstrOrder.{instr_name, instr_named, kind_number, operate_kind};
ghost use Rattle.machine_table.specs.Printing.{table_plain, table_text};
ghost use Rattle.machine_table.specs.Reading.{IsClearTableForm};
ghost use Rattle.machine_table.specs.Roles.{machine};
ghost use Rattle.machine_table.specs.Tables.{IsTable, MayUse, cluster_of, ev6, latency_of};
ghost use Rattle.machine_table.specs.declared.tables.InstrKind.{InstrKind};
ghost use Rattle.machine_table.specs.declared.tables.Table.{Table};
ghost use Rattle.text_core.specs.Names.{IsName};
ghost use Rattle.word_ops.specs.Names.{name_of};
ghost use Rattle.word_ops.specs.Operators.{number_of};
ghost use Rattle.word_ops.specs.declared.operators.WordOp.{WordOp};
ghost use Rattle.text_core.specs.Trees.{SexpTrees};

use forms::printed_lines_are_read;

/// A slot that an instruction may use on a table is one of the table's slots, of which there are at most eight, and the
/// instruction takes 1 to 16 cycles. A slot is in one of four clusters. The table `ev6` is within the limits.
pub fn tables_keep_limits()
    ensures latency { (table : Table) (instr : InstrKind) (slot : ℕ) → IsTable table → MayUse table instr slot
        → (1 ≤ unwrap_or (latency_of table instr) 0) × (unwrap_or (latency_of table instr) 0 ≤ 16) }
    ensures slot { (table : Table) (instr : InstrKind) (slot : ℕ) → IsTable table → MayUse table instr slot
        → slot < length table.slots }
    ensures few { (table : Table) → IsTable table → length table.slots ≤ 8 }
    ensures cluster { (table : Table) (slot : ℕ) → IsTable table → slot < length table.slots
        → cluster_of table slot ≤ 3 }
    ensures built_in { IsTable ev6 }
{}

/// The name of an instruction is a well-formed name, and its number is below 66; no other instruction has either. An
/// operate has the name and the number of its operator, and an operator with a number below 55 has an operate.
pub fn instructions_have_names()
    ensures named { (instr : InstrKind) → IsName (instr_name instr) }
    ensures found { (instr : InstrKind) → instr_named (instr_name instr) ≡ Some instr }
    ensures own { (name : List ℕ) (instr : InstrKind) → instr_named name ≡ Some instr → instr_name instr ≡ name }
    ensures below { (instr : InstrKind) → kind_number instr < 66 }
    ensures once { (instr other : InstrKind) → kind_number instr ≡ kind_number other → instr ≡ other }
    ensures operate { (op : WordOp) (instr : InstrKind) → operate_kind op ≡ Some instr
        → (instr_name instr ≡ name_of op) × (kind_number instr ≡ number_of op) }
    ensures none { (op : WordOp) → operate_kind op ≡ None → 55 ≤ number_of op }
{}

/// The text that a table within the limits prints is read back as the forms that were printed, if its slots have
/// well-formed names; and no other table within the limits has these forms.
pub fn printed_tables_are_read()
    ensures read { (table : Table) → IsTable table → All (λ s. IsName s.name) table.slots
        → (trees : SexpTrees) × TextHasTrees (table_text table) trees
        × (plains_of (forms_of (table_text table) trees) ≡ more (table_plain table) none) }
    ensures once { (table other : Table) → IsTable table → IsTable other → table_plain table ≡ table_plain other
        → table ≡ other }
{
    printed_lines_are_read();
}

/// A form writes at most one table, and a form that writes one has no fault.
pub fn one_table()
    ensures once { (form : Form) (table other : Table) → WritesTable form table → WritesTable form other
        → table ≡ other }
    ensures clear { (form : Form) (table : Table) → WritesTable form table → IsClearTableForm machine form }
{}
