// The text of families of axioms.
ghost use Rattle.std.specs.Prelude.{◌≡◌, IfOk};
ghost use Rattle.axiom_texts.specs.LibraryText as meant;

use axiom_library::{Family, axioms};
use goal_meaning::Input;
use goal_reader::print;
use items::{Items, NoMemory};
use machine_table::ev6;
use std::alloc::Global;

/// The axioms of the families, a line each. They are printed as an input of nothing else, whose built-in table isn't
/// printed.
pub(crate) fn library_text(alloc: Global, families: &[Family]) -> Result<Vec<u8>, NoMemory>
    ensures { IfOk result (λ text. text.items ≡ meant.library_text families.now) }
{
    let mut all = Vec::new(alloc);
    for family in families {
        let mut one = axioms(alloc, *family)?.into_vec();
        all.append(&mut one)?;
    }
    let input = Input {
        table: ev6(alloc)?,
        builtin: true,
        ops: Items::new(alloc),
        axioms: Items::from(all),
        goals: Items::new(alloc),
    };
    print(alloc, &input)
}
