// What a text of clauses tells. The call does nothing: its clause is a law.
ghost use Rattle.std.specs.Prelude.{◌≡◌};
ghost use Rattle.cnf_core.specs.Formula.{Formula, IsFormula};
ghost use Rattle.dimacs.specs.Dimacs.{dimacs_text};

use refutation_check::printed_lines_are_read_back;
use text_core::{one_splitting, printed_lines_are_lines};

/// Two formulas with one text are equal: a reader of the bytes has the formula.
pub fn one_text_has_one_formula()
    ensures { (f g : Formula) → IsFormula f → IsFormula g → dimacs_text f ≡ dimacs_text g → f ≡ g }
{
    one_splitting();
    printed_lines_are_lines();
    printed_lines_are_read_back();
}
