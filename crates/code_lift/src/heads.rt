// The first words of lists.
ghost use Rattle.std.specs.Prelude.{◌≡◌};
ghost use Rattle.forms.specs.Forms.{sexp_form};
ghost use Rattle.forms.specs.Reading.{IsSexpOf};
ghost use Rattle.machine_table.specs.Roles as table_roles;

use goal_reader::head;
use text_core::Sexp;

/// Whether the form is a list that begins with this word.
pub(crate) fn has_head(form: &Sexp, text: &[u8], word: &[u8]) -> bool
    requires of { IsSexpOf text.now form.now }
    ensures { result ≡ table_roles.has_head word.now (sexp_form text.now form.now) }
{
    match head(form, text) {
        Some(name) => name == word,
        None => false,
    }
}
