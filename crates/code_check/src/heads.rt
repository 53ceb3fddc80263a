// The first words of lists.
ghost use Rattle.std.specs.Prelude.{◌≡◌};
ghost use Rattle.forms.specs.Forms.{sexp_form};
ghost use Rattle.forms.specs.Reading.{IsSexpOf};
ghost use Rattle.code_check.specs.CodeRoles as roles;

use goal_reader::head;
use text_core::Sexp;

/// Whether the form is a list whose first part is this name.
pub(crate) fn has_head(form: &Sexp, text: &[u8], word: &[u8]) -> bool
    requires of { IsSexpOf text.now form.now }
    ensures { result ≡ roles.has_head word.now (sexp_form text.now form.now) }
{
    match head(form, text) {
        Some(name) => word == name,
        None => false,
    }
}
