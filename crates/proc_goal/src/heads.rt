// The first words of lists, and what stands behind the first so many.
ghost use Rattle.std.specs.Prelude.{◌≡◌, ◌≤◌, All, drop, length};
ghost use Rattle.forms.specs.Forms.{sexp_form, sexp_forms};
ghost use Rattle.forms.specs.Reading.{IsSexpOf};
ghost use Rattle.machine_table.specs.Roles as table_roles;
ghost use Rattle.proc_goal.specs.ProcRoles as roles;

use goal_reader::head;
use text_core::Sexp;

/// Whether the form is a list that begins with this word.
pub(crate) fn has_head(form: &Sexp, text: &[u8], word: &[u8]) -> bool
    requires of { IsSexpOf text.now form.now }
    ensures { result ≡ table_roles.has_head word.now (sexp_form text.now form.now) }
{
    match head(form, text) {
        Some(name) => name == word,
        None => false,
    }
}

/// Whether some form is a list that begins with this word.
pub(crate) fn has_list(forms: &[Sexp], text: &[u8], word: &[u8]) -> bool
    requires of { All (IsSexpOf text.now) forms.now }
    ensures { result ≡ roles.has_list word.now (sexp_forms text.now forms.now) }
{
    for form in forms {
        if has_head(form, text, word) {
            return true;
        }
    }
    false
}

fn ends_variables(form: &Sexp, text: &[u8]) -> bool
    requires of { IsSexpOf text.now form.now }
    ensures { result ≡ roles.ends_variables (sexp_form text.now form.now) }
{
    let pool = has_head(form, text, b"pool");
    let block = has_head(form, text, b"block");
    pool || block
}

/// Whether a variable stands before the pool and the blocks.
pub(crate) fn has_leading_variable(items: &[Sexp], text: &[u8]) -> bool
    requires of { All (IsSexpOf text.now) items.now }
    ensures { result ≡ roles.has_leading_variable (sexp_forms text.now items.now) }
{
    for item in items {
        if has_head(item, text, b"var") {
            return true;
        }
        if ends_variables(item, text) {
            return false;
        }
    }
    false
}

/// Those behind the first so many.
pub(crate) fn behind(items: &[Sexp], count: usize) -> &[Sexp]
    requires within { count ≤ length items.now }
    ensures { result.now ≡ drop count items.now }
{
    &items[count..]
}
