// Reading the variables of a proc.
ghost use Rattle.std.specs.Prelude.{◌≡◌, ℕ, List, [], All, codes, true, IfOk, IfErr};
ghost use Rattle.text_core.specs.Faults.{IsFaultBy, IsFirst};
ghost use Rattle.forms.specs.Forms.{sexp_form, sexp_forms};
ghost use Rattle.forms.specs.Reading.{IsSexpOf};
ghost use Rattle.machine_table.specs.Roles as table_roles;
ghost use Rattle.goal_reader.specs.Reading.{IsClear};
ghost use Rattle.goal_reader.specs.Roles as goal_roles;
ghost use Rattle.goal_reader.specs.Roles.{IsFaultAs, input_in};
ghost use Rattle.proc_goal.specs.ProcGrammar.{WritesVariable};
ghost use Rattle.proc_goal.specs.ProcReading.{AreLeading, IsFirstAmong};
ghost use Rattle.proc_goal.specs.ProcRoles.{proc_item_role};

use crate::heads::has_head;
use forms::{at, parts, place, sexps_are_forms};
use goal_meaning::InputReg;
use goal_reader::{fresh_register, own_name};
use items::Items;
use std::alloc::Global;
use text_core::{Kind, MOST_INPUTS, Name, Sexp, TextFault};

/// Reads `( var NAME REGISTER )`, behind these variables.
fn variable(
    alloc: Global,
    form: &Sexp,
    text: &[u8],
    vars: &[InputReg],
) -> Result<InputReg, TextFault>
    requires of { IsSexpOf text.now form.now }
    requires head { table_roles.has_head (codes "var") (sexp_form text.now form.now) ≡ true }
    ensures variable { IfOk result (WritesVariable (sexp_form text.now form.now)) }
    ensures clear { IfOk result (λ _. IsClear (goal_roles.a_list (goal_roles.input [] vars.now))
        (sexp_form text.now form.now)) }
    ensures fault { IfErr result (IsFaultBy (IsFirst (IsFaultAs (goal_roles.a_list (goal_roles.input [] vars.now))
        (sexp_form text.now form.now)))) }
{
    sexps_are_forms();
    let Some(parts) = parts(form) else {
        unreachable!();
    };
    if parts.len() < 3 {
        return Err(at(place(form), Kind::BadForm));
    }
    let bytes = own_name(&parts[1], text, &[], vars)?;
    let reg = fresh_register(&parts[2], text, vars)?;
    if parts.len() > 3 {
        return Err(at(place(&parts[3]), Kind::BadForm));
    }
    let name = Name::new(alloc, bytes)?;
    Ok(InputReg { name, reg })
}

/// Reads the variables at the front of a proc's items.
pub(crate) fn variables(
    alloc: Global,
    items: &[Sexp],
    text: &[u8],
) -> Result<Items<InputReg>, TextFault>
    requires of { All (IsSexpOf text.now) items.now }
    ensures variables { IfOk result (AreLeading (sexp_forms text.now items.now)) }
    ensures fault { IfErr result (λ fault. (names : List (List ℕ))
        → IsFaultBy (IsFirstAmong (proc_item_role names) (sexp_forms text.now items.now)) fault) }
{
    sexps_are_forms();
    let mut vars = Items::new(alloc);
    for index in 0..items.len() {
        let item = &items[index];
        if !has_head(item, text, b"var") {
            return Ok(vars);
        }
        if index >= MOST_INPUTS {
            return Err(at(place(item), Kind::LimitPassed));
        }
        let one = variable(alloc, item, text, vars.as_slice())?;
        vars.push(one)?;
    }
    Ok(vars)
}
