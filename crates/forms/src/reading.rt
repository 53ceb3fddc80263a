// What a tree of a text says.
ghost use Rattle.std.specs.Prelude.{◌≡◌, ◌+◌, ◌≤◌, ℕ, ⊤, false, All, List, length, Some, None, IfSome, MatchOption};
ghost use Rattle.forms.specs.Forms.{list, place_of, name_in, register_in, number_in, is_list, token_bytes, sexp_form, sexp_forms, forms_from};
ghost use Rattle.forms.specs.Reading.{IsSexpOf};
ghost use Rattle.text_core.specs.Names.{IsName};
ghost use Rattle.text_core.specs.declared.faults.TextFault.TheVariants as answers;

use crate::sexps_are_forms;
use text_core::{Fault, Kind, Sexp, TextFault, Token, TokenKind};

/// A fault at a place.
pub fn at(place: u32, kind: Kind) -> TextFault
    ensures { result ≡ answers.Fault (record { place = place; kind = kind }) }
{
    TextFault::Fault(Fault { place, kind })
}

/// The offset of the first byte.
pub fn place(form: &Sexp) -> u32
    ensures { (text : List ℕ) → result ≡ place_of (sexp_form text form.now) }
{
    sexps_are_forms();
    match form {
        Sexp::Atom(token) => token.place,
        Sexp::List { place, .. } => *place,
    }
}

fn bytes<'a>(token: &Token, text: &'a [u8]) -> &'a [u8]
    requires { token.now.place + token.now.len ≤ length text.now }
    ensures { result.now ≡ token_bytes text.now token.now }
{
    let start = token.place as usize;
    &text[start..start + token.len as usize]
}

/// The bytes of a name.
pub fn name<'a>(form: &Sexp, text: &'a [u8]) -> Option<&'a [u8]>
    requires of { IsSexpOf text.now form.now }
    ensures name { MatchOption result (name_in (sexp_form text.now form.now) ≡ None)
        (λ bytes. name_in (sexp_form text.now form.now) ≡ Some bytes.now) }
    ensures named { IfSome result (λ bytes. IsName bytes.now) }
{
    sexps_are_forms();
    match form {
        Sexp::Atom(token) => match token.kind {
            TokenKind::Name => Some(bytes(token, text)),
            _ => None,
        },
        Sexp::List { .. } => None,
    }
}

/// The bytes of a register, with its dollar sign.
pub fn register<'a>(form: &Sexp, text: &'a [u8]) -> Option<&'a [u8]>
    requires of { IsSexpOf text.now form.now }
    ensures { MatchOption result (register_in (sexp_form text.now form.now) ≡ None)
        (λ bytes. register_in (sexp_form text.now form.now) ≡ Some bytes.now) }
{
    sexps_are_forms();
    match form {
        Sexp::Atom(token) => match token.kind {
            TokenKind::Register => Some(bytes(token, text)),
            _ => None,
        },
        Sexp::List { .. } => None,
    }
}

/// The value of a number.
pub fn number(form: &Sexp) -> Option<u64>
    ensures { (text : List ℕ) → result ≡ number_in (sexp_form text form.now) }
{
    sexps_are_forms();
    match form {
        Sexp::Atom(token) => match token.kind {
            TokenKind::Number(value) => Some(value),
            _ => None,
        },
        Sexp::List { .. } => None,
    }
}

/// The parts of a list. Each is a tree of the same text.
pub fn parts<'a>(form: &'a Sexp) -> Option<&'a [Sexp]>
    ensures parts { (text : List ℕ) → MatchOption result
        (is_list (sexp_form text form.now) ≡ false)
        (λ parts. sexp_form text form.now
        ≡ list (place_of (sexp_form text form.now)) (forms_from (sexp_forms text parts.now))) }
    ensures of { (text : List ℕ) → IsSexpOf text form.now
        → MatchOption result ⊤ (λ parts. All (IsSexpOf text) parts.now) }
{
    sexps_are_forms();
    match form {
        Sexp::Atom(_) => None,
        Sexp::List { parts, .. } => Some(parts.as_slice()),
    }
}
