// The rules that a library asks for.
ghost use Rattle.std.specs.Prelude.{◌≡◌, if◌then◌else◌, [], IfOk, filter, flat_map, map};
ghost use Rattle.goal_meaning.specs.Views.{axiom_view};
ghost use Rattle.axiom_library.specs.Asked as meant;
ghost use Rattle.axiom_library.specs.Asked.{asked_axioms, asked_equations, asked_kinds};
ghost use Rattle.axiom_library.specs.Libraries.{has_family};

use crate::families::{FAMILIES, Family, axioms};
use crate::libraries::Library;
use crate::unaligned::unaligned;
use axiom_base::{Calc, FURTHER_KINDS, Rule};
use goal_meaning::Axiom;
use items::{Items, NoMemory};
use std::alloc::Global;

/// The axioms of the family, if the library asks for it.
fn axioms_if_asked(
    alloc: Global,
    library: Library,
    family: Family,
) -> Result<Items<Axiom>, NoMemory>
    ensures { IfOk result (λ axioms. map axiom_view axioms
        ≡ (if has_family library family then meant.option_axioms family else [])) }
{
    if !library.has(family) {
        return Ok(Items::new(alloc));
    }
    match family {
        Family::Sums => Ok(Items::new(alloc)),
        _ => axioms(alloc, family),
    }
}

/// The equations of the family, if the library asks for it.
fn equations_if_asked(
    alloc: Global,
    library: Library,
    family: Family,
) -> Result<Vec<Rule>, NoMemory>
    ensures { IfOk result (λ rules. rules.items
        ≡ (if has_family library family then meant.equations_of family else [])) }
{
    if !library.has(family) {
        return Ok(Vec::new(alloc));
    }
    match family {
        Family::Unaligned => unaligned(alloc),
        _ => Ok(Vec::new(alloc)),
    }
}

/// The family that the kind of computed rules is of. None for those that serve every text.
pub fn family_of_kind(kind: Calc) -> Option<Family>
    ensures { result ≡ meant.family_of_kind kind }
{
    match kind {
        Calc::C13 | Calc::C14 | Calc::C15 | Calc::C16 => Some(Family::Masks),
        Calc::C17 => Some(Family::Sums),
        Calc::C18
        | Calc::C19
        | Calc::C20
        | Calc::C26
        | Calc::C27
        | Calc::C28
        | Calc::C29
        | Calc::C30
        | Calc::C31 => Some(Family::Fields),
        Calc::C21
        | Calc::C22
        | Calc::C23
        | Calc::C24
        | Calc::C25
        | Calc::C32
        | Calc::C33
        | Calc::C34 => Some(Family::Products),
        Calc::C35 | Calc::C36 | Calc::C37 => Some(Family::Constants),
        _ => None,
    }
}

fn is_asked(library: Library, family: Option<Family>) -> bool
    ensures { result ≡ meant.is_asked library family }
{
    match family {
        Some(family) => library.has(family),
        None => false,
    }
}

/// The axioms of those of the families that the library asks for.
fn axioms_of_asked(
    alloc: Global,
    library: Library,
    families: &[Family],
) -> Result<Vec<Axiom>, NoMemory>
    ensures { IfOk result (λ axioms. map axiom_view axioms.items
        ≡ flat_map (λ family. if has_family library family then meant.option_axioms family else []) families.now) }
{
    let mut all = Vec::new(alloc);
    for family in families {
        let mut one = axioms_if_asked(alloc, library, *family)?.into_vec();
        all.append(&mut one)?;
    }
    Ok(all)
}

/// The equations of those of the families that it asks for.
fn equations_of_asked(
    alloc: Global,
    library: Library,
    families: &[Family],
) -> Result<Vec<Rule>, NoMemory>
    ensures { IfOk result (λ rules. rules.items
        ≡ flat_map (λ family. if has_family library family then meant.equations_of family else []) families.now) }
{
    let mut all = Vec::new(alloc);
    for family in families {
        let mut one = equations_if_asked(alloc, library, *family)?;
        all.append(&mut one)?;
    }
    Ok(all)
}

/// Those of the kinds that it asks for.
#[tactic(auto, using(crate::proofs::AskedSteps::kinds_more))]
fn kinds_of_asked(alloc: Global, library: Library, kinds: &[Calc]) -> Result<Items<Calc>, NoMemory>
    ensures { IfOk result (λ asked. asked
        ≡ filter (λ kind. meant.is_asked library (meant.family_of_kind kind)) kinds.now) }
{
    let mut asked = Items::new(alloc);
    for kind in kinds {
        if is_asked(library, family_of_kind(*kind)) {
            asked.push(*kind)?;
        }
    }
    Ok(asked)
}

/// The axioms that the library asks for, in the order of the families.
#[tactic(auto, using(crate::proofs::AskedSteps::axioms_asked))]
pub fn library_axioms(alloc: Global, library: Library) -> Result<Items<Axiom>, NoMemory>
    ensures { IfOk result (λ axioms. map axiom_view axioms ≡ asked_axioms library) }
{
    let all = axioms_of_asked(alloc, library, &FAMILIES)?;
    Ok(Items::from(all))
}

/// The equations that it asks for beside these, which no text can have: their variables are memories, too.
#[tactic(auto, using(crate::proofs::AskedSteps::equations_asked))]
pub fn library_equations(alloc: Global, library: Library) -> Result<Items<Rule>, NoMemory>
    ensures { IfOk result (λ rules. rules ≡ asked_equations library) }
{
    let all = equations_of_asked(alloc, library, &FAMILIES)?;
    Ok(Items::from(all))
}

/// The kinds of computed rules that it asks for, in the order of their numbers.
pub fn library_kinds(alloc: Global, library: Library) -> Result<Items<Calc>, NoMemory>
    ensures { IfOk result (λ kinds. kinds ≡ asked_kinds library) }
{
    kinds_of_asked(alloc, library, &FURTHER_KINDS)
}
