// The line that names the families of a library.
ghost use Rattle.std.specs.Prelude.{◌≡◌, ◌<◌, ◌≤◌, ◌++◌, List, drop, length, map, IfOk, IfErr, OnOk, MatchOption};
ghost use Rattle.axiom_library.specs.Libraries as libraries;
ghost use Rattle.axiom_library.specs.Names.{family_name};
ghost use Rattle.axiom_library.specs.declared.families.Family.{Family as FamilyOf};
ghost use Rattle.launch_graph.specs.LineParts.{words_behind};
ghost use Rattle.text_core.specs.Faults.{IsFaultBy};
ghost use Rattle.text_core.specs.Lines.{line_at};
ghost use Rattle.text_core.specs.LineTexts.{SaysNone, lines_text};
ghost use Rattle.answer_texts.specs.AnswerLines as format;
ghost use Rattle.answer_texts.specs.AnswerParts.{IsLibrary, LibraryFault, LibraryPart};

use crate::line_reading::bad_line;
use axiom_library::{
    FAMILIES, Family, Library, families_have_names, family_named, libraries_have_families,
};
use items::{Items, NoMemory};
use std::alloc::Global;
use text_core::{TextFault, TextLines, begins_with, put, put_word};

/// The families that the words behind the first one name.
fn families_named(
    alloc: Global,
    text: &TextLines<'_>,
    line: u32,
) -> Result<Option<Items<Family>>, NoMemory>
    requires { line < length text.now }
    ensures { IfOk result (λ found. MatchOption found
        ((families : List FamilyOf) → drop 1 (line_at text.now line).words ≡ map family_name families → ⊥)
        (λ families. drop 1 (line_at text.now line).words ≡ map family_name families)) }
{
    families_have_names();
    let mut families = Items::new(alloc);
    for word in 1..text.words(line) {
        match family_named(text.word(line, word)) {
            Some(family) => families.push(family)?,
            None => return Ok(None),
        }
    }
    Ok(Some(families))
}

/// The library of these families.
fn library_of(families: &[Family]) -> Library
    ensures { result ≡ libraries.library_of families.now }
{
    let mut library = Library::none();
    for family in families {
        library = library.with(*family);
    }
    library
}

/// The families of the library, in their order.
fn families(alloc: Global, library: Library) -> Result<Items<Family>, NoMemory>
    ensures { IfOk result (λ families. families ≡ format.listed_families library) }
{
    let mut families = Items::new(alloc);
    for family in &FAMILIES {
        if library.has(*family) {
            families.push(*family)?;
        }
    }
    Ok(families)
}

/// The library whose line this is.
fn library_line(alloc: Global, text: &TextLines<'_>, line: u32) -> Result<Option<Library>, NoMemory>
    requires { line < length text.now }
    ensures { IfOk result (λ found. MatchOption found (SaysNone IsLibrary (line_at text.now line).words)
        (IsLibrary (line_at text.now line).words)) }
{
    families_have_names();
    libraries_have_families();
    if !begins_with(text, line, b"library") {
        return Ok(None);
    }
    let Some(named) = families_named(alloc, text, line)? else {
        return Ok(None);
    };
    if named.is_empty() {
        return Ok(None);
    }
    let library = library_of(named.as_slice());
    let ordered = families(alloc, library)?;
    if named.as_slice() == ordered.as_slice() {
        Ok(Some(library))
    } else {
        Ok(None)
    }
}

/// The library that a line names, and the line behind it. Where no line begins so, it has no families.
pub(crate) fn read_library(
    alloc: Global,
    text: &TextLines<'_>,
    from: u32,
) -> Result<(Library, u32), TextFault>
    requires { from ≤ length text.now }
    ensures ok { IfOk result (λ p. LibraryPart text.now from p.1 p.0) }
    ensures fault { IfErr result (IsFaultBy (LibraryFault text.now from)) }
{
    if from == text.count() {
        return Ok((Library::none(), from));
    }
    if !begins_with(text, from, b"library") {
        return Ok((Library::none(), from));
    }
    match library_line(alloc, text, from)? {
        Some(library) => Ok((library, from + 1)),
        None => Err(bad_line(text, from)),
    }
}

/// The names of families, each with a space before it.
#[tactic(auto, using(crate::proofs::PrintPieces::word_more))]
fn put_names(text: &mut Vec<u8>, families: &[Family]) -> Result<(), NoMemory>
    ensures { OnOk result (text.new.items ≡ text.old.items ++ words_behind (map family_name families.now)) }
{
    for family in families {
        put_word(text, family.name())?;
    }
    Ok(())
}

/// Appends the line of families, if there are some.
fn put_line(text: &mut Vec<u8>, families: &[Family]) -> Result<(), NoMemory>
    ensures { OnOk result (text.new.items ≡ text.old.items ++ lines_text (format.families_lines families.now)) }
{
    if families.is_empty() {
        return Ok(());
    }
    put(text, b"library")?;
    put_names(text, families)?;
    put(text, b"\n")
}

/// Appends the line of a library that has families.
pub(crate) fn put_library(
    alloc: Global,
    text: &mut Vec<u8>,
    library: Library,
) -> Result<(), NoMemory>
    ensures { OnOk result (text.new.items ≡ text.old.items ++ lines_text (format.library_lines library)) }
{
    put_line(text, families(alloc, library)?.as_slice())
}
