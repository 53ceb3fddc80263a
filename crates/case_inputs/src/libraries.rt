// Libraries that cases name.
use axiom_library::{Library, family_named};
use case_files::{Trouble, Words};

/// The library of the families whose names are left.
pub fn library_in(words: &mut Words) -> Result<Library, Trouble> {
    let mut library = Library::none();
    for _ in 0..words.rest.len() {
        let Some(name) = words.next() else {
            break;
        };
        match family_named(name) {
            Some(family) => library = library.with(family),
            None => return Err(Trouble::Unread),
        }
    }
    Ok(library)
}
