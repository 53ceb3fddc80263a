// Files that are a case each: the texts of families of axioms.
use case_files::Trouble;
use outside_io::MemSink;
use std::alloc::Global;

/// How many bytes a family's text has at most.
const ROOM: usize = 1 << 16;

/// What the name of a family of axioms writes.
pub(crate) fn family(alloc: Global, input: &[u8]) -> Result<Vec<u8>, Trouble> {
    let Ok(name) = String::from_utf8(input.to_vec(alloc)?) else {
        return Err(Trouble::Unread);
    };
    let mut sink = MemSink::new(alloc, ROOM, ROOM)?;
    axiom_texts::run(alloc, &[name.as_str()], &mut sink);
    Ok(sink.written().to_vec(alloc)?)
}
