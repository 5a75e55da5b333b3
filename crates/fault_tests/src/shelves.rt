//! Shelves in memory, and what is said on them.
use mz_num::NoMemory;
use mz_shelf::MemShelf;
use std::alloc::{AllocError, Global};
use std::test::Fail;

/// A shelf with these files, of whose calls these fail, each once a write or a say has taken `cut` bytes.
pub(crate) fn shelf_with(
    alloc: Global,
    fails: &[u64],
    cut: usize,
    files: &[(&str, &[u8])],
) -> Result<MemShelf, Fail> {
    let mut shelf = empty_shelf(alloc, Vec::from_slice(alloc, fails)?, cut)?;
    put_files(alloc, &mut shelf, files)?;
    Ok(shelf)
}

// Without a clause a shelf is any shelf to the tests' proofs, and nothing of what it gives is worked out there.

fn empty_shelf(alloc: Global, fails: Vec<u64>, cut: usize) -> Result<MemShelf, NoMemory> {
    MemShelf::new(alloc, fails, cut)
}

/// Puts files on a shelf, in the place of those that have their names.
pub(crate) fn put_files(
    alloc: Global,
    shelf: &mut MemShelf,
    files: &[(&str, &[u8])],
) -> Result<(), Fail> {
    for (name, bytes) in files {
        shelf.put(alloc, name, bytes)?;
    }
    Ok(())
}

/// The line of a refusal.
pub(crate) fn refusal(alloc: Global, text: &str) -> Result<Vec<u8>, AllocError> {
    let mut line = Vec::from_slice(alloc, b"refused: ")?;
    line.extend_from_slice(text.as_bytes())?;
    line.push(b'\n')?;
    Ok(line)
}

/// Whether a refusal with this text is all that was said.
pub(crate) fn is_refused(alloc: Global, shelf: &MemShelf, text: &str) -> Result<bool, Fail> {
    let line = refusal(alloc, text)?;
    Ok(shelf.said() == line.as_slice())
}
