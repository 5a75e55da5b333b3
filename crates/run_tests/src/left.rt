//! Runs over shelves in memory, by what they leave there.
use crate::plain::{Host, Outcome, run_plain};
use mz_num::NoMemory;
use mz_shelf::MemShelf;
use std::alloc::Global;
use std::test::Fail;

/// What the tests look at of a shelf behind a run.
#[derive(Drop)]
pub(crate) struct Left {
    pub(crate) outcome: Outcome,
    pub(crate) said: Vec<u8>,
    pub(crate) best: Option<Vec<u8>>,
}

impl Left {
    pub(crate) fn has_said(&self, said: &[u8]) -> bool {
        self.said.as_slice() == said
    }

    /// The file of the best run has these bytes.
    pub(crate) fn has_best(&self, best: &[u8]) -> bool {
        match &self.best {
            Some(found) => found.as_slice() == best,
            None => false,
        }
    }
}

/// A shelf with these files, some of whose calls fail.
pub(crate) fn shelf_with(
    alloc: Global,
    fails: Vec<u64>,
    cut: usize,
    files: &[(&str, &[u8])],
) -> Result<MemShelf, Fail> {
    let mut shelf = empty_shelf(alloc, fails, cut)?;
    put_files(alloc, &mut shelf, files)?;
    Ok(shelf)
}

// Without a clause a shelf is any shelf to the tests' proofs, and nothing of what it gives is worked out there.

fn empty_shelf(alloc: Global, fails: Vec<u64>, cut: usize) -> Result<MemShelf, NoMemory> {
    MemShelf::new(alloc, fails, cut)
}

/// Puts files on a shelf, in the place of those that have their names.
pub(crate) fn put_files(
    alloc: Global,
    shelf: &mut MemShelf,
    files: &[(&str, &[u8])],
) -> Result<(), Fail> {
    for (name, bytes) in files {
        shelf.put(alloc, name, bytes)?;
    }
    Ok(())
}

/// What a run by one worker leaves on a shelf.
pub(crate) fn left_on(rt: &impl Host, shelf: &mut MemShelf, best: &str) -> Result<Left, Fail> {
    let alloc = rt.alloc();
    let outcome = run_plain(rt, shelf)?;
    let said = Vec::from_slice(alloc, shelf.said())?;
    let best = copy_of(alloc, shelf.file(best))?;
    Ok(Left {
        outcome,
        said,
        best,
    })
}

fn copy_of(alloc: Global, bytes: Option<&[u8]>) -> Result<Option<Vec<u8>>, Fail> {
    match bytes {
        Some(bytes) => Ok(Some(Vec::from_slice(alloc, bytes)?)),
        None => Ok(None),
    }
}

/// What a run leaves whose calls don't fail.
pub(crate) fn left_by(rt: &impl Host, files: &[(&str, &[u8])]) -> Result<Left, Fail> {
    let alloc = rt.alloc();
    let mut shelf = shelf_with(alloc, Vec::new(alloc), 0, files)?;
    left_on(rt, &mut shelf, "output_best.csv")
}
