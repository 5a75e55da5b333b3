//! The stored project: three units with a target and boundaries, improved, with every file of one run.
use crate::host::{Host, run};
use crate::shelves::{is_refused, put_files, shelf_with};
use mz_shelf::MemShelf;
use std::alloc::Global;
use std::test::Fail;

pub(crate) const INPUT: &[u8] = b"PUNAME pu.dat
FEATNAME feat.dat
PUVSFEATNAME amounts.dat
BOUNDNAME bound.dat
BLM 1
RANDSEED 7
NUMITNS 0
RUNMODE 4
SAVERUN 3
SAVEBEST 3
SAVETARGMET 3
SAVESUMMARY 3
SAVESUMSOLN 3
";

pub(crate) const AMOUNTS: &[u8] = b"species,pu,amount\n1,1,2\n1,2,3\n1,3,4\n";

const FILES: [(&str, &[u8]); 5] = [
    ("input.dat", INPUT),
    ("pu.dat", b"id,cost\n1,10\n2,20\n3,30\n"),
    ("feat.dat", b"id,target,spf,name\n1,4,2,f\n"),
    ("amounts.dat", AMOUNTS),
    ("bound.dat", b"id1,id2,boundary\n1,2,5\n2,3,7\n1,1,2\n"),
];

/// The project, of whose calls these fail.
pub(crate) fn stored(alloc: Global, fails: &[u64], cut: usize) -> Result<MemShelf, Fail> {
    shelf_with(alloc, fails, cut, &FILES)
}

/// The project with these bytes in the place of one of its files.
pub(crate) fn stored_with(alloc: Global, name: &str, bytes: &[u8]) -> Result<MemShelf, Fail> {
    let mut shelf = stored(alloc, &[], 0)?;
    shelf.put(alloc, name, bytes)?;
    Ok(shelf)
}

/// Whether the project with these bytes in the place of a file is refused with this text.
pub(crate) fn refuses(rt: &impl Host, name: &str, bytes: &[u8], text: &str) -> Result<bool, Fail> {
    let alloc = rt.alloc();
    let mut shelf = stored_with(alloc, name, bytes)?;
    let outcome = run(rt, &mut shelf)?;
    Ok(outcome.is(2, "", 0) && is_refused(alloc, &shelf, text)?)
}

/// Whether the project with these bytes in the place of a file is run to a good end, with this last line.
pub(crate) fn accepts(rt: &impl Host, name: &str, bytes: &[u8], last: &str) -> Result<bool, Fail> {
    let mut shelf = stored_with(rt.alloc(), name, bytes)?;
    let outcome = run(rt, &mut shelf)?;
    Ok(outcome.is(0, "", 1) && shelf.said().ends_with(last.as_bytes()))
}
