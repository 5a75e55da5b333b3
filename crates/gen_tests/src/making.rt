//! The project that is made, and the words that ask for one.
use crate::runs::{Host, finished, texts};
use mz_crew::OpenGate;
use mz_num::NoMemory;
use mz_run::{Job, Status, code, prepare};
use mz_shelf::MemShelf;
use std::alloc::Global;
use std::test::Fail;

/// The number that words ask to make a project of; none where they have no form.
fn number_asked(alloc: Global, number: &str) -> Result<Option<u32>, Fail> {
    let words = texts(alloc, &["gen", number])?;
    let mut shelf = empty_shelf(alloc, &[])?;
    let Ok(job) = job_of(alloc, &words, &mut shelf) else {
        return Ok(None);
    };
    Ok(job.generated)
}

// Without a clause a job and a shelf are any to the tests' proofs.

fn job_of(alloc: Global, words: &[String], shelf: &mut MemShelf) -> Result<Job, Status> {
    prepare(alloc, words, 0, shelf)
}

pub(crate) fn empty_shelf(alloc: Global, fails: &[u64]) -> Result<MemShelf, NoMemory> {
    let fails = Vec::from_slice(alloc, fails)?;
    MemShelf::new(alloc, fails, 0)
}

#[test]
fn numbers_of_projects_are_taken(rt: HostRuntime) -> Result<(), Fail> {
    let alloc = rt.alloc();
    assert!(rt; number_asked(alloc, "0")? == Some(0));
    assert!(rt; number_asked(alloc, "0000000007")? == Some(7));
    assert!(rt; number_asked(alloc, "2147483647")? == Some(2_147_483_647));
    Ok(())
}

#[test]
fn other_words_behind_gen_have_no_form(rt: HostRuntime) -> Result<(), Fail> {
    let alloc = rt.alloc();
    assert!(rt; number_asked(alloc, "2147483648")? == None);
    assert!(rt; number_asked(alloc, "x")? == None);
    assert!(rt; number_asked(alloc, "00000000007")? == None);
    assert!(rt; number_asked(alloc, "-1")? == None);
    Ok(())
}

/// What is left of a project whose fourth file can't be written: its exit status and the number of its trails.
fn cut_short(rt: &impl Host, shelf: &mut MemShelf) -> Result<(u8, usize), Fail> {
    let words = texts(rt.alloc(), &["gen", "7"])?;
    let finished = finished(rt, &words, shelf, &OpenGate);
    Ok((code(&finished.status), finished.trails.len()))
}

fn ends(file: Option<&[u8]>, back: &[u8]) -> bool {
    match file {
        Some(bytes) => bytes.ends_with(back),
        None => false,
    }
}

#[test]
fn a_file_that_fails_ends_the_making(rt: HostRuntime) -> Result<(), Fail> {
    let mut shelf = empty_shelf(rt.alloc(), &[3])?;
    let (code, trails) = cut_short(&rt, &mut shelf)?;
    assert_eq!(rt; code, 3);
    assert_eq!(rt; trails, 0);
    assert!(rt; shelf.said() == b"refused: fault: zonecost.dat\n".as_slice());
    assert!(rt; ends(shelf.file("input.dat"), b"\nSAVETURNS 2\n"));
    assert!(rt; ends(shelf.file("zones.dat"), b"\n3,full\n"));
    assert!(rt; ends(shelf.file("pu.dat"), b"\n2000,19\n"));
    assert!(rt; shelf.file("zonecost.dat") == Some(b"".as_slice()));
    assert!(rt; shelf.file("feat.dat").is_none());
    Ok(())
}
