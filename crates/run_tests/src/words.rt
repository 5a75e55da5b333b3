//! Words of the command line.
use crate::plain::{Host, Outcome, SAID, project, run};
use mz_shelf::MemShelf;
use std::alloc::Global;
use std::test::Fail;

/// A run of these words over this shelf.
fn run_words(rt: &impl Host, words: &[&str], shelf: &mut MemShelf) -> Result<Outcome, Fail> {
    let alloc = rt.alloc();
    let mut texts = Vec::new(alloc);
    for word in words {
        texts.push(String::from_str(alloc, word)?)?;
    }
    Ok(run(rt, &texts, shelf)?)
}

/// The words have no form: over a shelf whose second call would fail nothing is read, and the refusal is
/// all that is said.
fn have_no_form(rt: &impl Host, words: &[&str]) -> Result<bool, Fail> {
    let alloc = rt.alloc();
    let mut shelf = project(alloc, &[1], 0)?;
    are_refused(rt, words, &mut shelf)
}

fn are_refused(rt: &impl Host, words: &[&str], shelf: &mut MemShelf) -> Result<bool, Fail> {
    let outcome = run_words(rt, words, shelf)?;
    Ok(
        outcome.code == 1
            && !outcome.has_job
            && shelf.faults() == 0
            && shelf.reads().is_empty()
            && shelf.said() == b"refused: words: use [file [workers]] or gen number\n".as_slice(),
    )
}

#[test]
fn other_words_have_no_form(rt: HostRuntime) -> Result<(), Fail> {
    assert!(rt; have_no_form(&rt, &["a", "0"])?);
    assert!(rt; have_no_form(&rt, &["a", "61"])?);
    assert!(rt; have_no_form(&rt, &["a", "1", "b"])?);
    assert!(rt; have_no_form(&rt, &["gen", "x"])?);
    assert!(rt; have_no_form(&rt, &["a", "4294967297"])?);
    assert!(rt; have_no_form(&rt, &["a", "00000000001"])?);
    Ok(())
}

/// The project is run by these words, with its usual lines.
fn run_the_project(rt: &impl Host, words: &[&str]) -> Result<bool, Fail> {
    let mut shelf = project(rt.alloc(), &[], 0)?;
    let outcome = run_words(rt, words, &mut shelf)?;
    Ok(outcome.code == 0 && outcome.has_job && shelf.said() == SAID)
}

#[test]
fn a_file_is_run_by_any_number_of_workers(rt: HostRuntime) -> Result<(), Fail> {
    assert!(rt; run_the_project(&rt, &[])?);
    assert!(rt; run_the_project(&rt, &["input.dat"])?);
    assert!(rt; run_the_project(&rt, &["input.dat", "01"])?);
    assert!(rt; run_the_project(&rt, &["input.dat", "2"])?);
    assert!(rt; run_the_project(&rt, &["input.dat", "4"])?);
    assert!(rt; run_the_project(&rt, &["input.dat", "60"])?);
    Ok(())
}
