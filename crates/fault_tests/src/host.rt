//! Runs of the program, and what the tests look at of them.
use mz_crew::OpenGate;
use mz_run::{Finished, Status, code, marzone};
use mz_shelf::MemShelf;
use std::alloc::{AllocError, Global};
use std::sync::Wait;
use std::test::Fail;
use std::thread::Threads;

/// What a run of the program takes of the machine.
pub(crate) trait Host: AllocGlobal + Threads + Wait + Sync {}

impl<R: AllocGlobal + Threads + Wait + Sync> Host for R {}

/// How a run ended.
#[derive(Drop)]
pub(crate) struct Outcome {
    pub(crate) code: u8,
    /// The name that the status bears, empty where it bears none.
    name: String,
    trails: usize,
}

impl Outcome {
    /// Whether the run ended with this exit status, this name in its fault, and the trails of so many runs.
    pub(crate) fn is(&self, code: u8, name: &str, trails: usize) -> bool {
        self.code == code && self.name.as_str() == name && self.trails == trails
    }
}

/// The run of `input.dat` by one worker.
pub(crate) fn run(rt: &impl Host, shelf: &mut MemShelf) -> Result<Outcome, Fail> {
    let alloc = rt.alloc();
    let finished = finished(rt, &words(alloc)?, shelf);
    Ok(Outcome {
        code: code(&finished.status),
        name: name_in(alloc, &finished.status)?,
        trails: finished.trails.len(),
    })
}

fn words(alloc: Global) -> Result<Vec<String>, AllocError> {
    let mut words = Vec::new(alloc);
    words.push(String::from_str(alloc, "input.dat")?)?;
    words.push(String::from_str(alloc, "1")?)?;
    Ok(words)
}

// Without a clause a run is any run to the tests' proofs.

fn finished(rt: &impl Host, words: &[String], shelf: &mut MemShelf) -> Finished {
    let mut watchers = Vec::new(rt.alloc());
    marzone(rt, rt.alloc(), words, 0, shelf, &OpenGate, &mut watchers)
}

fn name_in(alloc: Global, status: &Status) -> Result<String, AllocError> {
    match status {
        Status::ShelfFault(name) => String::from_str(alloc, name.as_str()),
        Status::Absent(name) => String::from_str(alloc, name.as_str()),
        _ => Ok(String::new(alloc)),
    }
}
