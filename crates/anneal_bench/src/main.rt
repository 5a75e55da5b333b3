//! Anneals the first run of a project, and prints how often its workers passed each point of their gate, and the score
//! of the annealed plan.
//!
//! `anneal_bench FILE WORKERS` has the words of marzone itself. Each proposal passes a look, a judgement and a commit,
//! and is decided, or proposed again where its reading was overtaken; the last commit of each worker finds the journal
//! full. How often a worker finds another one's turn isn't counted: it waits for its own within the same commit, and
//! passes no point there.
#![tactic(auto)]

mod annealing;
mod counts;
mod report;

use annealing::{Fault, annealed};
use counts::Counts;
use mz_shelf::{DirShelf, Shelf};
use report::report;
use std::alloc::Global;
use std::io::Write;
use std::sync::Wait;
use std::thread::Threads;
use std::{env, io};

fn main(rt: HostRuntime) -> io::Result<()> {
    let words: Vec<String> = env::args(&rt)?.skip(1).collect(rt.alloc())?;
    let mut shelf = DirShelf::new(&rt, String::new(rt.alloc()));
    match counted(&rt, rt.alloc(), &words, &mut shelf) {
        Ok(text) => io::writer(&rt).write_all(&text),
        Err(fault) => println!(rt; "no run: {fault:?}"),
    }
}

/// What is printed of the run that words ask for.
fn counted<R: Threads + Wait + Sync, S: Shelf>(
    rt: &R,
    alloc: Global,
    words: &[String],
    shelf: &mut S,
) -> Result<Vec<u8>, Fault> {
    let counts = Counts::new();
    let closed = annealed(rt, alloc, words, shelf, &counts)?;
    let text = report(alloc, counts.passes(), closed.score.total)?;
    Ok(text)
}
