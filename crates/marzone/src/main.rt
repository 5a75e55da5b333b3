//! The program: a reserve planner over the real files of the folder that it runs in.
#![tactic(auto)]

use mz_crew::OpenGate;
use mz_run::{Status, code, marzone};
use mz_shelf::{DirShelf, Shelf};
use mz_watch::{LeastSeen, Tally, Watcher};
use std::alloc::{AllocError, Global};
use std::process::ExitCode;
use std::rt::{Clock, Env};
use std::sync::Wait;
use std::thread::Threads;
use std::time::SystemTime;
use std::{env, io};

fn main(rt: HostRuntime) -> ExitCode {
    let words = match words(&rt) {
        Ok(words) => words,
        Err(error) => return without_words(&error),
    };
    let chance = seconds(&rt);
    let mut shelf = DirShelf::new(&rt, String::new(rt.alloc()));
    let code = run(&rt, rt.alloc(), &words, chance, &mut shelf);
    ExitCode::from(code.unwrap_or(code_without_memory()))
}

/// The program's exit status, with a watcher that counts the accepted entries, and one that looks for the least score
/// of the last run.
fn run<R: Threads + Wait + Sync, S: Shelf>(
    rt: &R,
    alloc: Global,
    words: &[String],
    chance: u64,
    shelf: &mut S,
) -> Result<u8, AllocError> {
    let mut watchers: Vec<Box<dyn Watcher>> = Vec::new(alloc);
    watchers.push(Box::new(alloc, Tally::new())?)?;
    watchers.push(Box::new(alloc, LeastSeen::new())?)?;
    let finished = marzone(rt, alloc, words, chance, shelf, &OpenGate, &mut watchers);
    Ok(code(&finished.status))
}

fn code_without_memory() -> u8 {
    code(&Status::NoMemory)
}

/// The exit status where the words can't be read: that of want of memory, or 1 where one of them isn't UTF-8.
fn without_words(error: &io::Error) -> ExitCode {
    match error.kind() {
        io::ErrorKind::OutOfMemory => ExitCode::from(code_without_memory()),
        _ => ExitCode::FAILURE,
    }
}

/// The words behind the program's name. It fails where one of them isn't UTF-8.
fn words(rt: &(impl Env + AllocGlobal)) -> io::Result<Vec<String>> {
    Ok(env::args(rt)?.skip(1).collect(rt.alloc())?)
}

/// The clock's seconds, or 0 where the clock can't be read.
fn seconds(rt: &impl Clock) -> u64 {
    match SystemTime::now(rt) {
        Ok(now) => now
            .duration_since(SystemTime::UNIX_EPOCH)
            .map_or(0, |since| since.as_secs()),
        Err(_) => 0,
    }
}
