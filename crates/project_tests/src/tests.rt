//! Small projects, read from shelves in memory.
mod faults;
mod limits;
mod problems;
mod reads;
mod scores;
mod target_faults;

use mz_model::Problem;
use mz_num::NoMemory;
use mz_project::{InputFault, ReadFault, What, Which, read_params, read_project};
use mz_shelf::MemShelf;
use mz_tables::RowFault;
use std::alloc::Global;
use std::test::Fail;

/// The problem, or why there is none.
type Reading = Result<Problem, ReadFault>;

/// Three units of one cost.
const UNITS: (&str, &str) = ("pu.dat", "id,cost\n1,10\n2,20\n3,30\n");

/// A feature of which 4 is asked, what the units have of it, and their boundaries.
const FEATURES: (&str, &str) = ("feat.dat", "id,target,spf,name\n1,4,2,f\n");

const AMOUNTS: (&str, &str) = ("amounts.dat", "species,pu,amount\n1,1,2\n1,2,3\n1,3,4\n");

const BOUNDS: (&str, &str) = ("bound.dat", "id1,id2,boundary\n1,2,5\n2,3,7\n1,1,2\n");

// A test knows nothing of what it reads: no helper has a clause, one function owns what was read, and tests
// ask it by closures that answer small values.

/// What `look` tells of the project that these files give, with a parameter file of these lines behind the
/// name of the unit file.
fn ask<T, F: Fn(&Reading) -> T + Drop>(
    alloc: Global,
    lines: &str,
    files: &[(&str, &str)],
    look: F,
) -> Result<T, Fail>
    requires { F.IsAlwaysCallable look }
{
    ask_failing(alloc, Vec::new(alloc), lines, files, look)
}

/// The same, where these calls on the shelf fail.
fn ask_failing<T, F: Fn(&Reading) -> T + Drop>(
    alloc: Global,
    fails: Vec<u64>,
    lines: &str,
    files: &[(&str, &str)],
    look: F,
) -> Result<T, Fail>
    requires { F.IsAlwaysCallable look }
{
    let mut shelf = empty_shelf(alloc, fails)?;
    fill(alloc, &mut shelf, lines, files)?;
    Ok(look_on(alloc, &mut shelf, look))
}

/// What `look` tells of the project on a shelf.
fn look_on<T, F: Fn(&Reading) -> T + Drop>(alloc: Global, shelf: &mut MemShelf, look: F) -> T
    requires { F.IsAlwaysCallable look }
{
    let reading = read(alloc, shelf);
    look(&reading)
}

fn empty_shelf(alloc: Global, fails: Vec<u64>) -> Result<MemShelf, NoMemory> {
    MemShelf::new(alloc, fails, 0)
}

fn fill(
    alloc: Global,
    shelf: &mut MemShelf,
    lines: &str,
    files: &[(&str, &str)],
) -> Result<(), Fail> {
    put_input(alloc, shelf, lines)?;
    put_files(alloc, shelf, files)
}

fn put_input(alloc: Global, shelf: &mut MemShelf, lines: &str) -> Result<(), Fail> {
    let mut input = String::from_str(alloc, "PUNAME pu.dat\n")?;
    input.push_str(lines)?;
    shelf.put(alloc, "input.dat", input.as_bytes())?;
    Ok(())
}

fn put_files(alloc: Global, shelf: &mut MemShelf, files: &[(&str, &str)]) -> Result<(), Fail> {
    for (name, text) in files {
        shelf.put(alloc, name, text.as_bytes())?;
    }
    Ok(())
}

fn read(alloc: Global, shelf: &mut MemShelf) -> Reading {
    let params = read_params(alloc, shelf, "input.dat")?;
    read_project(alloc, shelf, &params)
}

/// Why the project is refused; none where it isn't.
fn fault_of(
    alloc: Global,
    lines: &str,
    files: &[(&str, &str)],
) -> Result<Option<InputFault>, Fail> {
    ask(alloc, lines, files, |reading| refusal(reading))
}

fn refusal(reading: &Reading) -> Option<InputFault> {
    match reading {
        Err(ReadFault::Input(fault)) => Some(*fault),
        _ => None,
    }
}

/// Whether nothing stands against the project.
fn is_taken(alloc: Global, lines: &str, files: &[(&str, &str)]) -> Result<bool, Fail> {
    ask(alloc, lines, files, |reading| reading.is_ok())
}

/// Whether the project is refused for this fault.
fn is_refused(
    alloc: Global,
    lines: &str,
    files: &[(&str, &str)],
    fault: InputFault,
) -> Result<bool, Fail> {
    Ok(fault_of(alloc, lines, files)? == Some(fault))
}

/// Whether the project is refused for a row of this file.
fn has_bad_row(
    alloc: Global,
    lines: &str,
    files: &[(&str, &str)],
    which: Which,
    fault: RowFault,
) -> Result<bool, Fail> {
    is_refused(alloc, lines, files, InputFault::Row(which, fault))
}

/// Whether this quantity of the project is above its limit.
fn is_above(alloc: Global, lines: &str, files: &[(&str, &str)], what: What) -> Result<bool, Fail> {
    is_refused(alloc, lines, files, InputFault::Sum(what))
}
