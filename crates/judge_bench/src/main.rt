//! Judges moves of a region, and prints how many there were and the sum of their changes of score.
//!
//! Without words it judges a handful of moves of a small region. `judge_bench FILE COUNT` judges so
//! many of the region in that file; `src/region.rt` has the file's form.
#![tactic(auto)]

mod fault;
mod moves;
mod numbers;
mod region;
mod rows;

use fault::Fault;
use moves::judge_moves;
use numbers::Numbers;
use region::region;
use std::alloc::Global;
use std::{env, fs, io};

/// Three units in a row, and one feature of which 4 is asked.
const SMALL: &[u8] = b"3
0 50000 100000  0 100000 200000  0 150000 300000
2  0 1 50000  1 2 70000
1  40000 600000
3  0 0 20000  1 0 30000  2 0 40000";

fn main(rt: HostRuntime) -> io::Result<()> {
    let words: Vec<String> = env::args(&rt)?.skip(1).collect(rt.alloc())?;
    let sum = match words.as_slice() {
        [] => judged(rt.alloc(), SMALL, 6),
        [file, count] => {
            let text = fs::read(&rt, file.as_str())?;
            let count = count.as_str().parse::<u32>().unwrap_or(0);
            judged(rt.alloc(), text.as_slice(), count)
        }
        _ => Err(Fault::Malformed),
    };
    match sum {
        Ok((count, sum)) => println!(rt; "judged {count} sum {sum}")?,
        Err(fault) => println!(rt; "no region: {fault:?}")?,
    }
    Ok(())
}

/// So many moves of the region that a text says, and the sum of their changes.
fn judged(alloc: Global, text: &[u8], count: u32) -> Result<(u32, i128), Fault> {
    let mut numbers = Numbers::read(alloc, text)?;
    let problem = region(alloc, &mut numbers)?;
    let sum = judge_moves(alloc, &problem, count)?;
    Ok((count, sum))
}
