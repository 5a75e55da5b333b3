//! What is printed of a run.
ghost use Rattle.std.specs.Prelude.{◌≡◌, ◌++◌, codes, decimal, IfOk, OnOk};
ghost use Rattle.anneal_bench.specs.Report.{count_line, report_text};

use crate::counts::Passes;
use mz_num::{NoMemory, push_bytes, push_number, write_ten4};
use std::alloc::Global;

/// A line for each count, and one for the score of the annealed plan, in ten-thousandths.
#[tactic(auto, unfolding(crate::specs::Report::report_text))]
pub fn report(alloc: Global, passes: Passes, score: u128) -> Result<Vec<u8>, NoMemory>
    ensures { IfOk result (λ text. text.items ≡ report_text passes score) }
{
    let mut text = Vec::new(alloc);
    push_count(&mut text, "looks", passes.looks)?;
    push_count(&mut text, "judged", passes.judged)?;
    push_count(&mut text, "commits", passes.commits)?;
    push_count(&mut text, "decided", passes.decided)?;
    push_count(&mut text, "again", passes.overtaken)?;
    push_bytes(&mut text, b"score ")?;
    write_ten4(alloc, score, &mut text)?;
    push_bytes(&mut text, b"\n")?;
    Ok(text)
}

fn push_count(text: &mut Vec<u8>, name: &str, count: u64) -> Result<(), NoMemory>
    ensures { OnOk result (text.new.items ≡ text.old.items ++ count_line name.now count) }
{
    push_bytes(text, name.as_bytes())?;
    push_bytes(text, b" ")?;
    push_number(text, count)?;
    push_bytes(text, b"\n")
}
