//! The summary of all runs.
ghost use Rattle.std.specs.Prelude.{◌≡◌, ◌++◌, IfOk, OnOk};
ghost use Rattle.mz_files.specs.Summary.{score_fields, summary_line, summary_text};

use crate::fields::{push_amount_field, push_number_field};
use mz_model::Score;
use mz_num::{NoMemory, push_bytes, push_number};
use std::alloc::Global;

/// What the summary says of a run.
#[derive(Clone, Copy, Debug, PartialEq, Eq)]
pub struct SummaryRow {
    /// The number of the run, from 1.
    pub run: u32,
    /// The score of the run's plan.
    pub score: Score,
    /// The shortfall of all target rows, in ten-thousandths.
    pub shortfall: u128,
    /// The number of target rows that aren't met.
    pub missing: u32,
    /// The number of entries in the run's journal.
    pub entries: u32,
    /// The random seed.
    pub seed: u64,
}

/// A header, and a line for each run: its number, its score with the three parts, what its plan misses, how
/// many target rows aren't met, how many entries it has, and the random seed.
#[tactic(auto, unfolding(crate::specs::Summary::summary_text))]
pub fn summary_text(alloc: Global, rows: &[SummaryRow]) -> Result<Vec<u8>, NoMemory>
    ensures { IfOk result (λ text. text.items ≡ summary_text rows.now) }
{
    let mut text = Vec::from_slice(
        alloc,
        b"run,score,cost,boundary,penalty,shortfall,missing,entries,seed\n",
    )?;
    for row in rows {
        push_row(alloc, &mut text, row)?;
    }
    Ok(text)
}

fn push_row(alloc: Global, text: &mut Vec<u8>, row: &SummaryRow) -> Result<(), NoMemory>
    ensures { OnOk result (text.new.items ≡ text.old.items ++ summary_line row.now) }
{
    push_number(text, u64::from(row.run))?;
    push_score_fields(alloc, text, &row.score)?;
    push_amount_field(alloc, text, row.shortfall)?;
    push_number_field(text, u64::from(row.missing))?;
    push_number_field(text, u64::from(row.entries))?;
    push_number_field(text, row.seed)?;
    push_bytes(text, b"\n")
}

fn push_score_fields(alloc: Global, text: &mut Vec<u8>, score: &Score) -> Result<(), NoMemory>
    ensures { OnOk result (text.new.items ≡ text.old.items ++ score_fields score.now) }
{
    push_amount_field(alloc, text, score.total)?;
    push_amount_field(alloc, text, score.cost)?;
    push_amount_field(alloc, text, score.boundary)?;
    push_amount_field(alloc, text, score.penalty)
}
