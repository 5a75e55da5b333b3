//! What is counted over the runs of a job.
ghost use Rattle.std.specs.Prelude.{◌≡◌, ℕ, ◌<◌, ◌≤◌, ◌++◌, ◌∷◌, [], List, IfOk, OnOk, length};
ghost use Rattle.mz_num.specs.Limits.{most_proposals, most_runs};
ghost use Rattle.mz_model.specs.Plans.{IsLegalPlan};
ghost use Rattle.mz_delta.specs.Reading.{totals_of_plan};
ghost use Rattle.mz_sums.specs.Sums.{sums_of};
ghost use Rattle.mz_run.specs.Acts.{summary_row};
ghost use Rattle.mz_run.specs.Ran.{HasCounted};
ghost use Rattle.mz_run.specs.Run.{final_plan};

use crate::job::Job;
use mz_files::{RunTrail, SummaryRow, missing_rows, shortfall};
use mz_model::Plan;
use mz_num::NoMemory;
use mz_sums::Summed;
use std::alloc::Global;

/// A summary row for each run, and how many of their plans give each unit each zone.
#[derive(Drop)]
pub(crate) struct Counted {
    pub(crate) rows: Vec<SummaryRow>,
    pub(crate) summed: Summed,
}

impl Counted {
    /// No run is counted yet.
    pub(crate) fn open(alloc: Global, job: &Job) -> Result<Counted, NoMemory>
        ensures { IfOk result (HasCounted job.now []) }
    {
        let summed = Summed::open(alloc, &job.problem)?;
        Ok(Counted {
            rows: Vec::new(alloc),
            summed,
        })
    }

    /// One run more has this row.
    pub(crate) fn add_row(&mut self, row: SummaryRow) -> Result<(), NoMemory>
        ensures rows { OnOk result (self.new.rows.items ≡ self.old.rows.items ++ row ∷ []) }
        ensures summed { self.new.summed ≡ self.old.summed }
    {
        Ok(self.rows.push(row)?)
    }

    /// One run more ends with this plan.
    pub(crate) fn add_plan(&mut self, plan: &Plan)
        requires few { self.old.summed.added < most_runs }
        requires legal { IsLegalPlan self.old.summed.parts plan.now }
        ensures rows { self.new.rows.items ≡ self.old.rows.items }
        ensures summed { (plans : List (List ℕ)) → self.old.summed ≡ sums_of self.old.summed.parts plans
            → self.new.summed ≡ sums_of self.old.summed.parts (plans ++ plan.now ∷ []) }
    {
        self.summed.add(plan);
    }
}

/// What the summary says of a run, where `totals` is what its plan holds.
pub(crate) fn summary_row(job: &Job, trail: &RunTrail, totals: &[u64]) -> SummaryRow
    requires few { length trail.now.turns ≤ most_proposals }
    requires totals { totals.now
        ≡ totals_of_plan job.now.problem (final_plan job.now trail.now.run trail.now.turns) }
    ensures { result ≡ summary_row job.now trail.now }
{
    SummaryRow {
        run: trail.run,
        score: trail.score,
        shortfall: shortfall(&job.problem, totals),
        missing: missing_rows(&job.problem, totals, job.params.miss_level),
        entries: trail.turns.len() as u32,
        seed: trail.seed,
    }
}
