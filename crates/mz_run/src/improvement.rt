//! The plan of a run, improved.
ghost use Rattle.std.specs.Prelude.{◌≡◌, IfOk};
ghost use Rattle.mz_run.specs.End.{IsEnd};
ghost use Rattle.mz_run.specs.Run.{annealed_plan, final_plan, improves};

use crate::job::Job;
use crate::run_end::RunEnd;
use mz_delta::{Judged, Reading};
use mz_improve::improve;
use mz_num::NoMemory;
use mz_params::Params;
use std::alloc::Global;

/// The run with its plan improved, where the mode of the runs asks for it.
pub(crate) fn improved(
    alloc: Global,
    job: &Job,
    run: u32,
    annealed: RunEnd,
) -> Result<RunEnd, NoMemory>
    requires { IsEnd job.now run (annealed_plan job.now run) annealed }
    ensures { IfOk result (IsEnd job.now run (final_plan job.now run)) }
{
    let _ = run;
    if !improves(&job.params) {
        return Ok(annealed);
    }
    let mut reading = Reading::room(alloc, &job.problem)?;
    let mut judged = Judged::room(alloc, &job.problem)?;
    let RunEnd {
        turns,
        mut plan,
        mut totals,
        mut score,
        journal,
    } = annealed;
    improve(
        &job.problem,
        &mut plan,
        &mut totals,
        &mut score,
        &mut reading,
        &mut judged,
    );
    Ok(RunEnd {
        turns,
        plan,
        totals,
        score,
        journal,
    })
}

/// Whether runs end with an improved plan.
fn improves(params: &Params) -> bool
    ensures { result ≡ improves params.now }
{
    params.mode == 1 || params.mode == 4
}
