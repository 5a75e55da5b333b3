//! The turns of a run, played anew on a kept state.
ghost use Rattle.std.specs.Prelude.{◌≡◌, ◌<◌, ◌≤◌, length, IfOk, IfSome};
ghost use Rattle.mz_params.specs.ParamFile.{IsAccepted};
ghost use Rattle.mz_model.specs.Parts.{unit_count};
ghost use Rattle.mz_model.specs.Zones.{counts_of, free_units};
ghost use Rattle.mz_delta.specs.Rooms.{FitsJudged, FitsReading};
ghost use Rattle.mz_draw.specs.Draws.{draw_at};
ghost use Rattle.mz_history.specs.Rules.{IsRules};
ghost use Rattle.gen_tests.specs.Play.{IsPlay};

use mz_delta::{Judged, Reading, judge};
use mz_draw::{Draw, Drawer};
use mz_files::solution_text;
use mz_history::{Entry, Rules};
use mz_model::Problem;
use mz_num::NoMemory;
use mz_run::Job;
use mz_state::{Closed, Kept, rules_of};
use std::alloc::Global;

/// The draw of that number of the seat's, in run 1.
fn draw_of(problem: &Problem, seed: u64, seat: u8, number: u64) -> Draw
    requires seats { seat < 60 }
    requires some_free { 0 < length (free_units problem.now) }
    requires few { number ≤ 10000000 }
    ensures draw { result ≡ draw_at seed 1 seat (free_units problem.now) (counts_of problem.now) number }
    ensures in_range { result.unit < unit_count problem.now }
{
    let mut drawer = Drawer::new(seed, 1, seat);
    drawer.skip(number);
    drawer.next(problem.free(), problem.counts())
}

/// Decides the seat's next draw, where there is room for it: one look, one judgement, and it is applied.
fn decide(
    problem: &Problem,
    rules: &Rules,
    seed: u64,
    kept: &mut Kept,
    seat: u8,
    reading: &mut Reading,
    judged: &mut Judged,
) -> bool
    // A state of this problem under these rules, and one of its seats.
    requires play { IsPlay problem.now rules.now seed kept.old }
    requires seats { seat < 60 }

    // The rooms fit.
    requires reading { FitsReading problem.now reading.old }
    requires judged { FitsJudged problem.now judged.now }

    // All stays so.
    ensures play { IsPlay problem.now rules.now seed kept.new }
    ensures reading { FitsReading problem.now reading.new }
    ensures judged { FitsJudged problem.now judged.exit.now }
{
    let number = kept.next_draw(seat);
    if kept.length() >= rules.limit || number > 10_000_000 {
        return false;
    }
    let draw = draw_of(problem, seed, seat, number);
    kept.look(problem, seat, draw.unit, reading);
    judge(problem, reading, draw, judged);
    let steps = rules.stairs.steps_above(judged.word);
    kept.apply_on(problem, rules, judged, steps);
    true
}

/// A run that was played: its journal, and the best file of its plan.
#[derive(Drop)]
pub(crate) struct Played {
    pub(crate) journal: Vec<Entry>,
    pub(crate) best: Vec<u8>,
}

/// Run 1 of a job, as these turns play it; none where one of them can't be played.
pub(crate) fn play(alloc: Global, job: &Job, turns: &[u8]) -> Result<Option<Played>, NoMemory>
    requires { IsAccepted job.now.params }
{
    if job.problem.free().is_empty() {
        return Ok(None);
    }
    let rules = rules_of(alloc, &job.problem, &job.params, job.seed, 1)?;
    match play_by(alloc, &job.problem, &rules, job.seed, turns)? {
        Some(kept) => Ok(Some(read_off(alloc, &job.problem, &rules, job.seed, kept)?)),
        None => Ok(None),
    }
}

fn play_by(
    alloc: Global,
    problem: &Problem,
    rules: &Rules,
    seed: u64,
    turns: &[u8],
) -> Result<Option<Kept>, NoMemory>
    requires rules { IsRules rules.now }
    requires some_free { 0 < length (free_units problem.now) }
    ensures { IfOk result (λ played. IfSome played (IsPlay problem.now rules.now seed)) }
{
    let mut kept = Kept::open(alloc, problem, rules, seed, 1, 60)?;
    let mut reading = Reading::room(alloc, problem)?;
    let mut judged = Judged::room(alloc, problem)?;
    for seat in turns {
        if *seat > 59 {
            return Ok(None);
        }
        if !decide(
            problem,
            rules,
            seed,
            &mut kept,
            *seat,
            &mut reading,
            &mut judged,
        ) {
            return Ok(None);
        }
    }
    Ok(Some(kept))
}

/// What is left of a play.
fn read_off(
    alloc: Global,
    problem: &Problem,
    rules: &Rules,
    seed: u64,
    kept: Kept,
) -> Result<Played, NoMemory>
    requires { IsPlay problem.now rules.now seed kept }
{
    let _ = rules;
    let _ = seed;
    let Closed {
        journal,
        plan,
        totals,
        score,
    } = kept.finish();
    let best = solution_text(alloc, problem, &plan, &totals, &score)?;
    Ok(Played { journal, best })
}
