//! Proposals of any seat, looked at, judged and decided in one go.
ghost use Rattle.std.specs.Prelude.{◌≡◌, ◌<◌, ◌≤◌, ◌^◌, length, IfOk};
ghost use Rattle.mz_model.specs.Parts.{unit_count};
ghost use Rattle.mz_model.specs.Zones.{counts_of, free_units};
ghost use Rattle.mz_delta.specs.Rooms.{FitsJudged, FitsReading};
ghost use Rattle.mz_draw.specs.Draws.{draw_at};
ghost use Rattle.mz_history.specs.Rules.{IsRules};
ghost use Rattle.state_tests.specs.Game.{IsGame};

use mz_cool::{Schedule, Stairs};
use mz_delta::{Judged, Reading, judge};
use mz_draw::{Draw, Drawer};
use mz_history::{Entry, Rules};
use mz_model::Problem;
use mz_num::{Mic6, NoMemory};
use mz_state::Kept;
use std::alloc::Global;

/// Rules for so many entries at one temperature, in thousandths of a ten-thousandth.
pub(super) fn rules(alloc: Global, limit: u32, temperature: u128) -> Result<Rules, NoMemory>
    requires few { limit ≤ 10000000 }
    requires above { 1 ≤ temperature }
    requires below { temperature ≤ 10 ^ 29 }
    ensures { IfOk result IsRules }
{
    let schedule = Schedule::fixed(alloc, temperature, 1_000_000_000, 1, limit)?;
    let stairs = Stairs::make(alloc)?;
    Ok(Rules {
        limit,
        prop: Mic6(0),
        schedule,
        stairs,
    })
}

/// The draw of that number of the seat's, in run 1.
pub(super) fn draw_of(problem: &Problem, seed: u64, seat: u8, number: u64) -> Draw
    requires seats { seat < 60 }
    requires some_free { 0 < length (free_units problem.now) }
    requires few { number ≤ 10000000 }
    ensures draw { result ≡ draw_at seed 1 seat (free_units problem.now) (counts_of problem.now) number }
    ensures in_range { result.unit < unit_count problem.now }
{
    let mut drawer = Drawer::new(seed, 1, seat);
    drawer.skip(number);
    drawer.next(problem.free(), problem.counts())
}

/// Decides the seat's next draw; none where the journal is full.
pub(super) fn decide(
    problem: &Problem,
    rules: &Rules,
    seed: u64,
    kept: &mut Kept,
    seat: u8,
    reading: &mut Reading,
    judged: &mut Judged,
) -> Option<Entry>
    requires game { IsGame problem.now rules.now seed kept.old }
    requires seats { seat < 60 }
    requires reading { FitsReading problem.now reading.old }
    requires judged { FitsJudged problem.now judged.now }
    ensures game { IsGame problem.now rules.now seed kept.new }
    ensures reading { FitsReading problem.now reading.new }
    ensures judged { FitsJudged problem.now judged.exit.now }
{
    let number = kept.next_draw(seat);
    if kept.length() >= rules.limit || number > 10_000_000 {
        return None;
    }
    let draw = draw_of(problem, seed, seat, number);
    kept.look(problem, seat, draw.unit, reading);
    judge(problem, reading, draw, judged);
    Some(kept.apply(problem, rules, judged).entry)
}
