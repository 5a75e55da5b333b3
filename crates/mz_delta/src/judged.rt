//! What comes of a move that was judged, and the judging.
ghost use Rattle.std.specs.Prelude.{◌≡◌, ◌<◌, ◌≤◌, IfOk, IsTrue};
ghost use Rattle.mz_model.specs.Valid.{IsValid};
ghost use Rattle.mz_model.specs.Zones.{is_allowed};
ghost use Rattle.mz_delta.specs.Before.{AreGrowths};
ghost use Rattle.mz_delta.specs.Judged.{IsJudged, IsRight};
ghost use Rattle.mz_delta.specs.Move.{moved_totals};
ghost use Rattle.mz_delta.specs.Reading.{IsWellFormed};
ghost use Rattle.mz_delta.specs.Rooms.{FitsJudged};

use crate::boundary::boundary_change;
use crate::difference::{Differences, difference, sum_of};
use crate::reading::Reading;
use crate::rooms::greatest_touched;
use crate::rows::rows_change;
use mz_draw::Draw;
use mz_model::Problem;
use mz_num::{Filled, NoMemory};
use std::alloc::Global;

/// A move of one unit, and by how much it changes a score, in ten-thousandths.
#[derive(Debug, Drop)]
pub struct Judged {
    /// The seat whose reading was judged.
    pub seat: u8,
    /// The number of the draw among its seat's, from 0.
    pub number: u64,
    pub unit: u32,
    /// The zone from which the unit moves.
    pub old: u8,
    /// The zone to which it moves.
    pub new: u8,
    /// The draw's acceptance word.
    pub word: u32,
    pub cost: i128,
    pub boundary: i128,
    pub penalty: i128,
    /// The sum of the three differences.
    pub change: i128,
    /// What is held after the move for the target rows that the unit touches, in their order.
    pub totals: Filled<u64>,
}

impl Judged {
    /// An empty judged move with room for any unit of the problem.
    pub fn room(alloc: Global, problem: &Problem) -> Result<Judged, NoMemory>
        ensures { IfOk result (λ judged. FitsJudged problem.now judged) }
    {
        let totals = Filled::with_room(alloc, greatest_touched(problem) as usize)?;
        Ok(Judged {
            seat: 0,
            number: 0,
            unit: 0,
            old: 0,
            new: 0,
            word: 0,
            cost: 0,
            boundary: 0,
            penalty: 0,
            change: 0,
            totals,
        })
    }
}

/// Judges the move that a draw gives: the difference of the two whole scores, for each plan that
/// agrees with the reading. It looks at the unit's neighbours and touched rows alone.
pub fn judge(problem: &Problem, reading: &Reading, draw: Draw, judged: &mut Judged)
    requires well_formed { IsWellFormed problem.now reading.now }
    requires drawn { draw.unit ≡ reading.now.unit }
    requires fits { FitsJudged problem.now judged.now }
    ensures right { IsRight problem.now reading.now draw judged.exit.now }
    ensures fits { FitsJudged problem.now judged.exit.now }
{
    let zone = problem.step(draw.unit, reading.zone, draw.shift);
    judge_move(problem, reading, zone, draw.number, draw.word, judged);
}

/// Judges the move of a reading's unit to an allowed zone, without a draw: number and word are 0.
pub fn judge_zone(problem: &Problem, reading: &Reading, zone: u8, judged: &mut Judged)
    requires well_formed { IsWellFormed problem.now reading.now }
    requires allowed { IsTrue (is_allowed problem.now reading.now.unit zone) }
    requires fits { FitsJudged problem.now judged.now }
    ensures judged { IsJudged problem.now reading.now zone 0 0 judged.exit.now }
    ensures fits { FitsJudged problem.now judged.exit.now }
{
    judge_move(problem, reading, zone, 0, 0, judged);
}

/// Judges the move of a reading's unit to an allowed zone.
#[inline]
fn judge_move(
    problem: &Problem,
    reading: &Reading,
    zone: u8,
    number: u64,
    word: u32,
    judged: &mut Judged,
)
    requires well_formed { IsWellFormed problem.now reading.now }
    requires allowed { IsTrue (is_allowed problem.now reading.now.unit zone) }
    requires fits { FitsJudged problem.now judged.now }
    ensures judged { IsJudged problem.now reading.now zone number word judged.exit.now }
    ensures fits { FitsJudged problem.now judged.exit.now }
{
    let penalty = rows_change(problem, reading, zone, &mut judged.totals);
    let cost = difference(
        problem.cost_of(reading.unit, zone) as u128,
        problem.cost_of(reading.unit, reading.zone) as u128,
    );
    let differences = Differences {
        cost,
        boundary: boundary_change(problem, reading, zone),
        penalty,
    };
    put_move(problem, reading, zone, number, word, differences, judged);
}

/// Writes down a judged move: by how much it changes the score, and what reading and draw say of it. What is held
/// after it stands in `judged` already.
#[inline]
pub(crate) fn put_move(
    problem: &Problem,
    reading: &Reading,
    zone: u8,
    number: u64,
    word: u32,
    differences: Differences,
    judged: &mut Judged,
)
    // The reading, the zone, and room for the result.
    requires well_formed { IsWellFormed problem.now reading.now }
    requires allowed { IsTrue (is_allowed problem.now reading.now.unit zone) }
    requires fits { FitsJudged problem.now judged.now }

    // What was worked out of them.
    requires totals { judged.now.totals.items ≡ moved_totals problem.now reading.now zone }
    requires valid { IsValid problem.now }
    requires growths { AreGrowths problem.now reading.now zone differences }

    // The result.
    ensures judged { IsJudged problem.now reading.now zone number word judged.exit.now }
    ensures fits { FitsJudged problem.now judged.exit.now }
{
    let _ = problem;
    judged.seat = reading.seat;
    judged.number = number;
    judged.unit = reading.unit;
    judged.old = reading.zone;
    judged.new = zone;
    judged.word = word;
    judged.cost = differences.cost;
    judged.boundary = differences.boundary;
    judged.penalty = differences.penalty;
    judged.change = sum_of(differences.cost, differences.boundary, differences.penalty);
}
