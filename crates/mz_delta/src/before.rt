//! What holds round a unit before it moves, for several zones that it may be given.
ghost use Rattle.std.specs.Prelude.{IsTrue};
ghost use Rattle.mz_model.specs.Zones.{is_allowed};
ghost use Rattle.mz_delta.specs.Before.{IsBefore};
ghost use Rattle.mz_delta.specs.Judged.{IsJudged};
ghost use Rattle.mz_delta.specs.Reading.{IsWellFormed};
ghost use Rattle.mz_delta.specs.Rooms.{FitsJudged};

use crate::boundary::boundary_around;
use crate::difference::{Differences, difference};
use crate::judged::{Judged, put_move};
use crate::reading::Reading;
use crate::rows::{penalty_after, penalty_before};
use mz_model::Problem;

/// What holds for a reading's unit before a move, in ten-thousandths. It serves each zone that the unit may be
/// given.
#[derive(Clone, Copy, Debug)]
pub struct Before {
    /// The unit's cost in its zone.
    pub(crate) cost: u64,
    /// The boundary round the unit.
    pub(crate) boundary: u128,
    /// The penalty of the target rows that the unit touches.
    pub(crate) penalty: u128,
}

/// What holds for a reading's unit before a move, whichever zone it goes to.
pub fn prepare(problem: &Problem, reading: &Reading) -> Before
    requires { IsWellFormed problem.now reading.now }
    ensures { IsBefore problem.now reading.now result }
{
    let penalty = penalty_before(problem, reading);
    Before {
        cost: problem.cost_of(reading.unit, reading.zone),
        boundary: boundary_around(problem, reading, reading.zone),
        penalty,
    }
}

/// Judges the move of a reading's unit to an allowed zone, as `judge_zone` does, from what holds before it:
/// only what holds after the move is counted.
pub fn judge_from(
    problem: &Problem,
    reading: &Reading,
    before: &Before,
    zone: u8,
    judged: &mut Judged,
)
    // What was read, and what holds of it before a move.
    requires well_formed { IsWellFormed problem.now reading.now }
    requires before { IsBefore problem.now reading.now before.now }

    // The zone, and room for the result.
    requires allowed { IsTrue (is_allowed problem.now reading.now.unit zone) }
    requires fits { FitsJudged problem.now judged.now }

    // The result.
    ensures judged { IsJudged problem.now reading.now zone 0 0 judged.exit.now }
    ensures fits { FitsJudged problem.now judged.exit.now }
{
    let penalty = penalty_after(problem, reading, zone, &mut judged.totals);
    let cost = problem.cost_of(reading.unit, zone);
    let boundary = boundary_around(problem, reading, zone);
    let differences = Differences {
        cost: difference(cost as u128, before.cost as u128),
        boundary: difference(boundary, before.boundary),
        penalty: difference(penalty, before.penalty),
    };
    put_move(problem, reading, zone, 0, 0, differences, judged);
}
