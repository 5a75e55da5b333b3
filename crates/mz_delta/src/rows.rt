//! The target rows that a unit touches, and how their penalties change where the unit moves.
ghost use Rattle.std.specs.Prelude.{◌≡◌, ◌+◌, ◌*◌, ◌<◌, ◌≤◌, ◌^◌, IsTrue, unsigned_abs};
ghost use Rattle.mz_num.specs.Limits.{greatest_quantity};
ghost use Rattle.mz_model.specs.Parts.{target_count};
ghost use Rattle.mz_model.specs.Scores.{penalty_term_of};
ghost use Rattle.mz_model.specs.Valid.{IsValid};
ghost use Rattle.mz_model.specs.Zones.{is_allowed};
ghost use Rattle.mz_delta.specs.Move.{moved_totals, penalty_growth, penalty_moved, penalty_read};
ghost use Rattle.mz_delta.specs.Reading.{IsWellFormed};
ghost use Rattle.mz_delta.specs.Rooms.{greatest_touched};

use crate::difference::{Terms, difference};
use crate::reading::Reading;
use mz_model::Problem;
use mz_num::Filled;

/// By how much the penalties of the rows that a reading's unit touches change where the unit gets the zone.
/// What is held for them then is written to `totals`.
pub(crate) fn rows_change(
    problem: &Problem,
    reading: &Reading,
    zone: u8,
    totals: &mut Filled<u64>,
) -> i128
    // The reading, the zone, and room for the totals.
    requires well_formed { IsWellFormed problem.now reading.now }
    requires allowed { IsTrue (is_allowed problem.now reading.now.unit zone) }
    requires fits { greatest_touched problem.now ≤ totals.old.room }

    // The growth of the penalty.
    ensures change { result ≡ penalty_growth problem.now reading.now zone }
    ensures small { unsigned_abs result ≤ 3 * 10 ^ 24 }

    // The totals after the move.
    ensures moved { totals.new.items ≡ moved_totals problem.now reading.now zone }
    ensures room { totals.old.room ≤ totals.new.room }
    ensures valid { IsValid problem.now }
{
    totals.clear();
    let held = reading.totals.as_slice();
    let touches = problem.touches(reading.unit);
    let mut before = 0;
    let mut after = 0;
    for (i, touch) in touches.iter().enumerate() {
        let total = problem.moved_total(*touch, held[i], reading.zone, zone);
        totals.push(total);
        let terms = penalties_of_move(problem, touch.row, held[i], total);
        before += terms.before as u128;
        after += terms.after as u128;
    }
    difference(after, before)
}

/// The penalties of a row of which another amount is held after a move. Where the amount stays both are left out.
#[inline]
fn penalties_of_move(problem: &Problem, row: u32, old: u64, new: u64) -> Terms
    requires { row < target_count problem.now }
    ensures change { result.after + penalty_term_of problem.now row old
        ≡ result.before + penalty_term_of problem.now row new }
    ensures before { result.before ≤ greatest_quantity }
    ensures after { result.after ≤ greatest_quantity }
{
    if old == new {
        return Terms {
            before: 0,
            after: 0,
        };
    }
    Terms {
        before: problem.penalty_term(row, old),
        after: problem.penalty_term(row, new),
    }
}

/// The penalty of the rows that a reading's unit touches.
pub(crate) fn penalty_before(problem: &Problem, reading: &Reading) -> u128
    requires { IsWellFormed problem.now reading.now }
    ensures around { result ≡ penalty_read problem.now reading.now }
    ensures small { result ≤ 3 * 10 ^ 24 }
    ensures valid { IsValid problem.now }
{
    let held = reading.totals.as_slice();
    let touches = problem.touches(reading.unit);
    let mut sum = 0;
    for (i, touch) in touches.iter().enumerate() {
        sum += problem.penalty_term(touch.row, held[i]) as u128;
    }
    sum
}

/// The penalty of the rows that a reading's unit touches where the unit has the zone. What is held for them
/// then is written to `totals`.
pub(crate) fn penalty_after(
    problem: &Problem,
    reading: &Reading,
    zone: u8,
    totals: &mut Filled<u64>,
) -> u128
    // The reading, the zone, and room for the totals.
    requires well_formed { IsWellFormed problem.now reading.now }
    requires allowed { IsTrue (is_allowed problem.now reading.now.unit zone) }
    requires fits { greatest_touched problem.now ≤ totals.old.room }

    // The penalty after the move.
    ensures around { result ≡ penalty_moved problem.now reading.now zone }
    ensures small { result ≤ 3 * 10 ^ 24 }

    // The totals after the move.
    ensures moved { totals.new.items ≡ moved_totals problem.now reading.now zone }
    ensures room { totals.old.room ≤ totals.new.room }
    ensures valid { IsValid problem.now }
{
    totals.clear();
    let held = reading.totals.as_slice();
    let touches = problem.touches(reading.unit);
    let mut sum = 0;
    for (i, touch) in touches.iter().enumerate() {
        let total = problem.moved_total(*touch, held[i], reading.zone, zone);
        totals.push(total);
        sum += problem.penalty_term(touch.row, total) as u128;
    }
    sum
}
