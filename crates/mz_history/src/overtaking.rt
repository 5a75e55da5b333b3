//! Which entry overtakes a reading: looked up in the journal itself.
ghost use Rattle.std.specs.Prelude.{◌≡◌, ◌<◌, ◌≤◌, ◌==◌, not, length, slice_index_or};
ghost use Rattle.std.specs.List.{All, list_any};
ghost use Rattle.mz_num.specs.Limits.{most_proposals};
ghost use Rattle.mz_model.specs.Boundary.{neighbours_of};
ghost use Rattle.mz_model.specs.Parts.{unit_count};
ghost use Rattle.mz_model.specs.Targets.{gain_of, touched_rows};
ghost use Rattle.mz_history.specs.Items.{changes_around};
ghost use Rattle.mz_history.specs.Moves.{IsMove};
ghost use Rattle.mz_history.specs.Verdict.{no_entry, overtakes, overtaking_entry};

use crate::entry::Entry;
use mz_model::Problem;

/// The last entry, at the front or later, that changes an item of the unit.
pub(crate) fn overtaking_entry(
    problem: &Problem,
    journal: &[Entry],
    front: u32,
    unit: u32,
) -> Option<u32>
    requires unit { unit < unit_count problem.now }
    requires moves { All (IsMove problem.now) journal.now }
    requires few { length journal.now ≤ most_proposals }
    ensures { result ≡ overtaking_entry problem.now journal.now front unit }
{
    let mut last = None;
    for position in 0..journal.len() as u32 {
        if overtakes(problem, journal, front, unit, position) {
            last = Some(position);
        }
    }
    last
}

fn overtakes(problem: &Problem, journal: &[Entry], front: u32, unit: u32, position: u32) -> bool
    requires unit { unit < unit_count problem.now }
    requires moves { All (IsMove problem.now) journal.now }
    requires position { position < length journal.now }
    ensures { result ≡ overtakes problem.now journal.now front unit position }
{
    if position < front {
        return false;
    }
    changes_around(problem, unit, &journal[position as usize])
}

/// Whether the entry changes the zone of the unit, of one of its neighbours, or what is held for
/// a target row that the unit touches.
fn changes_around(problem: &Problem, unit: u32, entry: &Entry) -> bool
    requires unit { unit < unit_count problem.now }
    requires moves { IsMove problem.now entry.now }
    ensures { result ≡ changes_around problem.now unit entry.now }
{
    if !entry.accepted {
        return false;
    }
    if entry.unit == unit || is_neighbour(problem, unit, entry.unit) {
        return true;
    }
    changes_row(problem, unit, entry)
}

fn is_neighbour(problem: &Problem, unit: u32, other: u32) -> bool
    requires { unit < unit_count problem.now }
    ensures { result ≡ list_any (λ neighbour. neighbour.unit == other) (neighbours_of problem.now unit) }
{
    problem
        .neighbours(unit)
        .iter()
        .any(|neighbour| neighbour.unit == other)
}

/// Whether the entry's unit gains otherwise in its new zone than in its old one, for a target row
/// that the unit touches.
fn changes_row(problem: &Problem, unit: u32, entry: &Entry) -> bool
    requires unit { unit < unit_count problem.now }
    requires moves { IsMove problem.now entry.now }
    ensures { result ≡ list_any
        (λ row. not (gain_of problem.now row entry.now.unit entry.now.old
        == gain_of problem.now row entry.now.unit entry.now.new))
        (touched_rows problem.now unit) }
{
    for i in 0..problem.touched(unit) {
        let row = problem.touched_row(unit, i);
        let old = problem.gain(row, entry.unit, entry.old);
        let new = problem.gain(row, entry.unit, entry.new);
        if old != new {
            return true;
        }
    }
    false
}
