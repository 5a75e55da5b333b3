//! The boundary round a unit, and how it changes where the unit moves.
ghost use Rattle.std.specs.Prelude.{◌≡◌, ◌+◌, ◌*◌, ◌<◌, ◌≤◌, ◌^◌, unsigned_abs};
ghost use Rattle.mz_num.specs.Limits.{greatest_quantity};
ghost use Rattle.mz_model.specs.Boundary.{IsLength, edge_term_of};
ghost use Rattle.mz_model.specs.Parts.{zone_count};
ghost use Rattle.mz_delta.specs.Move.{boundary_around, boundary_growth};
ghost use Rattle.mz_delta.specs.Reading.{IsWellFormed};

use crate::difference::{Terms, difference};
use crate::reading::Reading;
use mz_model::Problem;

/// By how much the boundary round a reading's unit changes where the unit gets the zone: the terms
/// of its pairs, each from this side alone, and of its outer length. Terms whose rate stays are left out.
pub(crate) fn boundary_change(problem: &Problem, reading: &Reading, zone: u8) -> i128
    requires well_formed { IsWellFormed problem.now reading.now }
    requires zone { zone < zone_count problem.now }
    ensures change { result ≡ boundary_growth problem.now reading.now zone }
    ensures small { unsigned_abs result ≤ 3 * 10 ^ 24 }
{
    let neighbours = problem.neighbours(reading.unit);
    let zones = reading.neighbours.as_slice();
    let mut before = 0;
    let mut after = 0;
    for (i, neighbour) in neighbours.iter().enumerate() {
        let terms = terms_of_move(problem, neighbour.length, reading.zone, zone, zones[i]);
        before += terms.before as u128;
        after += terms.after as u128;
    }
    let outer = problem.outer(reading.unit);
    let last = terms_of_move(problem, outer, reading.zone, zone, problem.available());
    difference(after + last.after as u128, before + last.before as u128)
}

/// The terms of a length between a zone that changes and another one. Where the rate stays both are left out.
#[inline]
fn terms_of_move(problem: &Problem, len: u64, old: u8, new: u8, other: u8) -> Terms
    // The pair and the zones of its ends.
    requires length { IsLength problem.now len }
    requires old { old < zone_count problem.now }
    requires new { new < zone_count problem.now }
    requires other { other < zone_count problem.now }

    // The terms, and how great they are.
    ensures change { result.after + edge_term_of problem.now len old other
        ≡ result.before + edge_term_of problem.now len new other }
    ensures before { result.before ≤ greatest_quantity }
    ensures after { result.after ≤ greatest_quantity }
{
    if problem.rate(old, other) == problem.rate(new, other) {
        return Terms {
            before: 0,
            after: 0,
        };
    }
    Terms {
        before: problem.edge_term(len, old, other),
        after: problem.edge_term(len, new, other),
    }
}

/// The boundary round a reading's unit where the unit has the zone.
pub(crate) fn boundary_around(problem: &Problem, reading: &Reading, zone: u8) -> u128
    requires well_formed { IsWellFormed problem.now reading.now }
    requires zone { zone < zone_count problem.now }
    ensures around { result ≡ boundary_around problem.now reading.now zone }
    ensures small { result ≤ 3 * 10 ^ 24 }
{
    let neighbours = problem.neighbours(reading.unit);
    let zones = reading.neighbours.as_slice();
    let mut sum = 0;
    for (i, neighbour) in neighbours.iter().enumerate() {
        sum += problem.edge_term(neighbour.length, zone, zones[i]) as u128;
    }
    let outer = problem.outer(reading.unit);
    sum + problem.edge_term(outer, zone, problem.available()) as u128
}
