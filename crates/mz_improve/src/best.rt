//! The zone of least score for one unit.
ghost use Rattle.std.specs.Prelude.{◌≡◌, IsTrue, if◌then◌else◌, int_lt};
ghost use Rattle.mz_model.specs.Plans.{IsLegalPlan};
ghost use Rattle.mz_model.specs.Zones.{is_allowed};
ghost use Rattle.mz_delta.specs.Reading.{Agrees, IsWellFormed};
ghost use Rattle.mz_delta.specs.Rooms.{FitsJudged};
ghost use Rattle.mz_improve.specs.Improved.{best_zone};

use mz_delta::{Judged, Reading, judge_from, prepare};
use mz_model::{Plan, Problem};

/// A zone that a unit may be given, and by how much that changes the plan's score.
#[derive(Clone, Copy)]
struct Candidate {
    zone: u8,
    change: i128,
}

/// The zone of least score for the reading's unit, all others as they are in the plan: its present zone wins a
/// tie, then the least place (this project's profile). No memory is taken.
pub(crate) fn best_zone(
    problem: &Problem,
    plan: &Plan,
    reading: &Reading,
    judged: &mut Judged,
) -> u8
    // A reading of the plan, and room for what is judged.
    requires legal { IsLegalPlan problem.now plan.now }
    requires well_formed { IsWellFormed problem.now reading.now }
    requires agrees { Agrees problem.now plan.now reading.now }
    requires fits { FitsJudged problem.now judged.now }

    // The zone.
    ensures best { result ≡ best_zone problem.now plan.now reading.now.unit }
    ensures allowed { IsTrue (is_allowed problem.now reading.now.unit result) }
    ensures fits { FitsJudged problem.now judged.exit.now }
{
    let _ = plan;
    let before = prepare(problem, reading);
    let mut best = Candidate {
        zone: reading.zone,
        change: 0,
    };
    for zone in problem.allowed_zones(reading.unit) {
        judge_from(problem, reading, &before, *zone, judged);
        best = better(
            best,
            Candidate {
                zone: *zone,
                change: judged.change,
            },
        );
    }
    best.zone
}

/// The candidate of lower score; of two with the same score the first.
fn better(first: Candidate, second: Candidate) -> Candidate
    ensures { result ≡ (if int_lt second.change first.change then second else first) }
{
    if second.change < first.change {
        second
    } else {
        first
    }
}
