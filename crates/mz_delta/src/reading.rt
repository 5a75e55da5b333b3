//! What a worker reads of a plan before it judges a move of one unit.
ghost use Rattle.std.specs.Prelude.{◌≡◌, ◌<◌, ◌≤◌, IfOk, length, map, slice_index};
ghost use Rattle.mz_model.specs.Boundary.{neighbours_of};
ghost use Rattle.mz_model.specs.Parts.{unit_count, target_count};
ghost use Rattle.mz_model.specs.Plans.{IsLegalPlan};
ghost use Rattle.mz_model.specs.Targets.{touched_rows};
ghost use Rattle.mz_model.specs.Valid.{IsValid};
ghost use Rattle.mz_delta.specs.Reading.{IsReadingOf, totals_of_plan, zones_around};
ghost use Rattle.mz_delta.specs.Rooms.{FitsReading, greatest_degree, greatest_touched};

use crate::rooms::{greatest_degree, greatest_touched};
use mz_model::{Plan, Problem, held};
use mz_num::{Filled, NoMemory};
use std::alloc::Global;

/// The values of a unit's items: its zone, its neighbours' zones, and what is held for the target
/// rows that it touches.
#[derive(Debug, Drop)]
pub struct Reading {
    /// The seat that reads.
    pub seat: u8,
    /// How many entries of the history stood before the reading began.
    pub front: u32,
    pub unit: u32,
    /// The zone of the unit.
    pub zone: u8,
    /// The zones of the unit's neighbours, in their order in the problem.
    pub neighbours: Filled<u8>,
    /// What is held for the target rows that the unit touches, in their order, in ten-thousandths.
    pub totals: Filled<u64>,
}

impl Reading {
    /// An empty reading with room for any unit of the problem.
    pub fn room(alloc: Global, problem: &Problem) -> Result<Reading, NoMemory>
        ensures { IfOk result (λ reading. FitsReading problem.now reading) }
    {
        let neighbours = Filled::with_room(alloc, greatest_degree(problem) as usize)?;
        let totals = Filled::with_room(alloc, greatest_touched(problem) as usize)?;
        Ok(Reading {
            seat: 0,
            front: 0,
            unit: 0,
            zone: 0,
            neighbours,
            totals,
        })
    }
}

/// What a plan holds for each target row, in ten-thousandths.
pub fn totals_of(alloc: Global, problem: &Problem, plan: &Plan) -> Result<Vec<u64>, NoMemory>
    requires { IsLegalPlan problem.now plan.now }
    ensures { IfOk result (λ totals. totals.items ≡ totals_of_plan problem.now plan.now) }
{
    let mut totals = Vec::new(alloc);
    for row in 0..problem.targets() {
        totals.push(held(problem, plan, row))?;
    }
    Ok(totals)
}

/// Reads a unit of a plan whose totals are these. Seat and front of the reading stay.
pub fn read_plan(problem: &Problem, plan: &Plan, totals: &[u64], unit: u32, reading: &mut Reading)
    // The plan with its own totals.
    requires legal { IsLegalPlan problem.now plan.now }
    requires totals { totals.now ≡ totals_of_plan problem.now plan.now }

    // The unit, and room for its reading.
    requires unit { unit < unit_count problem.now }
    requires fits { FitsReading problem.now reading.old }

    // The reading.
    ensures reads { IsReadingOf problem.now plan.now unit reading.old reading.new }
    ensures fits { FitsReading problem.now reading.new }
{
    reading.unit = unit;
    reading.zone = plan.zone(unit);
    read_neighbours(problem, plan, unit, &mut reading.neighbours);
    read_totals(problem, totals, unit, &mut reading.totals);
}

/// The zones of a unit's neighbours.
fn read_neighbours(problem: &Problem, plan: &Plan, unit: u32, zones: &mut Filled<u8>)
    requires legal { IsLegalPlan problem.now plan.now }
    requires unit { unit < unit_count problem.now }
    requires fits { greatest_degree problem.now ≤ zones.old.room }
    ensures zones { zones.new.items ≡ zones_around problem.now plan.now unit }
    ensures room { zones.old.room ≤ zones.new.room }
{
    zones.clear();
    for neighbour in problem.neighbours(unit) {
        zones.push(plan.zone(neighbour.unit));
    }
}

/// The totals of the target rows that a unit touches.
fn read_totals(problem: &Problem, totals: &[u64], unit: u32, read: &mut Filled<u64>)
    // What is read, and room for it.
    requires unit { unit < unit_count problem.now }

    // The totals of the touched rows.
    requires totals { length totals.now ≡ target_count problem.now }
    requires fits { greatest_touched problem.now ≤ read.old.room }
    ensures totals { read.new.items ≡ map (slice_index totals.now) (touched_rows problem.now unit) }
    ensures room { read.old.room ≤ read.new.room }
    ensures valid { IsValid problem.now }
{
    read.clear();
    for touch in problem.touches(unit) {
        read.push(totals[touch.row as usize]);
    }
}
