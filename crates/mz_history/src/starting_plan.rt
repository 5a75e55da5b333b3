//! The starting plan.
ghost use Rattle.std.specs.Prelude.{◌≡◌, ◌<◌, ◌≤◌, ◌+◌, ◌*◌, ◌^◌, ◌/◌, IsTrue, IfOk};
ghost use Rattle.mz_num.specs.Limits.{million, most_runs};
ghost use Rattle.mz_model.specs.Parts.{unit_count};
ghost use Rattle.mz_model.specs.Plans.{IsLegalPlan};
ghost use Rattle.mz_model.specs.Valid.{IsValid};
ghost use Rattle.mz_model.specs.Zones.{is_allowed, is_free};
ghost use Rattle.mz_draw.specs.Words.{word_at};
ghost use Rattle.mz_history.specs.Start.{free_before, resting_zone, start_seat, starting_plan, starting_zone};

use mz_draw::{Drawer, pick};
use mz_model::{Plan, PlanFault, Problem};
use mz_num::{Mic6, NoMemory};
use std::alloc::Global;

/// The seat whose words draw the starting plan.
const SEAT: u8 = 62;

/// The plan from which a run starts: each free unit has, with the chance of `prop`, one of its
/// allowed zones, and else rests in the available zone, or in its first one where it may not have
/// that (the manual of Marxan with Zones 1.0.1; the draws are this project's profile).
pub fn start(
    alloc: Global,
    problem: &Problem,
    prop: Mic6,
    seed: u64,
    run: u32,
) -> Result<Plan, NoMemory>
    requires share { prop ≤ million }
    requires runs { run ≤ most_runs }
    ensures plan { IfOk result (λ plan. plan ≡ starting_plan problem.now prop seed run) }
    ensures legal { IfOk result (λ plan. IsLegalPlan problem.now plan) }
    ensures valid { IfOk result (λ _. IsValid problem.now) }
{
    let zones = starting_zones(alloc, problem, prop, seed, run)?;
    match Plan::of(alloc, problem, &zones) {
        Ok(plan) => Ok(plan),
        Err(PlanFault::NoMemory) => Err(NoMemory),
        Err(PlanFault::Length) => unreachable!(),
        Err(PlanFault::NotAllowed(_)) => unreachable!(),
    }
}

/// The starting zone of each unit, by two words of the start's seat for each free one.
fn starting_zones(
    alloc: Global,
    problem: &Problem,
    prop: Mic6,
    seed: u64,
    run: u32,
) -> Result<Vec<u8>, NoMemory>
    requires share { prop ≤ million }
    requires runs { run ≤ most_runs }
    ensures plan { IfOk result (λ zones. zones.items ≡ starting_plan problem.now prop seed run) }
    ensures legal { IfOk result (λ zones. IsLegalPlan problem.now zones.items) }
    ensures valid { IfOk result (λ _. IsValid problem.now) }
{
    let mut drawer = Drawer::new(seed, run, SEAT);
    let mut zones = Vec::with_capacity(alloc, problem.units() as usize)?;
    for unit in 0..problem.units() {
        zones.push(starting_zone(problem, unit, prop, &mut drawer))?;
    }
    Ok(zones)
}

/// The number below which a word draws a share of so many millionths.
fn share_of_words(prop: Mic6) -> u64
    requires { prop ≤ million }
    ensures { result ≡ prop * 2 ^ 32 / 10 ^ 6 }
{
    (prop.0 << 32) / 1_000_000
}

/// The starting zone of a unit; a free one takes the drawer's next two words.
fn starting_zone(problem: &Problem, unit: u32, prop: Mic6, drawer: &mut Drawer) -> u8
    // The unit and the share.
    requires valid { IsValid problem.now }
    requires unit { unit < unit_count problem.now }
    requires share { prop ≤ million }

    // The drawer, behind the words of the units before.
    requires seat { drawer.old.seat ≡ start_seat }
    requires words { drawer.old.taken ≡ 2 * free_before problem.now unit }

    // The zone.
    ensures zone { result ≡ starting_zone problem.now prop drawer.old.seed drawer.old.run unit }
    ensures allowed { IsTrue (is_allowed problem.now unit result) }

    // The drawer, behind the unit's words.
    ensures words { drawer.new ≡ record drawer.old { taken = 2 * free_before problem.now (unit + 1) } }
{
    let zones = problem.allowed_zones(unit);
    if zones.len() < 2 {
        return zones[0];
    }
    let chance = drawer.word();
    let choice = drawer.word();
    if u64::from(chance) < share_of_words(prop) {
        zones[pick(zones.len() as u32, choice) as usize]
    } else {
        resting_zone(problem, unit)
    }
}

/// The available zone where the unit may have it, else the first zone that it may have.
fn resting_zone(problem: &Problem, unit: u32) -> u8
    requires valid { IsValid problem.now }
    requires unit { unit < unit_count problem.now }
    ensures zone { result ≡ resting_zone problem.now unit }
    ensures allowed { IsTrue (is_allowed problem.now unit result) }
{
    let available = problem.available();
    if problem.is_allowed(unit, available) {
        available
    } else {
        problem.allowed_zones(unit)[0]
    }
}
