ghost use Rattle.std.specs.Prelude.{◌≡◌, ◌≤◌, ◌^◌, IfOk};
ghost use Rattle.mz_history.specs.Rules.{IsRules};

use mz_cool::{Schedule, Stairs};
use mz_examples::{build_lone_unit, build_three_units, build_three_zones};
use mz_history::Rules;
use mz_model::Problem;
use mz_num::{Mic6, NoMemory};
use std::alloc::Global;

mod events;
mod replays;
mod starts;

// Without a clause a problem is any problem to the tests' proofs, and nothing of them is worked out there.

fn three_units(alloc: Global) -> Result<Problem, NoMemory> {
    build_three_units(alloc)
}

fn three_zones(alloc: Global) -> Result<Problem, NoMemory> {
    build_three_zones(alloc)
}

fn lone_unit(alloc: Global) -> Result<Problem, NoMemory> {
    build_lone_unit(alloc)
}

/// Rules for so many entries at one temperature, in thousandths of a ten-thousandth.
fn rules(alloc: Global, limit: u32, temperature: u128) -> Result<Rules, NoMemory>
    requires few { limit ≤ 10000000 }
    requires above { 1 ≤ temperature }
    requires below { temperature ≤ 10 ^ 29 }
    ensures rules { IfOk result IsRules }
    ensures limit { IfOk result (λ rules. rules.limit ≡ limit) }
{
    let schedule = Schedule::fixed(alloc, temperature, 1_000_000_000, 1, limit)?;
    let stairs = Stairs::make(alloc)?;
    Ok(Rules {
        limit,
        prop: Mic6(0),
        schedule,
        stairs,
    })
}
