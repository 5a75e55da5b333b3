//! The problems and rules of the tests.
ghost use Rattle.std.specs.Prelude.{◌≡◌, ◌≤◌, ◌^◌, IfOk};
ghost use Rattle.mz_history.specs.Rules.{IsRules};
ghost use Rattle.store_tests.specs.Bare.{without_features};

use mz_cool::{Schedule, Stairs};
use mz_examples::{build_three_units, make_three_units};
use mz_history::Rules;
use mz_model::{Parts, Problem};
use mz_num::{Items, Mic6, NoMemory};
use std::alloc::Global;

/// Which problem is played on.
#[derive(Clone, Copy)]
pub(super) enum Ground {
    /// The three units with a feature of which 4 is asked.
    Featured,
    /// The same units without features.
    Bare,
}

// Without a clause the problem is any problem to the tests' proofs, and nothing of it is worked out there. One
// function owns one large value.

pub(super) fn build(alloc: Global, ground: Ground) -> Result<Problem, NoMemory> {
    match ground {
        Ground::Featured => build_three_units(alloc),
        Ground::Bare => build_bare_units(alloc),
    }
}

/// The parts without their features.
fn drop_features(alloc: Global, parts: Parts) -> Parts
    ensures { result ≡ without_features parts }
{
    Parts {
        feature_ids: Items::new(Vec::new(alloc)),
        names: Items::new(Vec::new(alloc)),
        targets: Items::new(Vec::new(alloc)),
        amounts: Items::new(Vec::new(alloc)),
        fractions: Items::new(Vec::new(alloc)),
        ..parts
    }
}

fn build_bare_units(alloc: Global) -> Result<Problem, NoMemory> {
    let parts = make_three_units(alloc)?;
    let bare = drop_features(alloc, parts);
    Problem::build(alloc, bare)
}

/// Rules for so many entries at one temperature.
pub(super) fn rules(alloc: Global, limit: u32, temperature: u128) -> Result<Rules, NoMemory>
    requires few { limit ≤ 10000000 }
    requires above { 1 ≤ temperature }
    requires below { temperature ≤ 10 ^ 29 }
    ensures rules { IfOk result IsRules }
{
    let schedule = Schedule::fixed(alloc, temperature, 1_000_000_000, 1, limit)?;
    let stairs = Stairs::make(alloc)?;
    Ok(Rules {
        limit,
        prop: Mic6(0),
        schedule,
        stairs,
    })
}
