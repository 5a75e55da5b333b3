//! What a run is decided by, as its parameters ask.
ghost use Rattle.std.specs.Prelude.{◌≡◌, ◌≤◌, IfOk, None};
ghost use Rattle.mz_num.specs.Limits.{most_runs};
ghost use Rattle.mz_params.specs.ParamFile.{IsAccepted};
ghost use Rattle.mz_history.specs.Cooling.{AreRulesOf};
ghost use Rattle.mz_history.specs.Rules.{IsRules};

use crate::sample::sampled_changes;
use mz_cool::{Schedule, Stairs};
use mz_history::Rules;
use mz_model::Problem;
use mz_num::NoMemory;
use mz_params::Params;
use std::alloc::Global;

/// The rules that accepted parameters ask for in a run of a problem: the temperature falls from the given
/// start by the given factor (the manual of Marxan with Zones 1.0.1), or, where none is given, it is fitted
/// to the changes of score that a sample of draws makes of the starting plan (this project's profile).
pub fn rules_of(
    alloc: Global,
    problem: &Problem,
    params: &Params,
    seed: u64,
    run: u32,
) -> Result<Rules, NoMemory>
    requires accepted { IsAccepted params.now }
    requires runs { run ≤ most_runs }
    ensures asked { IfOk result (λ rules. AreRulesOf problem.now params.now seed run rules) }
    ensures rules { IfOk result IsRules }
{
    if params.start.is_some() {
        return Rules::fixed(alloc, params);
    }
    fitted_rules(alloc, problem, params, seed, run)
}

/// The rules where no start is given.
fn fitted_rules(
    alloc: Global,
    problem: &Problem,
    params: &Params,
    seed: u64,
    run: u32,
) -> Result<Rules, NoMemory>
    requires accepted { IsAccepted params.now }
    requires runs { run ≤ most_runs }
    requires fitted { params.now.start ≡ None }
    ensures asked { IfOk result (λ rules. AreRulesOf problem.now params.now seed run rules) }
    ensures rules { IfOk result IsRules }
{
    let changes = sampled_changes(alloc, problem, params.prop, seed, run)?;
    let schedule = Schedule::adaptive(alloc, changes.as_slice(), params.levels, params.iterations)?;
    let stairs = Stairs::make(alloc)?;
    Ok(Rules {
        limit: params.iterations,
        prop: params.prop,
        schedule,
        stairs,
    })
}
