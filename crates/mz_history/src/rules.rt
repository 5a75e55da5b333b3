//! What decides whether a proposal is accepted.
ghost use Rattle.std.specs.Prelude.{◌≡◌, ◌≤◌, ◌^◌, ℕ, IfOk, IsTrue, Some, is_some};
ghost use Rattle.mz_num.specs.Limits.{greatest_quantity, million};
ghost use Rattle.mz_params.specs.ParamFile.{IsAccepted};
ghost use Rattle.mz_model.specs.declared.parts.Parts.{Parts};
ghost use Rattle.mz_history.specs.Cooling.{AreRulesOf};
ghost use Rattle.mz_history.specs.Rules.{AreFixed, IsRules};

use mz_cool::{Schedule, Stairs};
use mz_num::{Mic6, NoMemory, Ten4};
use mz_params::Params;
use std::alloc::Global;

#[derive(Debug, Drop)]
pub struct Rules {
    /// How many entries a history may have.
    pub limit: u32,
    /// The share of the free units whose starting zone is drawn, in millionths.
    pub prop: Mic6,
    pub schedule: Schedule,
    pub stairs: Stairs,
}

impl Rules {
    /// The rules that accepted parameters ask for, where they give a start: its temperature falls
    /// by their factor from level to level (the manual of Marxan with Zones 1.0.1; the units are
    /// this project's profile).
    pub fn fixed(alloc: Global, params: &Params) -> Result<Rules, NoMemory>
        // The parameters.
        requires accepted { IsAccepted params.now }
        requires given { IsTrue (is_some params.now.start) }

        // The temperatures that they ask for.
        ensures fixed { IfOk result (λ rules. (start : ℕ) → params.now.start ≡ Some start
            → AreFixed start params.now rules) }
        ensures asked { IfOk result (λ rules. (parts : Parts) (seed run : ℕ)
            → AreRulesOf parts params.now seed run rules) }

        // What every call asks of rules.
        ensures limit { IfOk result (λ rules. rules.limit ≡ params.now.iterations) }
        ensures rules { IfOk result IsRules }
    {
        let first = u128::from(given_start(params.start)) * 1000;
        let factor = given_factor(params.cool) * 1000;
        let schedule = Schedule::fixed(
            alloc,
            first.max(1),
            factor,
            params.levels,
            params.iterations,
        )?;
        let stairs = Stairs::make(alloc)?;
        Ok(Rules {
            limit: params.iterations,
            prop: params.prop,
            schedule,
            stairs,
        })
    }
}

/// The given start, in ten-thousandths.
fn given_start(start: Option<Ten4>) -> u64
    requires { IsTrue (is_some start) }
    ensures value { Some result ≡ start }
    ensures small { result ≤ greatest_quantity }
{
    match start {
        Some(start) => start.0,
        None => unreachable!(),
    }
}

/// The given factor of a step, in millionths.
fn given_factor(cool: Mic6) -> u32
    requires { cool ≤ million }
    ensures { result ≡ cool }
{
    cool.0 as u32
}
