//! Rules of parameters that give no start.
ghost use Rattle.std.specs.Prelude.{◌≤◌, IfOk};
ghost use Rattle.mz_history.specs.Rules.{IsRules};

use super::{lone_unit, no_units};
use mz_history::Rules;
use mz_model::Problem;
use mz_num::NoMemory;
use mz_params::Params;
use mz_state::rules_of;
use std::alloc::Global;
use std::test::Fail;

/// The parameters of a run of ten entries at one temperature, which is to be fitted.
const FITTED: &[u8] = b"PUNAME pu.dat\nNUMITNS 10\nNUMTEMP 1\nSTARTTEMP -1\n";

/// What the long parameter file says of the temperatures: a million entries and ten thousand levels.
const LONG: &[u8] =
    b"PUNAME pu.dat\nNUMITNS 1000000\nSTARTTEMP -1.00000000000000E+0000\nCOOLFAC  6.00000000000000E+0000\nNUMTEMP 10000\n";

/// The first temperature, in thousandths of a ten-thousandth, and the factor.
fn first_and_factor(rules: &Rules) -> Option<(u128, u32)>
    requires { IsRules rules.now }
{
    if rules.limit == 0 {
        return None;
    }
    Some((rules.schedule.at(0), rules.schedule.factor()))
}

/// The first temperature and the factor that parameters ask of a problem.
fn fit(alloc: Global, problem: &Problem, input: &[u8]) -> Result<Option<(u128, u32)>, NoMemory> {
    let Ok(params) = Params::read(alloc, input) else {
        return Ok(None);
    };
    let rules = rules_of(alloc, problem, &params, 7, 1)?;
    Ok(first_and_factor(&rules))
}

#[test]
fn a_lone_unit_of_cost_ten(rt: HostRuntime) -> Result<(), Fail> {
    let problem = lone_unit(rt.alloc())?;
    assert!(rt; fit(rt.alloc(), &problem, FITTED)? == Some((100_000_000, 100_000_009)));
    Ok(())
}

#[test]
fn no_free_unit_changes_nothing(rt: HostRuntime) -> Result<(), Fail> {
    let problem = no_units(rt.alloc())?;
    assert!(rt; fit(rt.alloc(), &problem, FITTED)? == Some((1_000, 1_999_999)));
    Ok(())
}

// This factor was worked out by bench/outside.py.
#[test]
fn ten_thousand_levels_of_the_long_file(rt: HostRuntime) -> Result<(), Fail> {
    let problem = lone_unit(rt.alloc())?;
    assert!(rt; fit(rt.alloc(), &problem, LONG)? == Some((100_000_000, 999_769_787)));
    Ok(())
}
