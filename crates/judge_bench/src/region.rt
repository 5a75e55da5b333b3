//! A region with three zones, of which the first is available.
ghost use Rattle.std.specs.Prelude.{◌≡◌, IfOk};
ghost use Rattle.mz_model.specs.Valid.{IsValid};
ghost use Rattle.judge_bench.specs.Region.{three_rates};

use crate::fault::Fault;
use crate::numbers::Numbers;
use crate::rows::{are_apart, fractions, no_names, places, repeated, rows, targets, values};
use mz_model::{Parts, Problem};
use mz_num::Items;
use std::alloc::Global;

/// The region that numbers say, one after another: the number of units; each unit's cost in each
/// zone; the number of pairs of neighbours, and each pair with its length; the number of features,
/// and the level and weight of each one's target; the number of amounts, and for each its unit,
/// feature and amount. All are whole ten-thousandths, and units and features are places from 0.
pub fn region(alloc: Global, numbers: &mut Numbers) -> Result<Problem, Fault> {
    let parts = parts(alloc, numbers)?;
    let problem = Problem::build(alloc, parts)?;
    Ok(problem)
}

fn parts(alloc: Global, numbers: &mut Numbers) -> Result<Parts, Fault>
    ensures { IfOk result (λ parts. IsValid parts) }
{
    let units = numbers.at_most(100_000)? as u32;
    let costs = values(alloc, numbers, units as usize * 3)?;
    let edges = rows(alloc, numbers, 1_000_000, units, units)?;
    if !are_apart(edges.as_slice()) {
        return Err(Fault::Malformed);
    }
    let features = numbers.at_most(10_000)? as u32;
    let targets = targets(alloc, numbers, features)?;
    let amounts = rows(alloc, numbers, 5_000_000, units, features)?;
    let unit_ids = places(alloc, units)?;
    let zone_ids = places(alloc, 3)?;
    let feature_ids = places(alloc, features)?;
    let names = no_names(alloc, features)?;
    let allowed = repeated(alloc, 7, units)?;
    let rates = rates(alloc)?;
    let outer = repeated(alloc, 0, units)?;
    let fractions = fractions(alloc, features)?;
    Ok(Parts {
        unit_ids,
        zone_ids,
        feature_ids,
        names,
        available: 0,
        allowed,
        costs,
        rates,
        edges,
        outer,
        targets,
        amounts,
        fractions,
    })
}

/// The rates of boundaries between three zones, in millionths.
fn rates(alloc: Global) -> Result<Items<u64>, Fault>
    ensures { IfOk result (λ rates. rates ≡ three_rates) }
{
    let rates = [
        0, 500_000, 500_000, 500_000, 0, 250_000, 500_000, 250_000, 0,
    ];
    let rates = Vec::from_slice(alloc, &rates)?;
    Ok(Items::new(rates))
}
