//! What the small problems are made of.
ghost use Rattle.std.specs.Prelude.{◌≡◌, ◌∷◌, [], IfOk, replicate};
ghost use Rattle.mz_examples.specs.Examples.{alike_zones, lone_unit, no_units, three_units, three_zones, unheld_features};
ghost use Rattle.mz_num.specs.Places.{list_below};
ghost use Rattle.mz_model.specs.Valid.{IsValid};

use mz_model::{Parts, Target};
use mz_num::{Items, NoMemory};
use std::alloc::Global;

/// A list of its own.
fn list<T: Copy>(alloc: Global, items: &[T]) -> Result<Items<T>, NoMemory>
    ensures { IfOk result (λ list. list ≡ items.now) }
{
    Ok(Items::new(Vec::from_slice(alloc, items)?))
}

fn one_name(alloc: Global) -> Result<Items<Items<u8>>, NoMemory>
    ensures { IfOk result (λ names. names ≡ (102 ∷ []) ∷ []) }
{
    let mut names = Vec::new(alloc);
    names.push(list(alloc, b"f")?)?;
    Ok(Items::new(names))
}

const ANYWHERE: Target = Target {
    feature: 0,
    zone: None,
    level: 40_000,
    weight: 600_000,
};

/// Three units in a row and two zones, the first one available; a feature of which 4 is asked.
pub fn make_three_units(alloc: Global) -> Result<Parts, NoMemory>
    ensures { IfOk result (λ parts. parts ≡ three_units) }
{
    let unit_ids = list(alloc, &[1, 2, 3])?;
    let zone_ids = list(alloc, &[1, 2])?;
    let feature_ids = list(alloc, &[1])?;
    let names = one_name(alloc)?;
    let allowed = list(alloc, &[3, 3, 3])?;
    let costs = list(alloc, &[0, 100_000, 0, 200_000, 0, 300_000])?;
    let rates = list(alloc, &[0, 1_000_000, 1_000_000, 0])?;
    let edges = list(alloc, &[(0, 1, 50_000), (1, 2, 70_000)])?;
    let outer = list(alloc, &[20_000, 0, 0])?;
    let targets = list(alloc, &[ANYWHERE])?;
    let amounts = list(alloc, &[(0, 0, 20_000), (1, 0, 30_000), (2, 0, 40_000)])?;
    let fractions = list(alloc, &[0, 1_000_000])?;
    Ok(Parts {
        unit_ids,
        zone_ids,
        feature_ids,
        names,
        available: 0,
        allowed,
        costs,
        rates,
        edges,
        outer,
        targets,
        amounts,
        fractions,
    })
}

/// The three units with a third zone: half of each amount counts in the second zone, all in the third, in
/// which 4 is asked as well.
pub fn make_three_zones(alloc: Global) -> Result<Parts, NoMemory>
    ensures { IfOk result (λ parts. parts ≡ three_zones) }
{
    let in_last = Target {
        feature: 0,
        zone: Some(2),
        level: 40_000,
        weight: 600_000,
    };
    let unit_ids = list(alloc, &[1, 2, 3])?;
    let zone_ids = list(alloc, &[1, 2, 3])?;
    let feature_ids = list(alloc, &[1])?;
    let names = one_name(alloc)?;
    let allowed = list(alloc, &[7, 7, 7])?;
    let costs = list(
        alloc,
        &[
            0, 100_000, 100_000, 0, 200_000, 200_000, 0, 300_000, 300_000,
        ],
    )?;
    let rates = list(
        alloc,
        &[
            0, 1_000_000, 1_000_000, 1_000_000, 0, 1_000_000, 1_000_000, 1_000_000, 0,
        ],
    )?;
    let edges = list(alloc, &[(0, 1, 50_000), (1, 2, 70_000)])?;
    let outer = list(alloc, &[20_000, 0, 0])?;
    let targets = list(alloc, &[ANYWHERE, in_last])?;
    let amounts = list(alloc, &[(0, 0, 20_000), (1, 0, 30_000), (2, 0, 40_000)])?;
    let fractions = list(alloc, &[0, 500_000, 1_000_000])?;
    Ok(Parts {
        unit_ids,
        zone_ids,
        feature_ids,
        names,
        available: 0,
        allowed,
        costs,
        rates,
        edges,
        outer,
        targets,
        amounts,
        fractions,
    })
}

/// The units of three zones apart from one another. They rest in the second zone, which counts as much as the
/// third.
pub fn make_alike_zones(alloc: Global) -> Result<Parts, NoMemory>
    ensures { IfOk result (λ parts. parts ≡ alike_zones) }
{
    let unit_ids = list(alloc, &[1, 2, 3])?;
    let zone_ids = list(alloc, &[1, 2, 3])?;
    let feature_ids = list(alloc, &[1])?;
    let names = one_name(alloc)?;
    let allowed = list(alloc, &[7, 7, 7])?;
    let costs = list(alloc, &[0, 0, 0, 0, 0, 0, 0, 0, 0])?;
    let rates = list(alloc, &[0, 0, 0, 0, 0, 0, 0, 0, 0])?;
    let edges = list(alloc, &[])?;
    let outer = list(alloc, &[0, 0, 0])?;
    let targets = list(alloc, &[ANYWHERE])?;
    let amounts = list(alloc, &[(0, 0, 20_000), (1, 0, 30_000), (2, 0, 40_000)])?;
    let fractions = list(alloc, &[0, 1_000_000, 1_000_000])?;
    Ok(Parts {
        unit_ids,
        zone_ids,
        feature_ids,
        names,
        available: 1,
        allowed,
        costs,
        rates,
        edges,
        outer,
        targets,
        amounts,
        fractions,
    })
}

fn three_names(alloc: Global) -> Result<Items<Items<u8>>, NoMemory>
    ensures { IfOk result (λ names. names ≡ (102 ∷ []) ∷ (103 ∷ []) ∷ (104 ∷ []) ∷ []) }
{
    let mut names = Vec::new(alloc);
    names.push(list(alloc, b"f")?)?;
    names.push(list(alloc, b"g")?)?;
    names.push(list(alloc, b"h")?)?;
    Ok(Items::new(names))
}

/// The three units with two features more that no unit holds.
pub fn make_unheld_features(alloc: Global) -> Result<Parts, NoMemory>
    ensures { IfOk result (λ parts. parts ≡ unheld_features) }
{
    let nothing = Target {
        feature: 1,
        zone: None,
        level: 0,
        weight: 10_000,
    };
    let five = Target {
        feature: 2,
        zone: None,
        level: 50_000,
        weight: 30_000,
    };
    let unit_ids = list(alloc, &[1, 2, 3])?;
    let zone_ids = list(alloc, &[1, 2])?;
    let feature_ids = list(alloc, &[1, 2, 3])?;
    let names = three_names(alloc)?;
    let allowed = list(alloc, &[3, 3, 3])?;
    let costs = list(alloc, &[0, 100_000, 0, 200_000, 0, 300_000])?;
    let rates = list(alloc, &[0, 1_000_000, 1_000_000, 0])?;
    let edges = list(alloc, &[(0, 1, 50_000), (1, 2, 70_000)])?;
    let outer = list(alloc, &[20_000, 0, 0])?;
    let targets = list(alloc, &[ANYWHERE, nothing, five])?;
    let amounts = list(alloc, &[(0, 0, 20_000), (1, 0, 30_000), (2, 0, 40_000)])?;
    let fractions = list(alloc, &[0, 0, 0, 1_000_000, 1_000_000, 1_000_000])?;
    Ok(Parts {
        unit_ids,
        zone_ids,
        feature_ids,
        names,
        available: 0,
        allowed,
        costs,
        rates,
        edges,
        outer,
        targets,
        amounts,
        fractions,
    })
}

/// The numbers below a count, as ids.
fn first_ids(alloc: Global, count: u32) -> Result<Items<u32>, NoMemory>
    ensures { IfOk result (λ ids. ids ≡ list_below count (λ id. id)) }
{
    let mut ids = Vec::new(alloc);
    for id in 0..count {
        ids.push(id)?;
    }
    Ok(Items::new(ids))
}

fn zeros(alloc: Global, len: usize) -> Result<Items<u64>, NoMemory>
    ensures { IfOk result (λ zeros. zeros ≡ replicate len 0) }
{
    Ok(Items::new(vec![in alloc; 0; len]?))
}

/// One unit that may have each of 60 zones, at no cost, and nothing else.
pub fn make_sixty_zones(alloc: Global) -> Result<Parts, NoMemory>
    ensures { IfOk result (λ parts. IsValid parts) }
{
    let unit_ids = list(alloc, &[1])?;
    let zone_ids = first_ids(alloc, 60)?;
    let feature_ids = list(alloc, &[])?;
    let names = Items::new(Vec::new(alloc));
    let allowed = list(alloc, &[0xFFF_FFFF_FFFF_FFFF])?;
    let costs = zeros(alloc, 60)?;
    let rates = zeros(alloc, 3600)?;
    let edges = list(alloc, &[])?;
    let outer = list(alloc, &[0])?;
    let targets = list(alloc, &[])?;
    let amounts = list(alloc, &[])?;
    let fractions = list(alloc, &[])?;
    Ok(Parts {
        unit_ids,
        zone_ids,
        feature_ids,
        names,
        available: 0,
        allowed,
        costs,
        rates,
        edges,
        outer,
        targets,
        amounts,
        fractions,
    })
}

/// No unit at all.
pub fn make_no_units(alloc: Global) -> Result<Parts, NoMemory>
    ensures { IfOk result (λ parts. parts ≡ no_units) }
{
    let unit_ids = list(alloc, &[])?;
    let zone_ids = list(alloc, &[1, 2])?;
    let feature_ids = list(alloc, &[])?;
    let names = Items::new(Vec::new(alloc));
    let allowed = list(alloc, &[])?;
    let costs = list(alloc, &[])?;
    let rates = list(alloc, &[0, 1_000_000, 1_000_000, 0])?;
    let edges = list(alloc, &[])?;
    let outer = list(alloc, &[])?;
    let targets = list(alloc, &[])?;
    let amounts = list(alloc, &[])?;
    let fractions = list(alloc, &[])?;
    Ok(Parts {
        unit_ids,
        zone_ids,
        feature_ids,
        names,
        available: 0,
        allowed,
        costs,
        rates,
        edges,
        outer,
        targets,
        amounts,
        fractions,
    })
}

/// One unit in two zones: no neighbour, no feature.
pub fn make_lone_unit(alloc: Global) -> Result<Parts, NoMemory>
    ensures { IfOk result (λ parts. parts ≡ lone_unit) }
{
    let unit_ids = list(alloc, &[1])?;
    let zone_ids = list(alloc, &[1, 2])?;
    let feature_ids = list(alloc, &[])?;
    let names = Items::new(Vec::new(alloc));
    let allowed = list(alloc, &[3])?;
    let costs = list(alloc, &[0, 100_000])?;
    let rates = list(alloc, &[0, 1_000_000, 1_000_000, 0])?;
    let edges = list(alloc, &[])?;
    let outer = list(alloc, &[0])?;
    let targets = list(alloc, &[])?;
    let amounts = list(alloc, &[])?;
    let fractions = list(alloc, &[])?;
    Ok(Parts {
        unit_ids,
        zone_ids,
        feature_ids,
        names,
        available: 0,
        allowed,
        costs,
        rates,
        edges,
        outer,
        targets,
        amounts,
        fractions,
    })
}
