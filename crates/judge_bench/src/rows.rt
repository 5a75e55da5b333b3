//! The lists of a region, each with what makes it one of a problem.
ghost use Rattle.std.specs.Prelude.{◌≡◌, ℕ, ◌*◌, ◌<◌, ◌≤◌, ◌^◌, IfOk, length, nat_lt, replicate};
ghost use Rattle.std.specs.List.{All, list_all};
ghost use Rattle.mz_num.specs.Places.{list_below};
ghost use Rattle.judge_bench.specs.Region.{AreRows, AreTargets};

use crate::fault::Fault;
use crate::numbers::Numbers;
use mz_model::Target;
use mz_num::Items;
use std::alloc::Global;

/// So many numbers, each at most 10^12.
pub fn values(alloc: Global, numbers: &mut Numbers, count: usize) -> Result<Items<u64>, Fault>
    ensures { IfOk result (λ values. (length values ≡ count) × All (λ value. value ≤ 10 ^ 12) values) }
{
    let mut values = Vec::new(alloc);
    for _place in 0..count {
        values.push(numbers.at_most(1_000_000_000_000)?)?;
    }
    Ok(Items::new(values))
}

/// Rows of two places and a value, in order: the number of rows first, at most `most`.
pub fn rows(
    alloc: Global,
    numbers: &mut Numbers,
    most: u64,
    firsts: u32,
    seconds: u32,
) -> Result<Items<(u32, u32, u64)>, Fault>
    ensures { IfOk result (λ rows. AreRows most firsts seconds rows) }
{
    let count = numbers.at_most(most)?;
    let mut rows = Vec::new(alloc);
    let mut least: u64 = 0;
    for _place in 0..count {
        let first = numbers.below(firsts)?;
        let second = numbers.below(seconds)?;
        let value = numbers.at_most(1_000_000_000)?;
        let key = first as u64 * 4_294_967_296 + second as u64;
        if value == 0 {
            return Err(Fault::Malformed);
        }
        if key < least {
            return Err(Fault::Malformed);
        }
        least = key + 1;
        rows.push((first, second, value))?;
    }
    Ok(Items::new(rows))
}

/// Whether each row's first place is below its second.
pub fn are_apart(rows: &[(u32, u32, u64)]) -> bool
    ensures { result ≡ list_all (λ (row : ℕ × ℕ × ℕ). nat_lt row.0 row.1) rows.now }
{
    rows.iter().all(|row| row.0 < row.1)
}

/// A target over all zones for each feature: its level and its weight.
pub fn targets(alloc: Global, numbers: &mut Numbers, features: u32) -> Result<Items<Target>, Fault>
    ensures { IfOk result (λ targets. AreTargets features targets) }
{
    let mut targets = Vec::new(alloc);
    for feature in 0..features {
        let level = numbers.at_most(1_000_000_000_000)?;
        let weight = numbers.at_most(1_000_000_000_000)?;
        let target = Target {
            feature,
            zone: None,
            level,
            weight,
        };
        targets.push(target)?;
    }
    Ok(Items::new(targets))
}

/// The places below a number.
pub fn places(alloc: Global, count: u32) -> Result<Items<u32>, Fault>
    ensures { IfOk result (λ places. places ≡ list_below count (λ place. place)) }
{
    let mut places = Vec::new(alloc);
    for place in 0..count {
        places.push(place)?;
    }
    Ok(Items::new(places))
}

/// So many empty names.
pub fn no_names(alloc: Global, count: u32) -> Result<Items<Items<u8>>, Fault>
    ensures { IfOk result (λ names. length names ≡ count) }
{
    let mut names = Vec::new(alloc);
    for _place in 0..count {
        names.push(Items::new(Vec::new(alloc)))?;
    }
    Ok(Items::new(names))
}

/// The value, so many times.
pub fn repeated(alloc: Global, value: u64, count: u32) -> Result<Items<u64>, Fault>
    ensures { IfOk result (λ values. values ≡ replicate count value) }
{
    let mut values = Vec::new(alloc);
    for _place in 0..count {
        values.push(value)?;
    }
    Ok(Items::new(values))
}

/// The fractions of three zones, in millionths: nothing, one half, and all of each feature.
pub fn fractions(alloc: Global, features: u32) -> Result<Items<u64>, Fault>
    requires { features ≤ 10000 }
    ensures { IfOk result (λ fractions.
        (length fractions ≡ 3 * features) × All (λ fraction. fraction ≤ 1000000) fractions) }
{
    let mut fractions = Vec::new(alloc);
    for place in 0..3 * features {
        let fraction = if place < features {
            0
        } else if place < 2 * features {
            500_000
        } else {
            1_000_000
        };
        fractions.push(fraction)?;
    }
    Ok(Items::new(fractions))
}
