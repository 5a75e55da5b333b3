//! The schedule that fits sampled changes of score.
ghost use Rattle.std.specs.Prelude.{◌≡◌, ◌^◌, ◌≤◌, ◌<◌, IfOk, IfSome, All, map, min, nat_le, unsigned_abs, length};
ghost use Rattle.std.specs.Option.{option_map_or};
ghost use Rattle.mz_num.specs.Limits.{greatest_score};
ghost use Rattle.mz_cool.specs.Schedule.{temperature_of_level};
ghost use Rattle.mz_cool.specs.Adaptive.{adaptive_cooling, adaptive_factor, first_temperature, last_temperature, greatest, least, sizes_above_0};

use crate::schedule::{Schedule, WHOLE, cooled};
use mz_num::NoMemory;
use std::alloc::Global;

impl Schedule {
    /// The schedule for sampled changes of score, in ten-thousandths: it begins at a thousand times
    /// the greatest size of a change, and its factor is the greatest with which so many steps end at
    /// a hundred times the least size other than 0, or below.
    pub fn adaptive(
        alloc: Global,
        changes: &[i128],
        levels: u32,
        limit: u32,
    ) -> Result<Schedule, NoMemory>
        requires some_change { 0 < length changes.now }
        requires sizes { All (λ d. unsigned_abs d ≤ greatest_score) changes.now }
        requires some_level { 1 ≤ levels }
        ensures { IfOk result (λ s. s ≡ adaptive_cooling changes.now levels limit) }
    {
        let first = first_temperature(changes);
        let factor = adaptive_factor(first, last_temperature(changes), levels);
        Schedule::fixed(alloc, first, factor, levels, limit)
    }
}

/// A thousand times the greatest size of the changes, or of the size 1.
#[tactic(auto, unfolding(crate::specs::Adaptive::first_temperature))]
fn first_temperature(changes: &[i128]) -> u128
    requires { All (λ d. unsigned_abs d ≤ greatest_score) changes.now }
    ensures value { result ≡ first_temperature changes.now }
    ensures above { 1 ≤ result }
    ensures below { result ≤ 10 ^ 29 }
{
    1000 * greatest_size(changes).max(1)
}

/// A hundred times the least size of the changes other than 0, at least 1, or 1 where all are 0.
fn last_temperature(changes: &[i128]) -> u128
    requires { All (λ d. unsigned_abs d ≤ greatest_score) changes.now }
    ensures value { result ≡ last_temperature changes.now }
    ensures above { 1 ≤ result }
{
    match least_size(changes) {
        Some(size) => (100 * size).max(1),
        None => 1,
    }
}

/// The greatest size of the changes.
fn greatest_size(changes: &[i128]) -> u128
    requires { All (λ d. unsigned_abs d ≤ greatest_score) changes.now }
    ensures value { result ≡ greatest (map unsigned_abs changes.now) }
    ensures bound { result ≤ greatest_score }
{
    let mut greatest: u128 = 0;
    for change in changes {
        greatest = greatest.max(change.unsigned_abs());
    }
    greatest
}

/// The least size of the changes other than 0.
fn least_size(changes: &[i128]) -> Option<u128>
    requires { All (λ d. unsigned_abs d ≤ greatest_score) changes.now }
    ensures value { result ≡ least (sizes_above_0 changes.now) }
    ensures bound { IfSome result (λ size. size ≤ greatest_score) }
{
    let mut least: Option<u128> = None;
    for change in changes {
        let size = change.unsigned_abs();
        if size > 0 {
            least = Some(smaller(least, size));
        }
    }
    least
}

/// The smaller of two numbers, of which there may be only the second.
fn smaller(least: Option<u128>, size: u128) -> u128
    ensures { result ≡ option_map_or (λ m. min m size) least size }
{
    match least {
        Some(least) => least.min(size),
        None => size,
    }
}

/// The greatest factor below 1 with which so many steps from the first temperature end at most at
/// the last. The temperature at the end rises with the factor, so that halving finds it.
fn adaptive_factor(first: u128, last: u128, levels: u32) -> u32
    // The first and the last temperature, and the levels between them.
    requires above { 1 ≤ first }
    requires below { first ≤ 10 ^ 29 }
    requires end { 1 ≤ last }
    requires some_level { 1 ≤ levels }

    // The factor.
    ensures value { result ≡ adaptive_factor first last levels }
    ensures bound { result < 10 ^ 9 }
{
    let mut passing = 0;
    let mut failing = WHOLE;
    while passing + 1 < failing {
        let middle = passing + (failing - passing) / 2;
        if ends_within(first, last, middle, levels) {
            passing = middle;
        } else {
            failing = middle;
        }
    }
    passing
}

/// Whether so many steps from the first temperature end at most at the last. No step raises a
/// temperature, so the walk stops once it is low enough.
fn ends_within(first: u128, last: u128, factor: u32, levels: u32) -> bool
    requires above { 1 ≤ first }
    requires below { first ≤ 10 ^ 29 }
    requires factors { factor ≤ 10 ^ 9 }
    ensures { result ≡ nat_le (temperature_of_level first factor levels) last }
{
    let mut temperature = first;
    for _level in 0..levels {
        if temperature <= last {
            return true;
        }
        temperature = cooled(temperature, factor);
    }
    temperature <= last
}
