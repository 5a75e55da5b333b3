//! The temperatures of a history.
ghost use Rattle.std.specs.Prelude.{◌≡◌, ℕ, ◌*◌, ◌/◌, ◌^◌, ◌<◌, ◌≤◌, max, IfOk};
ghost use Rattle.mz_cool.specs.Table.{IsTable};
ghost use Rattle.mz_cool.specs.Level.{IsLevelFrom};
ghost use Rattle.mz_cool.specs.Schedule.{temperature_of_level, temperature_at};

use crate::level::Level;
use mz_num::NoMemory;
use std::alloc::Global;
use std::marker::Model;

/// The factor 1, in thousand-millionths.
pub(crate) const WHOLE: u32 = 1_000_000_000;

/// The temperature of each entry of a history, in thousandths of a ten-thousandth. The levels'
/// temperatures are a table that is made once.
#[derive(Debug, Drop)]
pub struct Schedule {
    first: u128,
    factor: u32,
    levels: u32,
    limit: u32,
    temperatures: Vec<u128>,
}

impl Model for Schedule {
    ghost use Rattle.mz_cool.specs.Table.{IsTable};
    ghost use Rattle.mz_cool.specs.Schedule.{Cooling, IsSchedule, temperature_of_level};

    ghost Value = { Cooling };

    ghost view = { λ s. record { first = s.first; factor = s.factor; levels = s.levels; limit = s.limit } };

    ghost invariant = { λ s.
        IsSchedule (record { first = s.first; factor = s.factor; levels = s.levels; limit = s.limit })
        × IsTable (temperature_of_level s.first s.factor) s.levels s.temperatures.items };
}

impl Schedule {
    /// The schedule with first temperature `t0`, in thousandths of a ten-thousandth, and `factor`,
    /// in thousand-millionths, over so many levels of a history with at most `limit` entries.
    pub fn fixed(
        alloc: Global,
        t0: u128,
        factor: u32,
        levels: u32,
        limit: u32,
    ) -> Result<Schedule, NoMemory>
        requires above { 1 ≤ t0 }
        requires below { t0 ≤ 10 ^ 29 }
        requires factors { factor ≤ 10 ^ 9 }
        requires some_level { 1 ≤ levels }
        ensures { IfOk result (λ s. s ≡ record { first = t0; factor = factor; levels = levels; limit = limit }) }
    {
        let temperatures = temperatures(alloc, t0, factor, levels)?;
        Ok(Schedule {
            first: t0,
            factor,
            levels,
            limit,
            temperatures,
        })
    }

    /// The factor of a step, in thousand-millionths.
    pub fn factor(&self) -> u32
        ensures value { result ≡ self.now.factor }
        ensures bound { result ≤ 10 ^ 9 }
    {
        self.factor
    }

    /// The temperature of the entry at a position, in thousandths of a ten-thousandth.
    #[tactic(auto, unfolding(crate::specs::Schedule::temperature_at))]
    pub fn at(&self, position: u32) -> u128
        requires { position < self.now.limit }
        ensures value { result ≡ temperature_at self.now position }
        ensures above { 1 ≤ result }
        ensures below { result ≤ 10 ^ 29 }
    {
        let level = u64::from(position) * u64::from(self.levels) / u64::from(self.limit);
        self.temperatures[level as usize]
    }

    /// The temperature of the entry at a position, and up to which position it stays.
    pub fn level_at(&self, position: u32) -> Level
        requires { position < self.now.limit }
        ensures level { IsLevelFrom self.now position result }
        ensures here { position < result.end }
        ensures next { (p : ℕ) → result.end ≤ p
            → position * self.now.levels / self.now.limit < p * self.now.levels / self.now.limit }
    {
        let limit = u64::from(self.limit);
        let levels = u64::from(self.levels);
        let level = u64::from(position) * levels / limit;
        Level {
            temperature: self.temperatures[level as usize],
            end: ((level + 1) * limit).div_ceil(levels) as u32,
        }
    }
}

/// The temperatures of the levels, in order.
fn temperatures(alloc: Global, first: u128, factor: u32, levels: u32) -> Result<Vec<u128>, NoMemory>
    requires above { 1 ≤ first }
    requires below { first ≤ 10 ^ 29 }
    requires factors { factor ≤ 10 ^ 9 }
    ensures { IfOk result (λ v. IsTable (temperature_of_level first factor) levels v.items) }
{
    let mut temperatures = Vec::with_capacity(alloc, levels as usize)?;
    let mut temperature = first;
    for _level in 0..levels {
        temperatures.push(temperature)?;
        temperature = cooled(temperature, factor);
    }
    Ok(temperatures)
}

/// The temperature of the next level.
pub(crate) fn cooled(temperature: u128, factor: u32) -> u128
    requires below { temperature ≤ 10 ^ 29 }
    requires factors { factor ≤ 10 ^ 9 }
    ensures { result ≡ max 1 (temperature * factor / 10 ^ 9) }
{
    (temperature * u128::from(factor) / u128::from(WHOLE)).max(1)
}
