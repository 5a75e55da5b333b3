//! The acceptance of a change of score.
ghost use Rattle.std.specs.Prelude.{◌≡◌, ℕ, ◌^◌, ◌<◌, ◌≤◌, unsigned_abs, IfOk};
ghost use Rattle.mz_num.specs.Limits.{greatest_score};
ghost use Rattle.mz_cool.specs.Acceptance.{AreStepsAbove, descent, is_accepted};
ghost use Rattle.mz_cool.specs.Starts.{AreStarts};
ghost use Rattle.mz_cool.specs.Table.{IsTable};

use mz_num::NoMemory;
use std::alloc::Global;
use std::marker::Model;

/// How many steps the staircase has.
const STEPS: u16 = 1408;

/// How many words a group has.
const GROUP: u32 = 1 << 20;

/// How many groups of words there are.
const GROUPS: u32 = 4096;

/// The staircase of the acceptance rule, a table that is made once. Each value has the same table,
/// so that contracts see no difference between two.
#[derive(Debug, Drop)]
pub struct Stairs {
    heights: Vec<u64>,
    /// For each group of words, counted down from the greatest, how many steps stand above them all.
    starts: Vec<u16>,
}

impl Model for Stairs {
    ghost use Rattle.mz_cool.specs.Acceptance.{descent};
    ghost use Rattle.mz_cool.specs.Starts.{AreStarts};
    ghost use Rattle.mz_cool.specs.Table.{IsTable};

    ghost Value = { Unit {0} };

    ghost view = { λ _. tt };

    ghost invariant = { λ s. IsTable descent 1408 s.heights.items × AreStarts 4096 s.starts.items };
}

impl Stairs {
    pub fn make(alloc: Global) -> Result<Stairs, NoMemory> {
        let heights = heights(alloc)?;
        let starts = starts(alloc, heights.as_slice())?;
        Ok(Stairs { heights, starts })
    }

    /// How many steps of the staircase stand above a random word. The search begins where the word's
    /// group has it begin, and mostly ends there.
    pub fn steps_above(&self, word: u32) -> u16
        ensures { AreStepsAbove word result }
    {
        let group = (u32::MAX - word) / GROUP;
        let start = self.starts[group as usize];
        steps_from(self.heights.as_slice(), start, word)
    }

    /// Whether a change of score, in ten-thousandths, is accepted at temperature `t`, in thousandths
    /// of those, with a random word: it is at most 0, or the word is below the staircase at
    /// `64000 * d / t`.
    pub fn accepts(&self, d: i128, t: u128, word: u32) -> bool
        requires size { unsigned_abs d ≤ greatest_score }
        requires above { 1 ≤ t }
        requires below { t ≤ 10 ^ 29 }
        ensures { result ≡ is_accepted d t word }
    {
        accepts_on(self.steps_above(word), d, t)
    }
}

/// Whether a change of score, in ten-thousandths, is accepted at temperature `t`, in thousandths of
/// those, with a random word that so many steps stand above. No division is needed to know it.
#[inline]
pub fn accepts_on(steps: u16, d: i128, t: u128) -> bool
    requires size { unsigned_abs d ≤ greatest_score }
    requires above { 1 ≤ t }
    requires below { t ≤ 10 ^ 29 }
    ensures { (word : ℕ) → AreStepsAbove word steps → result ≡ is_accepted d t word }
{
    d <= 0 || 64_000 * d.unsigned_abs() < u128::from(steps) * t
}

/// The heights of the steps.
fn heights(alloc: Global) -> Result<Vec<u64>, NoMemory>
    ensures { IfOk result (λ heights. IsTable descent 1408 heights.items) }
{
    let mut heights = Vec::with_capacity(alloc, STEPS as usize)?;
    let mut height: u64 = 1 << 32;
    for _step in 0..STEPS {
        heights.push(height)?;
        height -= height / 64;
    }
    Ok(heights)
}

/// For each group of words, how many steps stand above its greatest word.
fn starts(alloc: Global, heights: &[u64]) -> Result<Vec<u16>, NoMemory>
    requires { IsTable descent 1408 heights.now }
    ensures { IfOk result (λ starts. AreStarts 4096 starts.items) }
{
    let mut starts = Vec::with_capacity(alloc, GROUPS as usize)?;
    let mut start = 0;
    for group in 0..GROUPS {
        start = steps_from(heights, start, u32::MAX - group * GROUP);
        starts.push(start)?;
    }
    Ok(starts)
}

/// How many steps stand above a word, where that many at the start are known to.
fn steps_from(heights: &[u64], start: u16, word: u32) -> u16
    requires heights { IsTable descent 1408 heights.now }
    requires few { start ≤ 1408 }
    requires above { (n : ℕ) → n < start → word < descent n }
    ensures { AreStepsAbove word result }
{
    let mut steps = start;
    while steps < STEPS && u64::from(word) < heights[steps as usize] {
        steps += 1;
    }
    steps
}
