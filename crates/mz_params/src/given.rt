//! The parameters that the lines of a file give.
ghost use Rattle.std.specs.Prelude.{◌≡◌, ◌≤◌, IfOk};
ghost use Rattle.std.specs.Option.{unwrap_or};
ghost use Rattle.mz_num.specs.Limits.{greatest_quantity};
ghost use Rattle.mz_params.specs.Given.{text_of, whole_at, millionths_at, seed_of, start_of, mode_of, params_of};
ghost use Rattle.mz_params.specs.KeyRange.{least_of, greatest_of};

use crate::file::value;
use crate::key::Key;
use crate::key_line::KeyLine;
use crate::params::Params;
use crate::value::{read_millionths, read_mode, read_number, read_seed, read_start, read_text};
use mz_num::limits::MILLION;
use mz_num::{Mic6, NoMemory, Ten4, Text};
use std::alloc::Global;

/// The parameters that lines without a fault give, with the defaults of keys that aren't given.
#[tactic(auto, unfolding(crate::specs::Given::params_of))]
pub(crate) fn given_params(alloc: Global, lines: &[KeyLine]) -> Result<Params, NoMemory>
    ensures { IfOk result (λ params. params ≡ params_of lines.now) }
{
    Ok(Params {
        input_dir: text_or(alloc, lines, Key::InputDir, "")?,
        output_dir: text_or(alloc, lines, Key::OutputDir, "")?,
        scen: text_or(alloc, lines, Key::ScenName, "output")?,
        units: text_or(alloc, lines, Key::PuName, "")?,
        features: text(alloc, lines, Key::FeatName)?,
        amounts: text(alloc, lines, Key::PuVsFeatName)?,
        bounds: text(alloc, lines, Key::BoundName)?,
        zones: text(alloc, lines, Key::ZonesName)?,
        costs: text(alloc, lines, Key::CostsName)?,
        zone_costs: text(alloc, lines, Key::ZoneCostName)?,
        zone_bounds: text(alloc, lines, Key::ZoneBoundCostName)?,
        contribs: text(alloc, lines, Key::ZoneContribName)?,
        zone_targets: text(alloc, lines, Key::ZoneTargetName)?,
        locks: text(alloc, lines, Key::PuLockName)?,
        zone_sets: text(alloc, lines, Key::PuZoneName)?,
        available: whole(lines, Key::AvailableZone, 1) as u32,
        blm: millionths(lines, Key::Blm, 0),
        prop: millionths(lines, Key::Prop, 0),
        miss_level: millionths(lines, Key::MissLevel, MILLION),
        seed: seed(lines),
        reps: whole(lines, Key::NumReps, 1) as u32,
        iterations: whole(lines, Key::NumItns, 0) as u32,
        start: start(lines),
        cool: millionths(lines, Key::CoolFac, MILLION),
        levels: whole(lines, Key::NumTemp, 1) as u32,
        mode: mode(lines),
        save_run: whole(lines, Key::SaveRun, 0) as u8,
        save_best: whole(lines, Key::SaveBest, 0) as u8,
        save_summary: whole(lines, Key::SaveSummary, 0) as u8,
        save_missing: whole(lines, Key::SaveTargMet, 0) as u8,
        save_summed: whole(lines, Key::SaveSumSoln, 0) as u8,
        save_turns: whole(lines, Key::SaveTurns, 0) as u8,
    })
}

/// The text of a key; none where it isn't given or empty.
#[tactic(auto, unfolding(crate::specs::Given::text_of))]
fn text(alloc: Global, lines: &[KeyLine], key: Key) -> Result<Option<Text>, NoMemory>
    ensures { IfOk result (λ text. text ≡ text_of lines.now key) }
{
    let Some(value) = value(lines, key) else {
        return Ok(None);
    };
    match read_text(key, value) {
        Ok("") | Err(_) => Ok(None),
        Ok(text) => Ok(Some(Text::new(String::from_str(alloc, text)?))),
    }
}

/// The text of a key, or its default.
fn text_or(alloc: Global, lines: &[KeyLine], key: Key, default: &str) -> Result<Text, NoMemory>
    ensures { IfOk result (λ text. text ≡ unwrap_or (text_of lines.now key) default.now) }
{
    match text(alloc, lines, key)? {
        Some(text) => Ok(text),
        None => Ok(Text::new(String::from_str(alloc, default)?)),
    }
}

/// The whole number of a key, or its default.
#[tactic(auto, unfolding(crate::specs::Given::whole_at))]
fn whole(lines: &[KeyLine], key: Key, default: u64) -> u64
    requires least { least_of key ≤ default }
    requires greatest { default ≤ greatest_of key }
    ensures value { result ≡ whole_at lines.now key default }
    ensures least { least_of key ≤ result }
    ensures greatest { result ≤ greatest_of key }
{
    match value(lines, key) {
        Some(text) => read_number(key, text).unwrap_or(default),
        None => default,
    }
}

/// The number of millionths of a key, or its default.
#[tactic(auto, unfolding(crate::specs::Given::millionths_at))]
fn millionths(lines: &[KeyLine], key: Key, default: u64) -> Mic6
    requires least { least_of key ≤ default }
    requires greatest { default ≤ greatest_of key }
    requires scale { greatest_of key ≤ greatest_quantity }
    ensures value { result ≡ millionths_at lines.now key default }
    ensures greatest { result ≤ greatest_of key }
{
    match value(lines, key) {
        Some(text) => read_millionths(key, text).unwrap_or(Mic6(default)),
        None => Mic6(default),
    }
}

/// The random seed; none where it isn't given or below 0.
#[tactic(auto, unfolding(crate::specs::Given::seed_of))]
fn seed(lines: &[KeyLine]) -> Option<u32>
    ensures { result ≡ seed_of lines.now }
{
    match value(lines, Key::RandSeed) {
        Some(text) => read_seed(Key::RandSeed, text).unwrap_or(None),
        None => None,
    }
}

/// The temperature to start at; none where it isn't given or below 0.
#[tactic(auto, unfolding(crate::specs::Given::start_of))]
fn start(lines: &[KeyLine]) -> Option<Ten4>
    ensures { result ≡ start_of lines.now }
{
    match value(lines, Key::StartTemp) {
        Some(text) => read_start(Key::StartTemp, text).unwrap_or(None),
        None => None,
    }
}

/// The run mode, or annealing and then improvement.
#[tactic(auto, unfolding(crate::specs::Given::mode_of))]
fn mode(lines: &[KeyLine]) -> u8
    ensures { result ≡ mode_of lines.now }
{
    match value(lines, Key::RunMode) {
        Some(text) => read_mode(Key::RunMode, text).unwrap_or(1),
        None => 1,
    }
}
