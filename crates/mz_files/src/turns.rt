//! The turns of all runs, as letters.
ghost use Rattle.std.specs.Prelude.{◌≡◌, ◌<◌, ◌++◌, length, map, IfOk, OnOk};
ghost use Rattle.std.specs.List.{All};
ghost use Rattle.mz_num.specs.Limits.{most_workers};
ghost use Rattle.mz_files.specs.Turns.{AreSeats, line_count, run_turns, seat_code};
ghost use Rattle.mz_files.specs.Turns.{turn_line, turn_lines, turns_in, turns_text};
ghost use Rattle.mz_files.specs.declared.trail.RunTrail.{RunTrail};

use crate::trail::RunTrail;
use mz_num::{NoMemory, push_bytes, push_number};
use std::alloc::Global;

/// The turns in a line.
const LINE: usize = 64;

/// A header, and for each run a line with its number, its random seed and its number of entries, followed by
/// the seats of its turns in lines of 64 characters: `0` to `9`, `A` to `Z`, and `a` to `x`.
#[tactic(auto, unfolding(crate::specs::Turns::turns_text))]
pub fn turns_text(alloc: Global, trails: &[RunTrail]) -> Result<Vec<u8>, NoMemory>
    requires { All (λ (trail : RunTrail). AreSeats trail.turns) trails.now }
    ensures { IfOk result (λ text. text.items ≡ turns_text trails.now) }
{
    let mut text = Vec::from_slice(alloc, b"marzone turns 1\n")?;
    for trail in trails {
        push_run(&mut text, trail)?;
    }
    Ok(text)
}

fn push_run(text: &mut Vec<u8>, trail: &RunTrail) -> Result<(), NoMemory>
    requires { AreSeats trail.now.turns }
    ensures { OnOk result (text.new.items ≡ text.old.items ++ run_turns trail.now) }
{
    push_bytes(text, b"run ")?;
    push_number(text, u64::from(trail.run))?;
    push_bytes(text, b" seed ")?;
    push_number(text, trail.seed)?;
    push_bytes(text, b" entries ")?;
    push_number(text, trail.turns.len() as u64)?;
    push_bytes(text, b"\n")?;
    push_lines(text, trail.turns.as_slice())
}

fn push_lines(text: &mut Vec<u8>, turns: &[u8]) -> Result<(), NoMemory>
    requires { AreSeats turns.now }
    ensures { OnOk result (text.new.items ≡ text.old.items ++ turn_lines turns.now) }
{
    for line in 0..turns.len().div_ceil(LINE) {
        push_line(text, turns, line)?;
    }
    Ok(())
}

fn push_line(text: &mut Vec<u8>, turns: &[u8], line: usize) -> Result<(), NoMemory>
    requires seats { AreSeats turns.now }
    requires in_range { line < line_count turns.now }
    ensures { OnOk result (text.new.items ≡ text.old.items ++ turn_line turns.now line) }
{
    push_seats(text, turns_in(turns, line))?;
    push_bytes(text, b"\n")
}

/// The turns that stand in a line.
fn turns_in(turns: &[u8], line: usize) -> &[u8]
    requires { line < line_count turns.now }
    ensures { result.now ≡ turns_in turns.now line }
{
    let rest = &turns[line * LINE..];
    &rest[..LINE.min(rest.len())]
}

fn push_seats(text: &mut Vec<u8>, seats: &[u8]) -> Result<(), NoMemory>
    requires { AreSeats seats.now }
    ensures { OnOk result (text.new.items ≡ text.old.items ++ map seat_code seats.now) }
{
    for seat in seats {
        text.push(seat_letter(*seat))?;
    }
    Ok(())
}

fn seat_letter(seat: u8) -> u8
    requires { seat < most_workers }
    ensures { result ≡ seat_code seat }
{
    match seat {
        0..=9 => b'0' + seat,
        10..=35 => b'A' + (seat - 10),
        _ => b'a' + (seat - 36),
    }
}
