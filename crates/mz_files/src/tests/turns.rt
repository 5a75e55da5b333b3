ghost use Rattle.std.specs.Prelude.{◌<◌};
ghost use Rattle.mz_files.specs.Turns.{AreSeats};

use crate::{RunTrail, turns_text};
use mz_model::Score;
use mz_num::{Items, NoMemory};
use std::alloc::Global;
use std::test::Fail;

const NOTHING: Score = Score {
    cost: 0,
    boundary: 0,
    penalty: 0,
    total: 0,
};

/// Whether one run with these turns has this text.
fn is_text(alloc: Global, turns: &[u8], text: &[u8]) -> Result<bool, NoMemory>
    requires { AreSeats turns.now }
{
    let trail = RunTrail {
        run: 1,
        seed: 7,
        turns: Items::new(Vec::from_slice(alloc, turns)?),
        score: NOTHING,
    };
    Ok(turns_text(alloc, &[trail])?.as_slice() == text)
}

#[test]
fn a_run_without_entries_has_no_turns(rt: HostRuntime) -> Result<(), Fail> {
    let text = b"marzone turns 1\nrun 1 seed 7 entries 0\n";
    assert!(rt; is_text(rt.alloc(), &[], text)?);
    Ok(())
}

#[test]
fn five_turns_of_one_seat_are_a_line(rt: HostRuntime) -> Result<(), Fail> {
    let text = b"marzone turns 1\nrun 1 seed 7 entries 5\n00000\n";
    assert!(rt; is_text(rt.alloc(), &[0, 0, 0, 0, 0], text)?);
    Ok(())
}

#[test]
fn seats_are_digits_and_letters(rt: HostRuntime) -> Result<(), Fail> {
    let text = b"marzone turns 1\nrun 1 seed 7 entries 6\n09AZax\n";
    assert!(rt; is_text(rt.alloc(), &[0, 9, 10, 35, 36, 59], text)?);
    Ok(())
}

/// Whether so many turns of a seat have this text.
fn is_text_of_seat(alloc: Global, seat: u8, count: usize, text: &[u8]) -> Result<bool, NoMemory>
    requires { seat < 60 }
{
    let turns = vec![in alloc; seat; count]?;
    is_text(alloc, turns.as_slice(), text)
}

#[test]
fn the_turn_after_64_begins_a_line(rt: HostRuntime) -> Result<(), Fail> {
    let text = b"marzone turns 1\nrun 1 seed 7 entries 65\n\
        1111111111111111111111111111111111111111111111111111111111111111\n1\n";
    assert!(rt; is_text_of_seat(rt.alloc(), 1, 65, text)?);
    Ok(())
}
