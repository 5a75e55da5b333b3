//! The amount file of the stored project, cut at each of its lengths.
use crate::host::Host;
use crate::stored_project::{AMOUNTS, accepts, refuses};
use std::test::Fail;

/// How the project with the first bytes of its amount file ends.
enum End {
    Refused(&'static str),
    Best(&'static str),
}

/// What so many bytes of the file give.
fn end_at(length: usize) -> End {
    match length {
        0 => End::Refused("amounts: no header"),
        1..=6 => End::Refused("amounts: column featureid missing"),
        7..=9 => End::Refused("amounts: column puid missing"),
        10..=16 => End::Refused("amounts: column amount missing"),
        17 | 18 => End::Best("best 1 score 2.0000\n"),
        19..=21 => End::Refused("amounts: line 2 uneven"),
        22 => End::Refused("amounts: line 2 bad number in amount: empty"),
        23 | 24 => End::Best("best 1 score 20.0000\n"),
        25..=27 => End::Refused("amounts: line 3 uneven"),
        28 => End::Refused("amounts: line 3 bad number in amount: empty"),
        31..=33 => End::Refused("amounts: line 4 uneven"),
        34 => End::Refused("amounts: line 4 bad number in amount: empty"),
        _ => End::Best("best 1 score 39.0000\n"),
    }
}

fn ends_at(rt: &impl Host, length: usize) -> Result<bool, Fail> {
    let bytes = AMOUNTS.get(..length).unwrap_or(AMOUNTS);
    match end_at(length) {
        End::Refused(text) => refuses(rt, "amounts.dat", bytes, text),
        End::Best(line) => accepts(rt, "amounts.dat", bytes, line),
    }
}

#[test]
fn each_length_has_its_end(rt: HostRuntime) -> Result<(), Fail> {
    for length in 0..=36 {
        assert!(rt; ends_at(&rt, length)?, "{length}");
    }
    Ok(())
}
