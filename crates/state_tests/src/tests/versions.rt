//! What overtakes a reading of the kept state, by hand. The random seeds are the least ones whose first draws
//! are of the stated units, worked out of the words of Pcg32 by a script.
ghost use Rattle.std.specs.Prelude.{◌≤◌, ◌^◌};

use super::decided::rules;
use super::events::{COLD, Step, WARM, last_reply};
use super::{alike_zones, three_units};
use Step::{Commit, Look};
use mz_history::Reply;
use mz_model::Problem;
use mz_num::NoMemory;
use std::alloc::Global;
use std::test::Fail;

/// What a commit comes to.
#[derive(Clone, Copy, PartialEq, Eq)]
enum Outcome {
    Decided,
    Again(u32),
    Neither,
}

use Outcome::{Again, Decided, Neither};

fn outcome_of(reply: Reply) -> Outcome {
    match reply {
        Reply::Decided(_) => Decided,
        Reply::Again(position) => Again(position),
        _ => Neither,
    }
}

/// What the last of some steps comes to.
fn last_commit(
    alloc: Global,
    problem: &Problem,
    temperature: u128,
    seed: u64,
    steps: &[Step],
) -> Result<Outcome, NoMemory>
    requires above { 1 ≤ temperature }
    requires below { temperature ≤ 10 ^ 29 }
{
    let rules = rules(alloc, 100, temperature)?;
    let reply = last_reply(alloc, problem, &rules, seed, steps)?;
    Ok(outcome_of(reply))
}

#[test]
fn a_neighbour_overtakes_an_earlier_front_alone(rt: HostRuntime) -> Result<(), Fail> {
    let problem = three_units(rt.alloc())?;
    let before = last_commit(
        rt.alloc(),
        &problem,
        WARM,
        6,
        &[Look(0), Look(1), Commit(1), Commit(0)],
    )?;
    assert!(rt; before == Again(0));
    let after = last_commit(
        rt.alloc(),
        &problem,
        WARM,
        6,
        &[Look(1), Commit(1), Look(0), Commit(0)],
    )?;
    assert!(rt; after == Decided);
    Ok(())
}

#[test]
fn a_refused_entry_changes_no_version(rt: HostRuntime) -> Result<(), Fail> {
    let problem = three_units(rt.alloc())?;
    let steps = [Look(1), Commit(1), Look(0), Look(1), Commit(1), Commit(0)];
    let refused = last_commit(rt.alloc(), &problem, COLD, 6, &steps)?;
    assert!(rt; refused == Decided);
    let accepted = last_commit(rt.alloc(), &problem, WARM, 6, &steps)?;
    assert!(rt; accepted == Again(1));
    Ok(())
}

#[test]
fn a_row_with_equal_gains_is_not_changed(rt: HostRuntime) -> Result<(), Fail> {
    let problem = alike_zones(rt.alloc())?;
    let steps = [Look(0), Look(1), Commit(1), Commit(0)];
    // The third unit goes to the zone that counts alike, and then to the one that doesn't count.
    let alike = last_commit(rt.alloc(), &problem, COLD, 10, &steps)?;
    assert!(rt; alike == Decided);
    let other = last_commit(rt.alloc(), &problem, COLD, 0, &steps)?;
    assert!(rt; other == Again(0));
    Ok(())
}
