//! Each call of the stored project fails in turn.
use crate::host::{Host, run};
use crate::shelves::refusal;
use crate::stored_project::stored;
use mz_shelf::MemShelf;
use std::alloc::Global;
use std::cmp::Ordering;
use std::test::Fail;

/// The name of what is said, among the names of files.
const SAID: &str = "-";

const PLAN: &[u8] = b"planning_unit,zone
1,2
2,2
3,1
score,39.0000
cost,30.0000
boundary,9.0000
penalty,0.0000
shortfall,0.0000
";

const MISSING: &[u8] = b"target,zone,feature,name,level,held,shortfall,met
1,0,1,f,4.0000,5.0000,0.0000,yes
";

const SUMMARY: &[u8] = b"run,score,cost,boundary,penalty,shortfall,missing,entries,seed
1,39.0000,30.0000,9.0000,0.0000,0.0000,0,0,7
";

/// A say or a write of the project.
#[derive(Clone, Copy)]
struct Act {
    call: u64,
    name: &'static str,
    bytes: &'static [u8],
}

impl Act {
    fn new(call: u64, name: &'static str, bytes: &'static [u8]) -> Act {
        Act { call, name, bytes }
    }

    fn is_said(&self) -> bool {
        self.name == SAID
    }

    /// What the act leaves where this call fails: all, the front that the failing call takes, or nothing.
    fn left(&self, failing: &Failing) -> Option<&'static [u8]> {
        match self.call.cmp(&failing.call) {
            Ordering::Less => Some(self.bytes),
            Ordering::Equal => Some(front(self.bytes, failing.cut)),
            Ordering::Greater => None,
        }
    }
}

/// The acts behind the five reads, in order.
fn acts() -> [Act; 9] {
    [
        Act::new(5, SAID, b"seed 7\nunits 3 zones 2 targets 1 free 3\n"),
        Act::new(6, "output_r00001.csv", PLAN),
        Act::new(7, "output_mv00001.csv", MISSING),
        Act::new(8, SAID, b"run 1 score 39.0000 entries 0\n"),
        Act::new(9, "output_best.csv", PLAN),
        Act::new(10, "output_mvbest.csv", MISSING),
        Act::new(11, "output_sum.csv", SUMMARY),
        Act::new(
            12,
            "output_ssoln.csv",
            b"planning_unit,zone1,zone2\n1,0,1\n2,0,1\n3,1,0\n",
        ),
        Act::new(13, SAID, b"best 1 score 39.0000\n"),
    ]
}

/// The call that fails, how much of its bytes it takes, and whether the say of its refusal fails likewise.
#[derive(Clone, Copy)]
struct Failing {
    call: u64,
    cut: usize,
    is_silent: bool,
}

/// The first bytes, or all where there are fewer.
fn front(bytes: &[u8], most: usize) -> &[u8] {
    bytes.get(..most).unwrap_or(bytes)
}

/// What is said where this call, on this name, fails: the says before it, its own front, and the refusal.
fn said_until(alloc: Global, failing: &Failing, name: &str) -> Result<Vec<u8>, Fail> {
    let mut said = Vec::new(alloc);
    for act in acts() {
        if act.is_said() {
            said.extend_from_slice(act.left(failing).unwrap_or_default())?;
        }
    }
    let line = refusal(alloc, format!(in alloc; "fault: {name}")?.as_str())?;
    let most = if failing.is_silent {
        failing.cut
    } else {
        line.len()
    };
    said.extend_from_slice(front(&line, most))?;
    Ok(said)
}

/// Whether the files are those that the acts before the failing one leave, with its own front.
fn has_files_until(shelf: &MemShelf, failing: &Failing) -> bool {
    for act in acts() {
        if !act.is_said() && shelf.file(act.name) != act.left(failing) {
            return false;
        }
    }
    true
}

/// The project whose calls fail so.
fn failing_shelf(alloc: Global, failing: &Failing) -> Result<MemShelf, Fail> {
    if failing.is_silent {
        let refusal = failing.call.saturating_add(1);
        stored(alloc, &[failing.call, refusal], failing.cut)
    } else {
        stored(alloc, &[failing.call], failing.cut)
    }
}

/// Whether the project ends with a fault of this name and so many trails, and leaves what it should.
fn ends(rt: &impl Host, failing: Failing, name: &str, trails: usize) -> Result<bool, Fail> {
    let alloc = rt.alloc();
    let mut shelf = failing_shelf(alloc, &failing)?;
    let outcome = run(rt, &mut shelf)?;
    let said = said_until(alloc, &failing, name)?;
    Ok(
        outcome.is(3, name, trails)
            && shelf.said() == said.as_slice()
            && has_files_until(&shelf, &failing),
    )
}

/// Whether the project ends so, whatever the failing call takes: nothing, four bytes, or all.
fn ends_at(
    rt: &impl Host,
    call: u64,
    name: &str,
    trails: usize,
    is_silent: bool,
) -> Result<bool, Fail> {
    for cut in [0, 4, 1000] {
        let failing = Failing {
            call,
            cut,
            is_silent,
        };
        if !ends(rt, failing, name, trails)? {
            return Ok(false);
        }
    }
    Ok(true)
}

/// The calls in order, each with the name of its fault and the number of trails behind it.
fn calls() -> [(u64, &'static str, usize); 14] {
    [
        (0, "input.dat", 0),
        (1, "pu.dat", 0),
        (2, "feat.dat", 0),
        (3, "amounts.dat", 0),
        (4, "bound.dat", 0),
        (5, SAID, 0),
        (6, "output_r00001.csv", 1),
        (7, "output_mv00001.csv", 1),
        (8, SAID, 1),
        (9, "output_best.csv", 1),
        (10, "output_mvbest.csv", 1),
        (11, "output_sum.csv", 1),
        (12, "output_ssoln.csv", 1),
        (13, SAID, 1),
    ]
}

#[test]
fn each_call_may_fail(rt: HostRuntime) -> Result<(), Fail> {
    for (call, name, trails) in calls() {
        assert!(rt; ends_at(&rt, call, name, trails, false)?, "call {call}");
    }
    Ok(())
}

#[test]
fn the_refusal_of_each_failing_call_may_fail_itself(rt: HostRuntime) -> Result<(), Fail> {
    for (call, name, trails) in calls() {
        assert!(rt; ends_at(&rt, call, name, trails, true)?, "call {call}");
    }
    Ok(())
}

#[test]
fn no_call_behind_the_last_is_made(rt: HostRuntime) -> Result<(), Fail> {
    let mut shelf = stored(rt.alloc(), &[14], 0)?;
    let outcome = run(&rt, &mut shelf)?;
    assert!(rt; outcome.is(0, "", 1));
    assert_eq!(rt; shelf.faults(), 0);
    Ok(())
}
