//! Gates that hold workers, or count what they pass.
use mz_crew::{Gate, Point};
use mz_num::NoMemory;
use std::alloc::Global;
use std::sync::atomic::{AtomicU64, Ordering};
use std::thread;

/// The most turns of a gate's loop.
const TURNS: u32 = 100_000_000;

/// Holds each of two seats at its first commit until both have come to theirs.
#[derive(Drop)]
pub(crate) struct Meeting {
    first: AtomicU64,
    second: AtomicU64,
    met: AtomicU64,
}

impl Meeting {
    pub(crate) fn new() -> Meeting {
        Meeting {
            first: AtomicU64::new(0),
            second: AtomicU64::new(0),
            met: AtomicU64::new(0),
        }
    }

    /// How many seats saw that the other one had come.
    pub(crate) fn met(&self) -> u64 {
        self.met.load(Ordering::SeqCst)
    }

    /// Waits until the other seat has come.
    fn wait_for(&self, other: &AtomicU64) {
        for _ in 0..TURNS {
            if other.load(Ordering::SeqCst) > 0 {
                self.met.fetch_add(1, Ordering::SeqCst);
                return;
            }
            thread::yield_now();
        }
    }
}

impl Gate for Meeting {
    fn pass(&self, seat: u8, point: Point) {
        if point != Point::Commit {
            return;
        }
        let (own, other) = if seat == 0 {
            (&self.first, &self.second)
        } else {
            (&self.second, &self.first)
        };
        if own.fetch_add(1, Ordering::SeqCst) == 0 {
            self.wait_for(other);
        }
    }
}

/// Holds nobody, and counts for each seat how often it passes three of the points.
#[derive(Drop)]
pub(crate) struct Counts {
    commits: Vec<AtomicU64>,
    decided: Vec<AtomicU64>,
    overtaken: Vec<AtomicU64>,
}

impl Counts {
    pub(crate) fn new(alloc: Global, seats: u8) -> Result<Counts, NoMemory> {
        Ok(Counts {
            commits: zeros(alloc, seats)?,
            decided: zeros(alloc, seats)?,
            overtaken: zeros(alloc, seats)?,
        })
    }

    /// Whether the seat passed as many decided points as it has turns, and one commit more than decided and overtaken
    /// points together.
    pub(crate) fn agrees(&self, seat: u8, turns: u64) -> bool {
        let commits = count_of(&self.commits, seat);
        let decided = count_of(&self.decided, seat);
        let overtaken = count_of(&self.overtaken, seat);
        decided == turns && commits.checked_sub(decided) == overtaken.checked_add(1)
    }
}

impl Gate for Counts {
    fn pass(&self, seat: u8, point: Point) {
        match point {
            Point::Commit => raise(&self.commits, seat),
            Point::Decided => raise(&self.decided, seat),
            Point::Overtaken => raise(&self.overtaken, seat),
            Point::Look | Point::Judge => {}
        }
    }
}

fn zeros(alloc: Global, seats: u8) -> Result<Vec<AtomicU64>, NoMemory> {
    let mut counts = Vec::new(alloc);
    for _ in 0..seats {
        counts.push(AtomicU64::new(0))?;
    }
    Ok(counts)
}

fn raise(counts: &Vec<AtomicU64>, seat: u8) {
    if let Some(count) = counts.get(seat as usize) {
        count.fetch_add(1, Ordering::SeqCst);
    }
}

fn count_of(counts: &Vec<AtomicU64>, seat: u8) -> u64 {
    match counts.get(seat as usize) {
        Some(count) => count.load(Ordering::SeqCst),
        None => 0,
    }
}

/// Lets a worker pass where this is the next step of a schedule; behind its end it lets all pass.
#[derive(Drop)]
pub(crate) struct Scheduled {
    steps: Vec<(u8, Point)>,
    next: AtomicU64,
    given_up: AtomicU64,
}

impl Scheduled {
    pub(crate) fn new(alloc: Global, steps: &[(u8, Point)]) -> Result<Scheduled, NoMemory> {
        Ok(Scheduled {
            steps: Vec::from_slice(alloc, steps)?,
            next: AtomicU64::new(0),
            given_up: AtomicU64::new(0),
        })
    }

    /// Whether each step was passed, and no worker waited in vain.
    pub(crate) fn is_done(&self) -> bool {
        let next = self.next.load(Ordering::SeqCst);
        next == self.steps.len() as u64 && self.given_up.load(Ordering::SeqCst) == 0
    }

    fn lets_pass(&self, seat: u8, point: Point) -> bool {
        let next = self.next.load(Ordering::SeqCst);
        match self.steps.get(next as usize) {
            None => true,
            Some(step) => {
                let is_next = step.0 == seat && step.1 == point;
                if is_next {
                    self.next.fetch_add(1, Ordering::SeqCst);
                }
                is_next
            }
        }
    }
}

impl Gate for Scheduled {
    fn pass(&self, seat: u8, point: Point) {
        for _ in 0..TURNS {
            if self.lets_pass(seat, point) {
                return;
            }
            thread::yield_now();
        }
        self.given_up.fetch_add(1, Ordering::SeqCst);
    }
}
