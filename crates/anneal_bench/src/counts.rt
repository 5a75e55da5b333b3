//! A gate that counts.
use mz_crew::{Gate, Point};
use std::sync::atomic::{AtomicU64, Ordering};

/// How often workers passed each point.
#[derive(Clone, Copy, Debug)]
pub struct Passes {
    pub looks: u64,
    pub judged: u64,
    pub commits: u64,
    pub decided: u64,
    pub overtaken: u64,
}

/// Counts what all workers pass, and holds nobody.
#[derive(Drop)]
pub struct Counts {
    looks: AtomicU64,
    judged: AtomicU64,
    commits: AtomicU64,
    decided: AtomicU64,
    overtaken: AtomicU64,
}

impl Counts {
    pub fn new() -> Counts {
        Counts {
            looks: AtomicU64::new(0),
            judged: AtomicU64::new(0),
            commits: AtomicU64::new(0),
            decided: AtomicU64::new(0),
            overtaken: AtomicU64::new(0),
        }
    }

    /// What was counted so far.
    pub fn passes(&self) -> Passes {
        Passes {
            looks: self.looks.load(Ordering::SeqCst),
            judged: self.judged.load(Ordering::SeqCst),
            commits: self.commits.load(Ordering::SeqCst),
            decided: self.decided.load(Ordering::SeqCst),
            overtaken: self.overtaken.load(Ordering::SeqCst),
        }
    }
}

impl Gate for Counts {
    fn pass(&self, _seat: u8, point: Point) {
        let count = match point {
            Point::Look => &self.looks,
            Point::Judge => &self.judged,
            Point::Commit => &self.commits,
            Point::Decided => &self.decided,
            Point::Overtaken => &self.overtaken,
        };
        count.fetch_add(1, Ordering::SeqCst);
    }
}
