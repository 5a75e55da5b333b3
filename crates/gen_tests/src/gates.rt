//! A gate that holds workers until two have come.
use mz_crew::{Gate, Point};
use std::sync::atomic::{AtomicU64, Ordering};
use std::thread;

/// The most turns of the gate's loop.
const TURNS: u32 = 100_000_000;

/// Holds each seat at its first commit until two seats have come to theirs.
#[derive(Drop)]
pub(crate) struct Pairing {
    /// A bit for each seat that has come.
    come: AtomicU64,
    paired: AtomicU64,
}

impl Pairing {
    pub(crate) fn new() -> Pairing {
        Pairing {
            come: AtomicU64::new(0),
            paired: AtomicU64::new(0),
        }
    }

    /// How many seats saw that two had come.
    pub(crate) fn paired(&self) -> u64 {
        self.paired.load(Ordering::SeqCst)
    }

    fn wait_for_two(&self) {
        for _ in 0..TURNS {
            if self.come.load(Ordering::SeqCst).count_ones() >= 2 {
                self.paired.fetch_add(1, Ordering::SeqCst);
                return;
            }
            thread::yield_now();
        }
    }
}

impl Gate for Pairing {
    fn pass(&self, seat: u8, point: Point) {
        if point != Point::Commit || seat > 59 {
            return;
        }
        let own = 1u64 << seat;
        if self.come.fetch_or(own, Ordering::SeqCst) & own == 0 {
            self.wait_for_two();
        }
    }
}
