//! Waiting for the turn: first by looks at the lock word, then asleep.
use super::{Board, LOCK};
use crate::patience::VainTurns;
use crate::story::Story;
use crossbeam_utils::Backoff;
use std::sync::Wait;
use std::sync::atomic::Ordering;

/// The rest behind the last look is as long as this power of two of whole back-offs, and each one before it half as long
/// as the next.
const LAST_REST: u32 = 6;

/// The first rest of a chair whose turns are often in vain.
const PATIENT_REST: u32 = 3;

/// So many rounds complete a `Backoff`: the first seven spin, the others yield the processor.
const ROUNDS: u32 = 11;

impl<T: Story + Send + Drop> Board<T> {
    // Stays away while another chair has the turn, but for a bounded number of looks. A look takes the lock word's cache
    // line from the chair that has the turn, and a turn takes the lines of the value from the one before it: so rests
    // get longer. Where turns are often in vain, chairs that work at once spoil each other's work: one that rests for
    // the time of many turns lets another have these in a row, which is quicker for both.
    pub(super) fn stay_away(&self, vain: VainTurns) {
        let first = if vain.are_often() { PATIENT_REST } else { 0 };
        for power in first..=LAST_REST {
            if self.table.shared.peek(LOCK) == 0 {
                return;
            }
            rest(1 << power);
        }
    }

    // Sleeps while the chair with this number has the turn, or for less.
    //
    // No sleeper is stranded. It is counted from before the park compares the lock word until it is awake, and all of
    // these steps are sequentially consistent. If the holder sets the word to 0 before that comparison, the park finds
    // another word and returns; where the holder has the turn once more, that turn's release is yet to come. If it sets
    // the word after the comparison, it reads the hint later still, finds the sleeper counted and wakes one. Whoever
    // wakes tries again: it takes the turn or finds it taken, and either turn ends with a release that wakes the next.
    pub(super) fn sleep<R: Wait>(&self, rt: &R, holder: u8) {
        let shared = &self.table.shared;
        let word = holder as u32 + 1;
        self.sleepers.fetch_add(1, Ordering::SeqCst);
        if shared.peek(LOCK) == word as u64 {
            shared.park(rt, LOCK, word);
        }
        self.sleepers.fetch_sub(1, Ordering::SeqCst);
    }

    // Wakes one sleeper, where any is counted. A release calls it after it has set the lock word to 0, never before.
    pub(super) fn wake_sleeper(&self) {
        if self.sleepers.load(Ordering::SeqCst) != 0 {
            self.table.shared.wake_one(LOCK);
        }
    }
}

// Rests for so many whole back-offs.
fn rest(backoffs: u32) {
    for _ in 0..backoffs {
        back_off();
    }
}

// Rests for a whole back-off, some microseconds.
fn back_off() {
    let backoff = Backoff::new();
    for _ in 0..ROUNDS {
        backoff.snooze();
    }
}
