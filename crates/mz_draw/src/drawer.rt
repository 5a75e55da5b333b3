//! The draws of a seat in a run, one after another.
ghost use Rattle.std.specs.Prelude.{◌≡◌, ℕ, ◌+◌, ◌*◌, ◌%◌, ◌^◌, ◌<◌, ◌≤◌, length, All};
ghost use Rattle.mz_num.specs.Limits.{most_runs, most_zones};
ghost use Rattle.mz_draw.specs.Words.{word_at};
ghost use Rattle.mz_draw.specs.Draws.{draw_at, IsDrawFrom};

use crate::draw::{Draw, pick, pick_place};
use rand_core::utils::NextWord;
use rand_pcg::Pcg32;
use std::marker::Model;

/// A seat's random words in a run, those of Pcg32 made by `new` with the random seed as state and
/// `run * 64 + seat` as stream. Contracts see the seat and how many of its words are taken.
#[derive(Debug, Drop)]
pub struct Drawer {
    // The seat is kept for the contracts: the generator alone makes the words.
    seed: u64,
    run: u32,
    seat: u8,
    taken: u64,
    generator: Pcg32,
}

impl Model for Drawer {
    ghost use Rattle.std.specs.Prelude.{◌≡◌};
    ghost use Rattle.mz_draw.specs.Words.{SeatWords, generator_at};

    ghost Value = { SeatWords };

    ghost view = { λ d. record { seed = d.seed; run = d.run; seat = d.seat; taken = d.taken } };

    ghost invariant = { λ d. d.generator ≡ generator_at d.seed d.run d.seat d.taken };
}

impl Drawer {
    /// The words of a seat, from the first.
    pub fn new(seed: u64, run: u32, seat: u8) -> Drawer
        requires runs { run ≤ most_runs }
        requires seats { seat < 64 }
        ensures { result ≡ record { seed = seed; run = run; seat = seat; taken = 0 } }
    {
        let stream = u64::from(run) * 64 + u64::from(seat);
        Drawer {
            seed,
            run,
            seat,
            taken: 0,
            generator: Pcg32::new(seed, stream),
        }
    }

    /// The next draw, by three words: one of the free units in order, how far it goes round its
    /// allowed zones, of which there are `counts`, and the word of its acceptance.
    pub fn next(&mut self, free: &[u32], counts: &[u8]) -> Draw
        // The drawer, before a draw.
        requires whole { self.old.taken % 3 ≡ 0 }
        requires left { self.old.taken + 3 < 2 ^ 64 }

        // What is drawn from.
        requires some_free { 0 < length free.now }
        requires same_length { length counts.now ≡ length free.now }
        requires choices { All (λ m. (2 ≤ m) × (m ≤ most_zones)) counts.now }

        // The draw.
        ensures drawn { (k : ℕ) → self.old.taken ≡ 3 * k
            → result ≡ draw_at self.old.seed self.old.run self.old.seat free.now counts.now k }
        ensures from { IsDrawFrom free.now counts.now result }

        // The drawer after its three words.
        ensures taken { self.new ≡ record self.old { taken = self.old.taken + 3 } }
    {
        let number = self.taken / 3;
        let place = pick_place(free.len(), self.word());
        let shift = 1 + pick(u32::from(counts[place]) - 1, self.word()) as u8;
        let word = self.word();
        Draw {
            number,
            unit: free[place],
            shift,
            word,
        }
    }

    /// The next single word.
    pub fn word(&mut self) -> u32
        requires { self.old.taken + 1 < 2 ^ 64 }
        ensures word { result ≡ word_at self.old.seed self.old.run self.old.seat self.old.taken }
        ensures taken { self.new ≡ record self.old { taken = self.old.taken + 1 } }
    {
        self.taken += 1;
        self.generator.next_word()
    }

    /// Leaves out so many draws, by one jump of the generator.
    pub fn skip(&mut self, draws: u64)
        requires whole { self.old.taken % 3 ≡ 0 }
        requires left { self.old.taken + 3 * draws < 2 ^ 64 }
        ensures { self.new ≡ record self.old { taken = self.old.taken + 3 * draws } }
    {
        self.taken += 3 * draws;
        self.generator.advance(3 * draws);
    }
}
