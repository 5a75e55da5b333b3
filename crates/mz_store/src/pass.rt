//! A pass of a store.
ghost use Rattle.std.specs.Prelude.{◌≡◌, ◌≤◌, length};
ghost use Rattle.mz_history.specs.Core.{seats_of};
ghost use Rattle.mz_history.specs.Replay.{turns_of};

use crate::held::Held;
use mz_board::Chair;
use mz_delta::Reading;
use std::marker::Model;
use std::snapshot::Snapshot;

/// The right of one seat to look at a store and to commit to it. It goes to whatever thread uses it.
#[derive(Drop)]
pub struct Pass {
    pub(crate) chair: Chair<Held>,
    pub(crate) seat: u8,
    pub(crate) number: u64,
    pub(crate) reached: u32,
    /// The last reading, if it isn't spent: what a commit may be judged by.
    pub(crate) reading: Option<Snapshot<Reading>>,
    /// Room for the chairs of all passes, so that the close takes no memory.
    pub(crate) room: Vec<Chair<Held>>,
}

impl Model for Pass {
    ghost use Rattle.std.specs.Prelude.{length, vec_capacity};
    ghost use Rattle.std.specs.Option.{option_map};
    ghost use Rattle.mz_store.specs.Pass.{IsPass, PassState, pass_of};

    ghost Value = { PassState };

    ghost view = { λ p. pass_of p.chair p.number p.reached (option_map (λ r. r.value) p.reading) };

    ghost invariant = { λ p. IsPass p.chair p.seat p.number p.reached (option_map (λ r. r.value) p.reading)
        (record { capacity = vec_capacity p.room; used = length p.room.items }) };
}

impl Pass {
    #[inline]
    pub fn seat(&self) -> u8
        ensures { result ≡ self.now.seat }
    {
        self.seat
    }

    /// The number of its next draw, which is how many entries of its seat it has seen.
    #[inline]
    pub fn number(&self) -> u64
        ensures number { result ≡ self.now.number }
        ensures own { result ≡ turns_of self.now.seat (seats_of self.now.seen) }
        ensures few { result ≤ self.now.reached }
    {
        self.number
    }

    /// How many entries it has seen.
    #[inline]
    pub fn seen(&self) -> u32
        ensures count { result ≡ self.now.reached }
        ensures least { length self.now.seen ≤ result }
    {
        self.reached
    }
}
