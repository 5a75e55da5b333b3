//! A turn: the value is taken and put back.
ghost use Rattle.std.specs.Prelude.{◌≡◌, ◌<◌, ◌≤◌, ◌+◌, ◌^◌, ℕ, List, [], ◌∷◌, length, Some, None, MatchResult};
ghost use Rattle.mz_turn.specs.Chair.{Learns, Takes, TookTurn, Misses, EndsTurn, with_turn, without_turn, counted};
ghost use Rattle.mz_turn.specs.Turn.{MayAppend, Appends};

use super::TurnLock;
use crate::chair::{Chair, Place};
use crate::steps::{Append, Count, Measure, Release, Try};
use crate::story::Story;
use std::sync::Wait;

impl<T: Story + Send + Drop> TurnLock<T> {
    /// Takes the value, and waits for as long as another chair has it. The chair has then seen its whole list.
    pub fn take<R: Wait>(&self, rt: &R, chair: &mut Chair<T>) -> T
        requires lock { chair.old.lock ≡ self.now }
        requires idle { chair.old.taken ≡ None }
        ensures takes { Takes T.entries T.owner T.setting chair.old result }
        ensures now { TookTurn chair.old chair.new (T.entries result) }
    {
        for _ in rt.forever() {
            match self.try_take(chair) {
                Ok(value) => return value,
                Err(other) => self.table.shared.park(rt, 0, other as u32 + 1),
            }
        }
        unreachable!()
    }

    /// One try for the value. An error is the number of the chair that has it.
    pub fn try_take(&self, chair: &mut Chair<T>) -> Result<T, u8>
        requires lock { chair.old.lock ≡ self.now }
        requires idle { chair.old.taken ≡ None }
        ensures { MatchResult result
            (λ value. Takes T.entries T.owner T.setting chair.old value
            × (chair.new ≡ with_turn chair.old (T.entries value)))
            (λ other. Misses chair.old chair.new other) }
    {
        let shared = &self.table.shared;
        let word = chair.number as u64 + 1;
        let found = shared.compare_exchange::<Try<T>>(&mut chair.seat, 0, 0, word);
        if found != 0 {
            return Err((found - 1) as u8);
        }
        let value = shared.exchange(&mut chair.seat, 0, None);
        let length = shared.load::<Measure<T>>(&mut chair.seat, 1);
        chair.length = length;
        Ok(value.unwrap())
    }

    /// Gives the value back, with at most one entry more, of the chair's number.
    pub fn put_back(&self, chair: &mut Chair<T>, value: T)
        requires lock { chair.old.lock ≡ self.now }
        requires setting { chair.old.lock.setting ≡ Some (T.setting value) }
        requires turn { EndsTurn T.owner chair.old (T.entries value) }
        ensures now { chair.new ≡ without_turn chair.old (T.entries value) }
        ensures whole { chair.old.taken ≡ Some chair.old.seen }
    {
        let shared = &self.table.shared;
        let length = value.length();
        let grew = chair.length < length;
        drop(shared.exchange(&mut chair.seat, 0, Some(value)));
        self.append(&mut chair.seat, grew);
        shared.swap::<Release<T>>(&mut chair.seat, 0, 0);
        shared.wake_one(0);
    }

    // Counts the entry that the value at home has more than the taken list, if there is one.
    fn append(&self, seat: &mut Place<T>, grew: bool)
        requires lock { (seat.old.table_id ≡ self.now.table) × (seat.old.me.0.seats ≡ self.now.seats) }
        requires may { MayAppend T.entries T.owner seat.old.me grew }
        ensures seat { (seat.new.table_id ≡ seat.old.table_id) × (seat.new.id ≡ seat.old.id) }
        ensures view { Appends T.entries grew seat.old.me seat.new.me }
    {
        if grew {
            self.table.shared.fetch_add::<Append<T>>(seat, 1, 1);
        }
    }

    /// One load of the count, which is at least the length of the list that the chair has seen. The
    /// chair that has the turn finds the length of the list that it took.
    pub fn count(&self, chair: &mut Chair<T>) -> u64
        requires { chair.old.lock ≡ self.now }
        ensures length { length chair.old.seen ≤ result }
        ensures held { (taken : List T.Entry) → chair.old.taken ≡ Some taken → result ≡ length taken }
        ensures learns { Learns T.owner chair.old chair.old.seen }
        ensures now { chair.new ≡ counted chair.old }
    {
        self.table.shared.load::<Count<T>>(&mut chair.seat, 1)
    }
}
