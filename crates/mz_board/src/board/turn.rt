//! A turn: the value is taken, an entry is appended and its items are stored, and the value is put back.
ghost use Rattle.std.specs.Prelude.{◌≡◌, ◌<◌, ◌≤◌, ◌+◌, List, [], ◌∷◌, ◌++◌, length, Some, None, MatchResult};
ghost use Rattle.mz_board.specs.Items.{written, last_writes};
ghost use Rattle.mz_board.specs.Views.{appended_view, published_view};
ghost use Rattle.mz_board.specs.Chair.{Learns, Takes, TookTurn, Misses, MayAppend, EndsTurn};
ghost use Rattle.mz_board.specs.Chair.{with_turn, with_entry, with_stored, without_turn, counted};
ghost use Rattle.mz_board.specs.Turn.{Grows, MayPublish};

use super::{Board, COUNT, FRONT, ITEMS, LOCK};
use crate::chair::{Chair, Place};
use crate::growth::Growth;
use crate::steps::{Append, Count, Publish, Release, StoreItem, Try};
use crate::story::Story;
use std::marker::Brand;
use std::sync::Wait;

impl<T: Story + Send + Drop> Board<T> {
    /// Takes the value, and waits for as long as another chair has it. The chair has then seen just its whole list.
    pub fn take<R: Wait>(&self, rt: &R, chair: &mut Chair<T>) -> T
        requires lock { chair.old.lock ≡ self.now }
        requires idle { chair.old.taken ≡ None }
        ensures takes { Takes T.Story chair.old result }
        ensures now { TookTurn chair.old chair.new (T.entries result) }
    {
        for _ in rt.forever() {
            self.stay_away(chair.vain);
            match self.try_take(chair) {
                Ok(value) => return value,
                Err(other) => self.sleep(rt, other),
            }
        }
        unreachable!()
    }

    /// One try for the value. An error is the number of the chair that has it.
    pub fn try_take(&self, chair: &mut Chair<T>) -> Result<T, u8>
        requires lock { chair.old.lock ≡ self.now }
        requires idle { chair.old.taken ≡ None }
        ensures { MatchResult result
            (λ value. Takes T.Story chair.old value × (chair.new ≡ with_turn chair.old (T.entries value)))
            (λ other. Misses chair.old chair.new other) }
    {
        let shared = &self.table.shared;
        let word = chair.number as u64 + 1;
        let found = shared.compare_exchange::<Try<T>>(&mut chair.seat, LOCK, 0, word);
        if found != 0 {
            return Err((found - 1) as u8);
        }
        let value = shared.exchange(&mut chair.seat, 0, None);
        Ok(value.unwrap())
    }

    /// Counts the entry that the value's list has more than the taken one. The chair then owes the items that the entry
    /// writes.
    pub fn append(&self, chair: &mut Chair<T>, value: &T)
        requires lock { chair.old.lock ≡ self.now }
        requires setting { chair.old.lock.setting ≡ Some (T.setting value.now) }
        requires may { MayAppend T.Story chair.old value.now }
        ensures { (entry : T.Entry) → T.entries value.now ≡ chair.old.seen ++ entry ∷ []
            → chair.new ≡ with_entry chair.old (T.entries value.now) (T.writes entry) }
    {
        let length = value.length();
        self.count_entry::<Brand>(&mut chair.seat, value, length);
        chair.front = Some(length);
    }

    // Counts the last entry of the value's list, which has this length.
    fn count_entry<G: Growth<T::Entry>>(&self, seat: &mut Place<T>, value: &T, count: u64)
        requires lock { (seat.old.table_id ≡ self.now.table) × (self.now.setting ≡ Some (T.setting value.now))
            × (seat.old.me.0.opening ≡ self.now.opening) }
        requires list { (G.list ≡ T.entries value.now) × (count ≡ length (T.entries value.now)) }
        requires grows { Grows T.Story seat.old.me.0 (T.setting value.now) (T.entries value.now) }
        ensures seat { (seat.new.table_id ≡ seat.old.table_id) × (seat.new.id ≡ seat.old.id) }
        ensures view { seat.new.me ≡ (appended_view seat.old.me.0 G.list (last_writes T.writes G.list), seat.old.me.1) }
    {
        self.table.shared.fetch_add::<Append<G, T>>(seat, COUNT, 1);
    }

    /// Stores the value that the chair's new entry writes into the item, which is then no longer owed.
    pub fn store_item(&self, chair: &mut Chair<T>, item: u32, value: u64)
        requires lock { chair.old.lock ≡ self.now }
        requires owes { written item chair.old.post.owes ≡ Some value }
        ensures { chair.new ≡ with_stored chair.old item }
    {
        self.table
            .shared
            .swap::<StoreItem<T>>(&mut chair.seat, ITEMS + item as usize, value);
    }

    /// Gives the value back, and publishes the entry that was appended, if one was.
    pub fn put_back(&self, chair: &mut Chair<T>, value: T)
        requires lock { chair.old.lock ≡ self.now }
        requires setting { chair.old.lock.setting ≡ Some (T.setting value) }
        requires turn { EndsTurn chair.old (T.entries value) }
        ensures { chair.new ≡ without_turn chair.old }
    {
        let shared = &self.table.shared;
        self.publish(&mut chair.seat, chair.front);
        chair.vain.count(chair.front.is_none());
        chair.front = None;
        drop(shared.exchange(&mut chair.seat, 0, Some(value)));
        shared.swap::<Release<T>>(&mut chair.seat, LOCK, 0);
        self.wake_sleeper();
    }

    // Publishes the front, if there is a new one.
    fn publish(&self, seat: &mut Place<T>, front: Option<u64>)
        requires lock { seat.old.table_id ≡ self.now.table }
        requires may { MayPublish front seat.old.me }
        ensures seat { (seat.new.table_id ≡ seat.old.table_id) × (seat.new.id ≡ seat.old.id) }
        ensures view { seat.new.me ≡ (published_view seat.old.me.0, seat.old.me.1) }
    {
        if let Some(front) = front {
            self.table.shared.swap::<Publish<T>>(seat, FRONT, front);
        }
    }

    /// One load of the count, which is at least the number of entries that the chair has seen. The chair that has the
    /// turn finds the length of its list.
    pub fn count(&self, chair: &mut Chair<T>) -> u64
        requires { chair.old.lock ≡ self.now }
        ensures least { (chair.old.post.reached ≤ result) × (length chair.old.seen ≤ result) }
        ensures held { (taken : List T.Entry) → chair.old.taken ≡ Some taken → result ≡ length taken }
        ensures learns { Learns T.owner chair.old chair.old.seen }
        ensures now { chair.new ≡ counted chair.old }
    {
        self.table.shared.load::<Count<T>>(&mut chair.seat, COUNT)
    }
}
