//! The lock.
ghost use Rattle.std.specs.Prelude.{◌≡◌, ◌<◌, ◌≤◌, ℕ, List, length, map, Some, IfOk};
ghost use Rattle.mz_num.specs.Limits.{most_workers};
ghost use Rattle.std.specs.List.{All};
ghost use Rattle.mz_turn.specs.Chair.{AreFresh, AreAllOf, Learns};
ghost use Rattle.mz_turn.specs.Seen.{GrewByChairs};

use crate::chair::Chair;
use crate::holder::HoldsChair;
use crate::invariant::{Opening, TurnTable};
use crate::story::Story;
use atomic_table::Table;
use mz_num::NoMemory;
use std::alloc::Global;
use std::marker::Model;
use std::snapshot::Snapshot;

mod chairs;
mod notes;
mod turn;

/// A value that chairs take in turn. Contracts see which lock it is, how many chairs it has,
/// its value's setting, and the value's list at the opening.
#[derive(Drop)]
pub struct TurnLock<T: Story + Drop> {
    table: TurnTable<T>,
}

impl<T: Story + Drop> Model for TurnLock<T> {
    ghost use Rattle.std.specs.Prelude.{◌≡◌, ◌≤◌, Some};
    ghost use Rattle.mz_turn.specs.Chair.{LockId};

    ghost Value = { LockId T.Entry T.Setting };

    ghost use Rattle.mz_turn.specs.Places.{lock_of};

    ghost view = { λ l. lock_of l.table.shared.table_id l.table.shared.key.seats
        (Some (T.setting l.table.shared.key.value.value)) (T.entries l.table.shared.key.value.value) };

    ghost invariant = { λ l. (l.table.shared.table_id.words ≡ 2) × (l.table.shared.table_id.slots ≡ 1) };
}

impl<T: Story + Send + Drop> TurnLock<T> {
    /// A lock over the value, with its chairs, numbered in order. The number of seats is from 1 to 60.
    pub fn open(
        alloc: Global,
        value: T,
        seats: u8,
    ) -> Result<(TurnLock<T>, Vec<Chair<T>>), NoMemory>
        requires some { 1 ≤ seats }
        requires few { seats ≤ most_workers }
        ensures lock { IfOk result (λ opened. (opened.0.seats ≡ seats) × (opened.0.setting ≡ Some (T.setting value))
            × (opened.0.opening ≡ T.entries value)) }
        ensures chairs { IfOk result (λ opened. AreFresh opened.0 seats opened.1.items) }
    {
        let room = Vec::with_capacity(alloc, seats as usize)?;
        let mut slots = Vec::with_capacity(alloc, 1)?;
        let about = Opening {
            value: Snapshot::of(&value),
            seats,
        };
        let length = value.length();
        slots.push_reserved(Some(value));
        let Ok((table, seat)) = Table::new(alloc, &[0, length], slots, &about) else {
            return Err(NoMemory);
        };
        let lock = TurnLock { table };
        let chairs = lock.deal(room, seat, seats);
        Ok((lock, chairs))
    }

    /// The value, once all chairs are back. Its list goes on from what each chair has seen, with no entry
    /// of that chair. Behind the list of the opening each entry is a chair's. It takes no memory.
    pub fn close(self, chairs: Vec<Chair<T>>) -> T
        requires { AreAllOf self chairs.items }
        ensures setting { self.setting ≡ Some (T.setting result) }
        ensures lists { All (λ chair. Learns T.owner chair (T.entries result)) chairs.items }
        ensures added { GrewByChairs T.owner self.seats self.opening (T.entries result) }
    {
        self.close_over(chairs)
    }

    /// As `close`, over anything that holds a chair of the lock: a caller whose chairs stand in other things hands in
    /// those, and takes no memory for a list of chairs.
    pub fn close_over<H: HoldsChair<T> + Drop>(self, holders: Vec<H>) -> T
        requires { AreAllOf self (map H.chair holders.items) }
        ensures setting { self.setting ≡ Some (T.setting result) }
        ensures lists { All (λ chair. Learns T.owner chair (T.entries result)) (map H.chair holders.items) }
        ensures added { GrewByChairs T.owner self.seats self.opening (T.entries result) }
    {
        let seat = self.gather(holders);
        let TurnLock { table } = self;
        let mut closed = table.close_with(seat);
        let value = closed.take(0);
        closed.free();
        value.unwrap()
    }
}
