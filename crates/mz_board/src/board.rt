//! The board.
ghost use Rattle.std.specs.Prelude.{◌≡◌, ◌+◌, ◌<◌, ◌≤◌, ℕ, [], ◌∷◌, length, slice_index_or, true, Some, IfOk};
ghost use Rattle.std.specs.List.{All};
ghost use Rattle.mz_num.specs.Limits.{most_workers};
ghost use Rattle.mz_board.specs.Chair.{AreFresh, AreAllOf, Learns};

use crate::chair::Chair;
use crate::invariant::{BoardTable, Opening};
use crate::story::Story;
use atomic_table::Table;
use mz_num::NoMemory;
use std::alloc::Global;
use std::marker::Model;
use std::snapshot::Snapshot;
use std::sync::atomic::AtomicU32;

mod chairs;
mod looks;
mod notes;
mod turn;
mod waiting;

/// The word of the lock: 0, or the number of the chair that has the turn and 1.
const LOCK: usize = 0;
/// The word that counts the entries.
const COUNT: usize = 1;
/// The word that says how many entries are published.
const FRONT: usize = 2;
/// The word of the first item.
const ITEMS: usize = 3;

/// A value that chairs take in turn, with published words. Contracts see which board it is, how many chairs it has, its
/// value's setting and the words that its items had at the opening.
#[derive(Drop)]
pub struct Board<T: Story + Drop> {
    table: BoardTable<T>,
    /// How many chairs sleep until the turn ends, or are about to: a hint, of which no contract speaks.
    sleepers: AtomicU32,
}

impl<T: Story + Drop> Model for Board<T> {
    ghost use Rattle.std.specs.Prelude.{◌≡◌, ◌+◌, ◌≤◌, Some, drop, length};
    ghost use Rattle.mz_board.specs.Chair.{BoardId};

    ghost Value = { BoardId T.Setting };

    ghost use Rattle.mz_board.specs.Places.{board_of};

    ghost view = { λ b. board_of b.table.shared.table_id b.table.shared.key.seats
        (Some (T.setting b.table.shared.key.value.value)) (drop 3 b.table.shared.key.words.value.items) };

    ghost invariant = { λ b. (b.table.shared.table_id.words ≡ 3 + length (drop 3 b.table.shared.key.words.value.items))
        × (b.table.shared.table_id.slots ≡ 1) };
}

// The words of the table: no turn, no entry, no front, and the items.
fn table_words(alloc: Global, words: &[u64]) -> Result<Vec<u64>, NoMemory>
    ensures { IfOk result (λ all. all.items ≡ 0 ∷ 0 ∷ 0 ∷ words.now) }
{
    let mut all = Vec::new(alloc);
    all.push(0)?;
    all.push(0)?;
    all.push(0)?;
    all.extend_from_slice(words)?;
    Ok(all)
}

impl<T: Story + Send + Drop> Board<T> {
    /// A board over the value, whose list is empty, with its items' words and its chairs, numbered in order. The number
    /// of seats is from 1 to 60, and each word is one that its item may have.
    pub fn open(
        alloc: Global,
        value: T,
        words: &[u64],
        seats: u8,
    ) -> Result<(Board<T>, Vec<Chair<T>>), NoMemory>
        // The seats, and what the chairs find first.
        requires some { 1 ≤ seats }
        requires few { seats ≤ most_workers }
        requires empty { T.entries value ≡ [] }
        requires may { (item : ℕ) → item < length words.now
            → T.may_have (T.setting value) item (slice_index_or words.now item 0) ≡ true }

        // The board and its chairs.
        ensures board { IfOk result (λ opened. (opened.0.seats ≡ seats)
            × (opened.0.setting ≡ Some (T.setting value)) × (opened.0.opening ≡ words.now)) }
        ensures chairs { IfOk result (λ opened. AreFresh opened.0 seats opened.1.items) }
    {
        let room = Vec::with_capacity(alloc, seats as usize)?;
        let mut slots = Vec::with_capacity(alloc, 1)?;
        let all = table_words(alloc, words)?;
        let about = Opening {
            value: Snapshot::of(&value),
            words: Snapshot::of(&all),
            seats,
        };
        slots.push_reserved(Some(value));
        let Ok((table, seat)) = Table::new(alloc, &all, slots, &about) else {
            return Err(NoMemory);
        };
        let board = Board {
            table,
            sleepers: AtomicU32::new(0),
        };
        let chairs = board.deal(room, seat, seats);
        Ok((board, chairs))
    }

    /// The value, once all chairs are back. Its list goes on from what each chair has seen, with no entry of that chair,
    /// and has at least as many entries as each has seen.
    pub fn close(self, chairs: Vec<Chair<T>>) -> T
        requires { AreAllOf self chairs.items }
        ensures setting { self.setting ≡ Some (T.setting result) }
        ensures lists { All (λ chair. Learns T.owner chair (T.entries result)) chairs.items }
        ensures reached { All (λ chair. chair.post.reached ≤ length (T.entries result)) chairs.items }
        ensures owners { All (λ entry. T.owner entry < self.seats) (T.entries result) }
    {
        let seat = self.gather(chairs);
        let Board { table, sleepers: _ } = self;
        let mut closed = table.close_with(seat);
        let value = closed.take(0);
        closed.free();
        value.unwrap()
    }
}
