//! Chairs are dealt at the opening, and come together at the close.
ghost use Rattle.std.specs.Prelude.{◌≡◌, ◌<◌, ◌≤◌, [], Some, None, vec_capacity};
ghost use Rattle.mz_board.specs.Chair.{AreFresh, AreAllOf};
ghost use Rattle.mz_board.specs.Gathering.{dealt_to, Gathers};

use super::{Board, LOCK};
use crate::chair::{Chair, Place};
use crate::patience::VainTurns;
use crate::steps::{Both, Deal, Enter};
use crate::story::Story;

impl<T: Story + Send + Drop> Board<T> {
    // Gives each number over to a chair of its own.
    pub(super) fn deal(
        &self,
        mut chairs: Vec<Chair<T>>,
        mut seat: Place<T>,
        seats: u8,
    ) -> Vec<Chair<T>>
        requires lock { (seat.table_id ≡ self.now.table) × (seats ≡ self.now.seats) }
        requires room { (chairs.items ≡ []) × (seats ≤ vec_capacity chairs) }
        requires first { seat.me ≡ (dealt_to self.now 0, []) }
        ensures { AreFresh self.now seats result.items }
    {
        for number in 0..seats {
            let dealt = self.table.shared.split_seat::<Deal>(&mut seat);
            chairs.push_reserved(Chair {
                number,
                front: None,
                vain: VainTurns::all(),
                seat: dealt,
            });
        }
        chairs
    }

    // Joins all chairs into one seat, which then keeps every number.
    pub(super) fn gather(&self, mut chairs: Vec<Chair<T>>) -> Place<T>
        requires { AreAllOf self.now chairs.items }
        ensures seat { (result.table_id ≡ self.now.table) × (result.me.1 ≡ []) }
        ensures view { Gathers T.owner self.now.seats chairs.items result.me.0 }
    {
        let shared = &self.table.shared;
        let mut seat = shared.load_new_seat::<Enter<T>>(LOCK).1;
        while let Some(chair) = chairs.pop() {
            let Chair {
                number: _,
                front: _,
                vain: _,
                seat: other,
            } = chair;
            shared.join_seat::<Both>(&mut seat, other);
        }
        seat
    }
}
