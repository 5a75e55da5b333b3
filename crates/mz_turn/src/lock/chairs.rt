//! Chairs are dealt at the opening, and come together at the close.
ghost use Rattle.std.specs.Prelude.{◌≡◌, ◌<◌, ◌≤◌, ℕ, List, [], length, map, Some, None, vec_capacity};
ghost use Rattle.std.specs.List.{All};
ghost use Rattle.mz_turn.specs.Chair.{AreFresh, AreAllOf};
ghost use Rattle.mz_turn.specs.Gathering.{dealt_to, Gathers};

use super::TurnLock;
use crate::chair::{Chair, Place};
use crate::holder::HoldsChair;
use crate::steps::{Both, Deal, Enter};
use crate::story::Story;

impl<T: Story + Send + Drop> TurnLock<T> {
    // Gives each number over to a chair of its own.
    pub(super) fn deal(
        &self,
        mut chairs: Vec<Chair<T>>,
        mut seat: Place<T>,
        seats: u8,
    ) -> Vec<Chair<T>>
        requires lock { (seat.table_id ≡ self.now.table) × (seats ≡ self.now.seats) }
        requires room { (chairs.items ≡ []) × (seats ≤ vec_capacity chairs) }
        requires first { seat.me ≡ (dealt_to self.now 0, []) }
        ensures { AreFresh self.now seats result.items }
    {
        for number in 0..seats {
            let dealt = self.table.shared.split_seat::<Deal>(&mut seat);
            chairs.push_reserved(Chair {
                number,
                length: 0,
                seat: dealt,
            });
        }
        chairs
    }

    // Joins the chairs of all holders into one seat, which then keeps every number.
    pub(super) fn gather<H: HoldsChair<T> + Drop>(&self, mut holders: Vec<H>) -> Place<T>
        requires { AreAllOf self.now (map H.chair holders.items) }
        ensures seat { (result.table_id ≡ self.now.table) × (result.me.1 ≡ []) }
        ensures view { Gathers T.owner self.now.seats (map H.chair holders.items) result.me.0 }
    {
        let shared = &self.table.shared;
        let mut seat = shared.load_new_seat::<Enter<T>>(0).1;
        while let Some(holder) = holders.pop() {
            let chair = holder.into_chair();
            let Chair {
                number: _,
                length: _,
                seat: other,
            } = chair;
            shared.join_seat::<Both>(&mut seat, other);
        }
        seat
    }
}
