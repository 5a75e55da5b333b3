//! The board's invariant, over what the table's views know.
use crate::story::Story;
use crate::view::View;
use atomic_table::{Table, TableRule};
use std::alloc::Global;
use std::marker::PhantomData;
use std::snapshot::Snapshot;

/// What the table is told once: the value and its words at the opening, and how many chairs there are.
#[derive(Drop)]
pub(crate) struct Opening<T> {
    pub(crate) value: Snapshot<T>,
    pub(crate) words: Snapshot<Vec<u64>>,
    pub(crate) seats: u8,
}

/// The rule of the table.
pub(crate) struct Turns<T> {
    story: PhantomData<T>,
}

impl<T: Story> TableRule<Option<T>, View<T::Entry, T::Setting>, Opening<T>> for Turns<T> {
    ghost use Rattle.std.specs.Prelude.{drop};
    ghost use Rattle.mz_board.specs.Invariant.{BoardHolds};
    ghost use Rattle.mz_board.specs.Views.{first_view};

    ghost holds = { λ key. BoardHolds T.Story
        (record { setting = T.setting key.value.value; seats = key.seats; opening = drop 3 key.words.value.items }) };

    ghost first = { λ key. first_view (T.setting key.value.value) (drop 3 key.words.value.items) key.seats };
}

pub(crate) type BoardTable<T> = Table<
    Option<T>,
    View<<T as Story>::Entry, <T as Story>::Setting>,
    Opening<T>,
    Turns<T>,
    Global,
>;
