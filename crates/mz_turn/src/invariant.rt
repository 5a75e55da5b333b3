//! The lock's invariant, over what the table's views know.
use crate::story::Story;
use crate::view::View;
use atomic_table::{Table, TableRule};
use std::alloc::Global;
use std::marker::PhantomData;
use std::snapshot::Snapshot;

/// What the table is told once: the value at the opening, and how many chairs there are.
#[derive(Drop)]
pub(crate) struct Opening<T> {
    pub(crate) value: Snapshot<T>,
    pub(crate) seats: u8,
}

/// The rule of the table.
pub(crate) struct Turns<T> {
    story: PhantomData<T>,
}

impl<T: Story> TableRule<Option<T>, View<T::Entry, T::Setting>, Opening<T>> for Turns<T> {
    ghost use Rattle.mz_turn.specs.Invariant.{LockHolds};
    ghost use Rattle.mz_turn.specs.Views.{first_view};

    ghost holds = { λ key. LockHolds T.entries T.owner T.setting (T.entries key.value.value)
        (T.setting key.value.value) key.seats };

    ghost first = { λ key. first_view (T.entries key.value.value) (T.setting key.value.value) key.seats };
}

pub(crate) type TurnTable<T> = Table<
    Option<T>,
    View<<T as Story>::Entry, <T as Story>::Setting>,
    Opening<T>,
    Turns<T>,
    Global,
>;
