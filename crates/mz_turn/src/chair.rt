//! A chair at a turn lock.
use crate::story::Story;
use crate::view::View;
use atomic_table::Seat;
use std::marker::Model;

pub(crate) type Place<T> = Seat<Option<T>, View<<T as Story>::Entry, <T as Story>::Setting>>;

/// The right to take turns at one lock under one number. It goes to whatever thread takes them.
#[derive(Drop)]
pub struct Chair<T: Story> {
    pub(crate) number: u8,
    /// The length of the list that was taken, where the chair holds the turn.
    pub(crate) length: u64,
    pub(crate) seat: Seat<Option<T>, View<T::Entry, T::Setting>>,
}

impl<T: Story> Model for Chair<T> {
    ghost use Rattle.mz_turn.specs.Chair.{ChairState};

    ghost Value = { ChairState T.Entry T.Setting };

    ghost use Rattle.mz_turn.specs.Places.{chair_of, IsChair};

    ghost view = { λ c. chair_of c.seat.table_id c.seat.me.0 };

    ghost invariant = { λ c. IsChair c.number c.length c.seat.me };
}
