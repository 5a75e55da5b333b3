//! A chair at a board.
use crate::patience::VainTurns;
use crate::story::Story;
use crate::view::View;
use atomic_table::Seat;
use std::marker::Model;

pub(crate) type Place<T> = Seat<Option<T>, View<<T as Story>::Entry, <T as Story>::Setting>>;

/// The right to take turns at one board under one number, and to load its words. It goes to whatever thread takes them.
#[derive(Drop)]
pub struct Chair<T: Story> {
    pub(crate) number: u8,
    /// The front to publish, once the chair has appended an entry in its turn.
    pub(crate) front: Option<u64>,
    pub(crate) vain: VainTurns,
    pub(crate) seat: Seat<Option<T>, View<T::Entry, T::Setting>>,
}

impl<T: Story> Model for Chair<T> {
    ghost use Rattle.mz_board.specs.Chair.{ChairState};

    ghost Value = { ChairState T.Entry T.Setting };

    ghost use Rattle.mz_board.specs.Places.{chair_of, IsChair};

    ghost view = { λ c. chair_of c.seat.table_id c.seat.me.0 };

    ghost invariant = { λ c. IsChair c.number c.front c.seat.me };
}
