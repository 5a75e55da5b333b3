//! A note of what a chair has seen.
use crate::story::Story;
use crate::view::View;
use atomic_table::Seat;
use std::marker::Model;

/// A copy of what a chair has seen, which another chair of the lock takes in.
#[derive(Drop)]
pub struct Note<T: Story> {
    pub(crate) seat: Seat<Option<T>, View<T::Entry, T::Setting>>,
}

impl<T: Story> Model for Note<T> {
    ghost use Rattle.mz_board.specs.Chair.{NoteState};

    ghost Value = { NoteState T.Entry T.Setting };

    ghost use Rattle.mz_board.specs.Places.{note_of, IsNote};

    ghost view = { λ n. note_of n.seat.table_id n.seat.me.0 };

    ghost invariant = { λ n. IsNote n.seat.me };
}
