//! Notes: what one chair has seen reaches another.
ghost use Rattle.std.specs.Prelude.{◌≡◌, None};
ghost use Rattle.mz_board.specs.Chair.{note_of_chair, joined};

use super::Board;
use crate::chair::Chair;
use crate::note::Note;
use crate::steps::{Both, Copied};
use crate::story::Story;

impl<T: Story + Send + Drop> Board<T> {
    /// A copy of what the chair has seen.
    pub fn split(&self, chair: &mut Chair<T>) -> Note<T>
        requires lock { chair.old.lock ≡ self.now }
        requires idle { chair.old.taken ≡ None }
        ensures chair { chair.new ≡ chair.old }
        ensures note { result ≡ note_of_chair chair.old }
    {
        Note {
            seat: self.table.shared.split_seat::<Copied>(&mut chair.seat),
        }
    }

    /// The chair has then seen the longer of the two lists and the greater of the two numbers of entries. Its next count
    /// tells that this list begins with both.
    pub fn join(&self, chair: &mut Chair<T>, note: Note<T>)
        requires lock { chair.old.lock ≡ self.now }
        requires idle { chair.old.taken ≡ None }
        requires note { note.lock ≡ self.now }
        ensures { chair.new ≡ joined chair.old note }
    {
        let Note { seat } = note;
        self.table.shared.join_seat::<Both>(&mut chair.seat, seat);
    }
}
