//! Notes: what one chair has seen reaches another.
ghost use Rattle.std.specs.Prelude.{◌≡◌};
ghost use Rattle.mz_turn.specs.Chair.{note_of_chair, joined};

use super::TurnLock;
use crate::chair::Chair;
use crate::note::Note;
use crate::steps::{Both, Copied};
use crate::story::Story;

impl<T: Story + Send + Drop> TurnLock<T> {
    /// A copy of what the chair has seen.
    pub fn split(&self, chair: &mut Chair<T>) -> Note<T>
        requires { chair.old.lock ≡ self.now }
        ensures chair { chair.new ≡ chair.old }
        ensures note { result ≡ note_of_chair chair.old }
    {
        Note {
            seat: self.table.shared.split_seat::<Copied>(&mut chair.seat),
        }
    }

    /// The chair has then seen the longer of the two lists. Its next count tells that this list begins with both.
    pub fn join(&self, chair: &mut Chair<T>, note: Note<T>)
        requires chair { chair.old.lock ≡ self.now }
        requires note { note.lock ≡ self.now }
        ensures { chair.new ≡ joined chair.old note }
    {
        let Note { seat } = note;
        self.table.shared.join_seat::<Both>(&mut chair.seat, seat);
    }
}
