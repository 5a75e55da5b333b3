//! What holds a chair.
ghost use Rattle.std.specs.Prelude.{◌≡◌};
ghost use Rattle.mz_turn.specs.Chair.{ChairState};

use crate::chair::Chair;
use crate::story::Story;

/// A thing that holds a chair and gives it, so that a lock closes over the things themselves and no list of their
/// chairs has to be made.
pub trait HoldsChair<T: Story> {
    // The chair that it holds.
    ghost chair: { Self → ChairState T.Entry T.Setting };

    /// The chair.
    fn into_chair(self) -> Chair<T>
        ensures { result ≡ chair self };
}

impl<T: Story> HoldsChair<T> for Chair<T> {
    ghost chair = { λ chair. chair };

    fn into_chair(self) -> Chair<T> {
        self
    }
}
