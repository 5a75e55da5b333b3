//! How patiently a chair waits for its turn.

/// From so many of 256 on, turns are often in vain.
const OFTEN: u8 = 64;

/// How many of 256 of a chair's turns ended without an entry: an average in which a turn counts the less, the more
/// others came after it. Such a turn was in vain, mostly since another chair's entry overtook what was done for it. How
/// long a chair rests depends on this, and no contract speaks of it.
#[derive(Clone, Copy)]
pub(crate) struct VainTurns(u8);

impl VainTurns {
    /// A new chair counts as one whose turns were all in vain.
    pub(crate) fn all() -> VainTurns {
        VainTurns(u8::MAX)
    }

    /// Counts a turn that ended.
    pub(crate) fn count(&mut self, in_vain: bool) {
        self.0 -= self.0 / 16;
        if in_vain {
            self.0 = self.0.saturating_add(16);
        }
    }

    pub(crate) fn are_often(self) -> bool {
        self.0 >= OFTEN
    }
}
