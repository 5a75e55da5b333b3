//! Loads of the published words, which wait for no turn.
ghost use Rattle.std.specs.Prelude.{◌≡◌, ◌<◌, ◌≤◌, ℕ, length, true, Some, None};
ghost use Rattle.mz_board.specs.Chair.{with_front, with_item};

use super::{Board, FRONT, ITEMS};
use crate::chair::Chair;
use crate::steps::{LoadFront, LoadItem};
use crate::story::Story;

impl<T: Story + Send + Drop> Board<T> {
    /// One load of the published front, which then is how many entries the chair has seen. The chair doesn't hold the
    /// turn.
    pub fn load_front(&self, chair: &mut Chair<T>) -> u64
        requires lock { chair.old.lock ≡ self.now }
        requires idle { chair.old.taken ≡ None }
        ensures least { (chair.old.post.reached ≤ result) × (length chair.old.seen ≤ result) }
        ensures most { (setting : T.Setting) → chair.old.lock.setting ≡ Some setting → result ≤ T.most setting }
        ensures now { chair.new ≡ with_front chair.old result }
    {
        self.table
            .shared
            .load::<LoadFront<T>>(&mut chair.seat, FRONT)
    }

    /// One load of an item, by a chair that has loaded the front. In the list that its next take gives, the item has the
    /// loaded value after the list, or an entry at that front or later writes it.
    pub fn load_item(&self, chair: &mut Chair<T>, item: u32) -> u64
        requires lock { chair.old.lock ≡ self.now }
        requires front { (front : ℕ) × (chair.old.post.front ≡ Some front) }
        requires item { item < length chair.old.lock.opening }
        ensures may { (setting : T.Setting) → chair.old.lock.setting ≡ Some setting
            → T.may_have setting item result ≡ true }
        ensures now { chair.new ≡ with_item chair.old item result }
    {
        self.table
            .shared
            .load::<LoadItem<T>>(&mut chair.seat, ITEMS + item as usize)
    }

    /// Brings the word of an item near, so that a later load of it is quick. It tells nothing and changes nothing.
    #[inline]
    pub fn prefetch(&self, item: u32)
        requires { item < length self.now.opening }
    {
        self.table.shared.peek(ITEMS + item as usize);
    }
}
