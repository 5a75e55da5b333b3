//! What a value under a board means.
ghost use Rattle.std.specs.Prelude.{◌≡◌, ℕ, Bool, List, length};

/// A value that is a list of entries, each of which a chair owns by its number, and a setting that no turn changes.
/// Each entry writes some items of the board.
pub trait Story {
    /// An entry of the list.
    type Entry;

    /// Plain data that goes with the list.
    type Setting;

    // The entries in order.
    ghost entries: { Self → List Self.Entry };

    // The number of the chair that an entry belongs to.
    ghost owner: { Self.Entry → ℕ };

    ghost setting: { Self → Self.Setting };

    // The items that an entry writes, each once, with the written values.
    ghost writes: { Self.Entry → List (ℕ × ℕ) };

    // Whether an item may have a value.
    ghost may_have: { Self.Setting → ℕ → ℕ → Bool };

    // The most entries of a list.
    ghost most: { Self.Setting → ℕ };

    /// The number of entries.
    fn length(&self) -> u64
        ensures { result ≡ length (entries self.now) };
}
