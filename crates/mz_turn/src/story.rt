//! What a value under a turn lock means.
ghost use Rattle.std.specs.Prelude.{◌≡◌, ℕ, List, length};

/// A value that is a list of entries, each of which a chair owns by its number, and a setting that no turn changes.
pub trait Story {
    /// An entry of the list.
    type Entry;

    /// Plain data that goes with the list.
    type Setting;

    // The entries in order.
    ghost entries: { Self → List Self.Entry };

    // The number of the chair that an entry belongs to.
    ghost owner: { Self.Entry → ℕ };

    ghost setting: { Self → Self.Setting };

    /// The number of entries.
    fn length(&self) -> u64
        ensures { result ≡ length (entries self.now) };
}
