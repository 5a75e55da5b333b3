//! What calls of a store tell.
use mz_store::{TryVerdict, Verdict};

/// What a call tells; of an entry its position, its draw's number and whether it was accepted.
#[derive(Clone, Copy)]
pub(super) enum Told {
    Decided(u32, u64, bool),
    /// Decided, whether it was accepted or not.
    Placed(u32, u64),
    Again(u32),
    Full,
    Busy(u8),
    /// How many entries two passes have seen.
    Seen(u32, u32),
    /// The front of a reading, and the zone of its unit's first neighbour.
    Read(u32, Option<u8>),
}

/// Whether this is what was to be told.
fn is_told(found: Told, wanted: Told) -> bool {
    match (found, wanted) {
        (Told::Decided(a, b, c), Told::Decided(x, y, z)) => a == x && b == y && c == z,
        (Told::Decided(a, b, _), Told::Placed(x, y)) => a == x && b == y,
        (Told::Again(a), Told::Again(x)) => a == x,
        (Told::Full, Told::Full) => true,
        (Told::Busy(a), Told::Busy(x)) => a == x,
        (Told::Seen(a, b), Told::Seen(x, y)) => a == x && b == y,
        (Told::Read(a, b), Told::Read(x, y)) => a == x && b == y,
        _ => false,
    }
}

pub(super) fn are_told(found: [Told; 3], wanted: [Told; 3]) -> bool {
    let [a, b, c] = found;
    let [x, y, z] = wanted;
    is_told(a, x) && is_told(b, y) && is_told(c, z)
}

pub(super) fn brief(verdict: Verdict) -> Told {
    match verdict {
        Verdict::Decided(receipt) => Told::Decided(
            receipt.position,
            receipt.entry.number,
            receipt.entry.accepted,
        ),
        Verdict::Again(position) => Told::Again(position),
        Verdict::Full => Told::Full,
    }
}

pub(super) fn brief_try(verdict: TryVerdict) -> Told {
    match verdict {
        TryVerdict::Decided(receipt) => Told::Decided(
            receipt.position,
            receipt.entry.number,
            receipt.entry.accepted,
        ),
        TryVerdict::Again(position) => Told::Again(position),
        TryVerdict::Full => Told::Full,
        TryVerdict::Busy(seat) => Told::Busy(seat),
    }
}
