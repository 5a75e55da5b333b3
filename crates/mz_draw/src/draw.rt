//! What a seat draws.
ghost use Rattle.std.specs.Prelude.{◌≡◌, ◌<◌, ◌≤◌};
ghost use Rattle.mz_draw.specs.Words.{pick_of};

/// A proposed move: it puts the unit `shift` places on in its allowed zones, going round.
#[derive(Clone, Copy, Debug, PartialEq, Eq)]
pub struct Draw {
    /// The place of this draw among its seat's, from 0.
    pub number: u64,
    /// The place of a planning unit.
    pub unit: u32,
    /// How many places the unit goes on in its allowed zones, at least 1.
    pub shift: u8,
    /// The random word that the acceptance rule compares.
    pub word: u32,
}

/// The one of `m` numbers from 0 that a random word picks, as this project's profile has it:
/// the product of the two, divided by 2^32.
pub fn pick(m: u32, word: u32) -> u32
    requires { 1 ≤ m }
    ensures value { result ≡ pick_of m word }
    ensures below { result < m }
{
    pick_place(m as usize, word) as u32
}

/// The one of `len` places that a random word picks, by the same rule.
#[tactic(auto, unfolding(crate::specs::Words::pick_of))]
pub(crate) fn pick_place(len: usize, word: u32) -> usize
    requires { 1 ≤ len }
    ensures value { result ≡ pick_of len word }
    ensures below { result < len }
{
    ((u128::from(word) * len as u128) >> 32) as usize
}
