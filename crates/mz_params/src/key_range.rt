//! The numbers that each key takes, in this project's profile.
ghost use Rattle.std.specs.Prelude.{◌≡◌};
ghost use Rattle.mz_params.specs.KeyRange.{least_of, greatest_of};

use crate::key::Key;
use mz_num::limits::{
    GREATEST_ID, GREATEST_QUANTITY, MILLION, MOST_LEVELS, MOST_PROPOSALS, MOST_RUNS,
};

impl Key {
    /// The least number that a key takes.
    pub(crate) fn least(self) -> u64
        ensures { result ≡ least_of self }
    {
        match self {
            Key::NumReps | Key::NumTemp => 1,
            _ => 0,
        }
    }

    /// The greatest number that a key takes: a whole number, or one of millionths.
    pub(crate) fn greatest(self) -> u64
        ensures { result ≡ greatest_of self }
    {
        match self {
            Key::AvailableZone => GREATEST_ID,
            Key::Blm | Key::CoolFac => GREATEST_QUANTITY,
            Key::Prop | Key::MissLevel => MILLION,
            Key::NumTemp => MOST_LEVELS as u64,
            Key::NumReps => MOST_RUNS as u64,
            Key::NumItns => MOST_PROPOSALS as u64,
            Key::SaveRun
            | Key::SaveBest
            | Key::SaveSummary
            | Key::SaveTargMet
            | Key::SaveSumSoln
            | Key::SaveTurns => 3,
            _ => 0,
        }
    }
}
