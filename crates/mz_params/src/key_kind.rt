//! The kinds of value that keys take.
ghost use Rattle.std.specs.Prelude.{◌≡◌};
ghost use Rattle.mz_params.specs.KeyKind.{kind_of};

use crate::key::Key;

/// The kind of value that a key of a parameter file takes, in this project's profile. A text is all
/// of what follows the key; a number is its first word.
#[derive(Clone, Copy, Debug, PartialEq, Eq)]
pub enum KeyKind {
    /// A text, as a name of a file or a folder.
    Text,
    /// A whole number in the key's range.
    Whole,
    /// A number of millionths in the key's range.
    Millionths,
    /// A whole number that may be negative.
    Seed,
    /// A number of ten-thousandths that may be negative.
    Start,
    /// One of the three run modes.
    Mode,
    /// The number 0 alone.
    Zero,
}

impl Key {
    /// The kind of value that a key takes.
    pub fn kind(self) -> KeyKind
        ensures { result ≡ kind_of self }
    {
        match self {
            Key::InputDir
            | Key::OutputDir
            | Key::ScenName
            | Key::PuName
            | Key::FeatName
            | Key::PuVsFeatName
            | Key::BoundName
            | Key::ZonesName
            | Key::CostsName
            | Key::ZoneCostName
            | Key::ZoneBoundCostName
            | Key::ZoneContribName
            | Key::ZoneTargetName
            | Key::PuLockName
            | Key::PuZoneName => KeyKind::Text,
            Key::AvailableZone
            | Key::NumReps
            | Key::NumItns
            | Key::NumTemp
            | Key::SaveRun
            | Key::SaveBest
            | Key::SaveSummary
            | Key::SaveTargMet
            | Key::SaveSumSoln
            | Key::SaveTurns => KeyKind::Whole,
            Key::Blm | Key::Prop | Key::MissLevel | Key::CoolFac => KeyKind::Millionths,
            Key::RandSeed => KeyKind::Seed,
            Key::StartTemp => KeyKind::Start,
            Key::RunMode => KeyKind::Mode,
            Key::ClumpType | Key::CostThresh | Key::Asymmetric => KeyKind::Zero,
        }
    }
}
