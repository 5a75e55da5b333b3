//! Why a parameter file is refused.
ghost use Rattle.std.specs.Prelude.{◌≡◌};
ghost use Rattle.mz_params.specs.declared.fault.ParamFault.TheVariants as the_fault;

use crate::key::Key;
use mz_num::NoMemory;
use std::alloc::AllocFailed;

/// The first fault of a parameter file, with the key that it is about. The order of faults is
/// this project's profile.
#[derive(Clone, Copy, Debug, PartialEq, Eq)]
pub enum ParamFault {
    /// A second line of the key.
    Repeated(Key),
    /// A text that isn't UTF-8, or no number where a number is wanted.
    BadValue(Key),
    /// A number outside the key's range, by itself or with the other keys.
    OutOfRange(Key),
    /// A number that asks for something that this project leaves out.
    LeftOut(Key),
    /// A file that is needed and isn't named.
    Missing(Key),
    /// There was not enough memory.
    NoMemory,
}

impl From<NoMemory> for ParamFault {
    ghost from_gives = { λ _ fault. fault ≡ the_fault.NoMemory };

    fn from(_error: NoMemory) -> ParamFault {
        ParamFault::NoMemory
    }
}

impl<T: Drop> From<AllocFailed<T>> for ParamFault {
    ghost from_gives = { λ _ fault. fault ≡ the_fault.NoMemory };

    fn from(_error: AllocFailed<T>) -> ParamFault {
        ParamFault::NoMemory
    }
}
