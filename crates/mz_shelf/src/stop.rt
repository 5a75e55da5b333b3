//! Why a chain of acts on a shelf ended early.
use mz_num::{NoMemory, Text};

/// Why a chain of acts ended early: the first fault ends it, and so does want of memory.
#[derive(Debug, Drop)]
pub enum Stop {
    /// A call on this name failed; a say is named `-`.
    Fault(Text),
    NoMemory,
}

impl From<NoMemory> for Stop {
    ghost use Rattle.std.specs.Prelude.{◌≡◌};
    ghost use Rattle.mz_shelf.specs.declared.stop.Stop.TheVariants.{NoMemory as NoMemoryStop};

    ghost from_gives = { λ _ stop. stop ≡ NoMemoryStop };

    fn from(_error: NoMemory) -> Stop {
        Stop::NoMemory
    }
}
