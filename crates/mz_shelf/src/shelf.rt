//! A shelf: what its calls answer, and what they leave.
ghost use Rattle.std.specs.Prelude.{◌≡◌, MatchResult};
ghost use Rattle.mz_shelf.specs.declared.shelf.ShelfErr.TheVariants.{NoMemory};
ghost use Rattle.mz_shelf.specs.State.{State};
ghost use Rattle.mz_shelf.specs.Act.Act.{Say, Write};
ghost use Rattle.mz_shelf.specs.Shelf.{ReadsFile, ReadStopped, DidAct, ActStopped};

use mz_num::NoMemory;
use std::alloc::{AllocError, Global};
use thiserror::Error;

/// Why a shelf's call wasn't done.
#[derive(Clone, Copy, Debug, PartialEq, Eq, Error)]
pub enum ShelfErr {
    /// The device failed. A write or a say may have left a front of its bytes.
    #[error("the call failed")]
    Failed,
    /// No file has the name.
    #[error("no such file")]
    Absent,
    /// The file has more than 268,435,456 bytes.
    #[error("the file is too long")]
    TooLong,
    /// There was not enough memory, and nothing was done.
    #[error("out of memory")]
    NoMemory,
}

impl From<NoMemory> for ShelfErr {
    ghost from_gives = { λ _ e. e ≡ NoMemory };

    fn from(_error: NoMemory) -> ShelfErr {
        ShelfErr::NoMemory
    }
}

impl From<AllocError> for ShelfErr {
    ghost from_gives = { λ _ e. e ≡ NoMemory };

    fn from(_error: AllocError) -> ShelfErr {
        ShelfErr::NoMemory
    }
}

/// Named files and said bytes. A shelf may tell what it holds and which names were read, or tell nothing
/// of it; no call changes whether it does. It counts faults, missed files and files that are too long: such
/// a call raises its own count by one, and no other. A call that is done leaves all counts as they were, and
/// so does want of memory. A write or a say reads nothing.
pub trait Shelf {
    ghost state: { Self → State };

    /// The bytes of a file, at most 268,435,456.
    fn read_file(&mut self, alloc: Global, name: &str) -> Result<Vec<u8>, ShelfErr>
        ensures { MatchResult result
            (λ bytes. ReadsFile name.now (state self.old) (state self.new) bytes.items)
            (λ error. ReadStopped name.now (state self.old) (state self.new) error) };

    /// Writes a file, in the place of one that has the name.
    fn write_file(&mut self, alloc: Global, name: &str, bytes: &[u8]) -> Result<(), ShelfErr>
        ensures { MatchResult result
            (λ _. DidAct (Write name.now bytes.now) (state self.old) (state self.new))
            (λ error. ActStopped (Write name.now bytes.now) (state self.old) (state self.new) error) };

    /// Says bytes, after those that were said before.
    fn say(&mut self, alloc: Global, bytes: &[u8]) -> Result<(), ShelfErr>
        ensures { MatchResult result
            (λ _. DidAct (Say bytes.now) (state self.old) (state self.new))
            (λ error. ActStopped (Say bytes.now) (state self.old) (state self.new) error) };
}
