//! Acts on a shelf, which the first fault ends.
ghost use Rattle.std.specs.Prelude.{◌∷◌, []};
ghost use Rattle.mz_shelf.specs.Act.Act.{Say, Write};
ghost use Rattle.mz_shelf.specs.Performed.{Performed};

use crate::shelf::{Shelf, ShelfErr};
use crate::stop::Stop;
use mz_num::Text;
use std::alloc::Global;

/// Says a text.
pub fn say<S: Shelf>(alloc: Global, shelf: &mut S, text: &[u8]) -> Result<(), Stop>
    ensures { Performed (Say text.now ∷ []) (S.state shelf.old) (S.state shelf.new) result }
{
    // The name comes first: want of memory for it must not come after a part was said.
    let name = Text::copy_of(alloc, "-")?;
    match shelf.say(alloc, text) {
        Ok(()) => Ok(()),
        Err(ShelfErr::Failed) => Err(Stop::Fault(name)),
        Err(ShelfErr::NoMemory) => Err(Stop::NoMemory),
        Err(ShelfErr::Absent) => unreachable!(),
        Err(ShelfErr::TooLong) => unreachable!(),
    }
}

/// Writes a file.
pub fn write<S: Shelf>(alloc: Global, shelf: &mut S, file: Text, bytes: &[u8]) -> Result<(), Stop>
    ensures { Performed (Write file bytes.now ∷ []) (S.state shelf.old) (S.state shelf.new) result }
{
    match shelf.write_file(alloc, file.as_str(), bytes) {
        Ok(()) => Ok(()),
        Err(ShelfErr::Failed) => Err(Stop::Fault(file)),
        Err(ShelfErr::NoMemory) => Err(Stop::NoMemory),
        Err(ShelfErr::Absent) => unreachable!(),
        Err(ShelfErr::TooLong) => unreachable!(),
    }
}
