//! The id of a row of a file in which no id stands twice.
ghost use Rattle.std.specs.Prelude.{◌≡◌, ◌<◌, ◌++◌, ◌∷◌, [], length, OnOk};
ghost use Rattle.mz_rows.specs.Answer.{Answers};
ghost use Rattle.mz_rows.specs.Rows.{new_id};

use mz_tables::{Ids, RowFault};
use std::alloc::Global;

/// Adds the id of a row, which is Repeated at its line where the id stands there. That no id stands
/// twice is this project's profile.
pub fn add_id(alloc: Global, ids: &mut Ids, id: u32, line: u32) -> Result<(), RowFault>
    requires { length ids.old < 4294967295 }
    ensures answer { Answers result (new_id ids.old id line) }
    ensures ids { OnOk result (ids.new ≡ ids.old ++ id ∷ []) }
{
    if !ids.add(alloc, id)? {
        return Err(RowFault::Repeated(line));
    }
    Ok(())
}
