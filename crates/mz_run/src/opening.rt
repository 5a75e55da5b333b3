//! What comes before the first run.
ghost use Rattle.mz_run.specs.Acts.{opening_acts};
ghost use Rattle.mz_shelf.specs.Performed.{Performed};

use crate::job::Job;
use crate::lines::opening_line;
use mz_shelf::{Shelf, Stop, say};
use std::alloc::Global;

/// Says the opening of the work.
pub(crate) fn open<S: Shelf>(alloc: Global, shelf: &mut S, job: &Job) -> Result<(), Stop>
    ensures { Performed (opening_acts job.now) (S.state shelf.old) (S.state shelf.new) result }
{
    let line = opening_line(alloc, job)?;
    say(alloc, shelf, &line)
}
