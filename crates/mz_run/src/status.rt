//! How a run of the program ends.
ghost use Rattle.std.specs.Prelude.{◌≡◌};
ghost use Rattle.mz_run.specs.Project.{status_of_made, status_of_read};
ghost use Rattle.mz_run.specs.Refusal.{code_of};

use mz_gen::GenFault;
use mz_num::Text;
use mz_project::{InputFault, ReadFault};

/// How a run of the program ended.
#[derive(Debug, Drop)]
pub enum Status {
    /// Each input file was read to its end and each output was written and said.
    Done,
    /// The words of the command line have no form.
    Words,
    /// The input is refused.
    Input(InputFault),
    /// A call on this file failed, or on the said lines where the name is `-`.
    ShelfFault(Text),
    /// No file has this name.
    Absent(Text),
    /// There was not enough memory.
    NoMemory,
}

/// The exit status of the program.
pub fn code(status: &Status) -> u8
    ensures { result ≡ code_of status.now }
{
    match status {
        Status::Done => 0,
        Status::Words => 1,
        Status::Input(_) => 2,
        Status::ShelfFault(_) => 3,
        Status::Absent(_) => 4,
        Status::NoMemory => 5,
    }
}

impl From<ReadFault> for Status {
    ghost from_gives = { λ fault status. status ≡ status_of_read fault };

    fn from(fault: ReadFault) -> Status {
        match fault {
            ReadFault::Shelf(name) => Status::ShelfFault(name),
            ReadFault::Absent(name) => Status::Absent(name),
            ReadFault::Input(fault) => Status::Input(fault),
            ReadFault::NoMemory => Status::NoMemory,
        }
    }
}

impl From<GenFault> for Status {
    ghost from_gives = { λ fault status. status ≡ status_of_made fault };

    fn from(fault: GenFault) -> Status {
        match fault {
            GenFault::Shelf(name) => Status::ShelfFault(name),
            GenFault::NoMemory => Status::NoMemory,
        }
    }
}
