//! Making the files of a project.
ghost use Rattle.std.specs.Prelude.{◌≡◌, ◌≤◌, ◌∷◌, [], map};
ghost use Rattle.mz_num.specs.Limits.{greatest_id};
ghost use Rattle.mz_shelf.specs.Performed.{Performed};
ghost use Rattle.mz_gen.specs.Files.{files_of, write_of};
ghost use Rattle.mz_gen.specs.Made.{Made};

use crate::fault::GenFault;
use crate::file::GeneratedFile;
use mz_num::Text;
use mz_shelf::{Shelf, Stop, write};
use std::alloc::Global;

const IN_ORDER: [GeneratedFile; 12] = [
    GeneratedFile::Parameters,
    GeneratedFile::Zones,
    GeneratedFile::Units,
    GeneratedFile::ZoneCosts,
    GeneratedFile::Features,
    GeneratedFile::Amounts,
    GeneratedFile::Contribs,
    GeneratedFile::ZoneTargets,
    GeneratedFile::ZoneSets,
    GeneratedFile::Locks,
    GeneratedFile::Bounds,
    GeneratedFile::ZoneBounds,
];

/// Writes the files of the project of that number. Where a write fails or memory ends it, the earlier files stay.
pub fn make_files<S: Shelf>(alloc: Global, shelf: &mut S, number: u32) -> Result<(), GenFault>
    requires { number ≤ greatest_id }
    ensures { Made (files_of number) (S.state shelf.old) (S.state shelf.new) result }
{
    match write_files(alloc, shelf, number, &IN_ORDER) {
        Ok(()) => Ok(()),
        Err(Stop::Fault(name)) => Err(GenFault::Shelf(name)),
        Err(Stop::NoMemory) => Err(GenFault::NoMemory),
    }
}

fn write_files<S: Shelf>(
    alloc: Global,
    shelf: &mut S,
    number: u32,
    files: &[GeneratedFile],
) -> Result<(), Stop>
    ensures { Performed (map (write_of number) files.now) (S.state shelf.old) (S.state shelf.new) result }
{
    for file in files {
        write_file(alloc, shelf, number, *file)?;
    }
    Ok(())
}

fn write_file<S: Shelf>(
    alloc: Global,
    shelf: &mut S,
    number: u32,
    file: GeneratedFile,
) -> Result<(), Stop>
    ensures { Performed (write_of number file ∷ []) (S.state shelf.old) (S.state shelf.new) result }
{
    let name = Text::copy_of(alloc, file.name())?;
    let text = file.text(alloc, number)?;
    write(alloc, shelf, name, &text)
}
