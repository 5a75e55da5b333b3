//! The files of a generated project.
ghost use Rattle.std.specs.Prelude.{◌≡◌, IfOk};
ghost use Rattle.mz_gen.specs.Files.{name_of_file, text_of_file};
ghost use Rattle.mz_gen.specs.Units.{amounts_text, units_text};
ghost use Rattle.mz_gen.specs.Words.{words_of};

use crate::bounds::bounds_text;
use crate::features::{contribs_text, features_text};
use crate::parameters::parameters_text;
use crate::sets::{locks_text, zone_sets_text};
use crate::units::{amounts_text, units_text};
use crate::words::words_of;
use mz_num::NoMemory;
use std::alloc::Global;

const UNITS: u32 = 2_000;

const FEATURES: u32 = 20;

/// One for the cost of a unit and one for each feature.
const WORDS: u32 = UNITS * (1 + FEATURES);

/// A file of a generated project.
#[derive(Clone, Copy, Debug, PartialEq, Eq)]
pub(crate) enum GeneratedFile {
    Parameters,
    Zones,
    Units,
    ZoneCosts,
    Features,
    Amounts,
    Contribs,
    ZoneTargets,
    ZoneSets,
    Locks,
    Bounds,
    ZoneBounds,
}

impl GeneratedFile {
    pub(crate) fn name(self) -> &'static str
        ensures { result.now ≡ name_of_file self }
    {
        match self {
            GeneratedFile::Parameters => "input.dat",
            GeneratedFile::Zones => "zones.dat",
            GeneratedFile::Units => "pu.dat",
            GeneratedFile::ZoneCosts => "zonecost.dat",
            GeneratedFile::Features => "feat.dat",
            GeneratedFile::Amounts => "amounts.dat",
            GeneratedFile::Contribs => "contrib.dat",
            GeneratedFile::ZoneTargets => "ztarget.dat",
            GeneratedFile::ZoneSets => "puzone.dat",
            GeneratedFile::Locks => "pulock.dat",
            GeneratedFile::Bounds => "bound.dat",
            GeneratedFile::ZoneBounds => "zonebound.dat",
        }
    }

    pub(crate) fn text(self, alloc: Global, number: u32) -> Result<Vec<u8>, NoMemory>
        ensures { IfOk result (λ text. text.items ≡ text_of_file number self) }
    {
        match self {
            GeneratedFile::Parameters => parameters_text(alloc, number),
            GeneratedFile::Zones => fixed(
                alloc,
                b"zoneid,zonename\n1,available\n2,partial\n3,full\n",
            ),
            GeneratedFile::Units => drawn_units(alloc, number),
            GeneratedFile::ZoneCosts => fixed(alloc, b"zoneid,costid,multiplier\n2,1,0.5\n3,1,1\n"),
            GeneratedFile::Features => features_text(alloc, FEATURES),
            GeneratedFile::Amounts => drawn_amounts(alloc, number),
            GeneratedFile::Contribs => contribs_text(alloc, FEATURES),
            GeneratedFile::ZoneTargets => {
                fixed(alloc, b"zoneid,featureid,target,targettype\n3,1,0.1,1\n")
            }
            GeneratedFile::ZoneSets => zone_sets_text(alloc, UNITS),
            GeneratedFile::Locks => locks_text(alloc, UNITS),
            GeneratedFile::Bounds => bounds_text(alloc, UNITS),
            GeneratedFile::ZoneBounds => {
                fixed(alloc, b"zoneid1,zoneid2,cost\n1,2,1\n1,3,1\n2,3,0.5\n")
            }
        }
    }
}

fn fixed(alloc: Global, text: &[u8]) -> Result<Vec<u8>, NoMemory>
    ensures { IfOk result (λ copy. copy.items ≡ text.now) }
{
    Ok(Vec::from_slice(alloc, text)?)
}

fn drawn_units(alloc: Global, number: u32) -> Result<Vec<u8>, NoMemory>
    ensures { IfOk result (λ text. text.items ≡ units_text 2000 (words_of 42000 number)) }
{
    let words = words_of(alloc, WORDS, number)?;
    units_text(alloc, UNITS, &words)
}

fn drawn_amounts(alloc: Global, number: u32) -> Result<Vec<u8>, NoMemory>
    ensures { IfOk result (λ text. text.items ≡ amounts_text 20 2000 (words_of 42000 number)) }
{
    let words = words_of(alloc, WORDS, number)?;
    amounts_text(alloc, FEATURES, UNITS, &words)
}
