//! The parameter file.
ghost use Rattle.std.specs.Prelude.{◌≡◌, IfOk};
ghost use Rattle.mz_gen.specs.Parameters.{parameters_text};

use mz_num::{NoMemory, push_bytes, push_number};
use std::alloc::Global;

const FILES: &[u8] = b"PUNAME pu.dat
FEATNAME feat.dat
PUVSFEATNAME amounts.dat
BOUNDNAME bound.dat
ZONESNAME zones.dat
ZONECOSTNAME zonecost.dat
ZONEBOUNDCOSTNAME zonebound.dat
ZONECONTRIBNAME contrib.dat
ZONETARGETNAME ztarget.dat
PULOCKNAME pulock.dat
PUZONENAME puzone.dat
";

const RUN: &[u8] = b"NUMREPS 1
NUMITNS 100000
STARTTEMP -1
NUMTEMP 1000
RUNMODE 6
SAVEBEST 3
SAVESUMMARY 3
SAVETURNS 2
";

/// The names of the other files, and a run of 100,000 entries with the number as its random seed.
#[tactic(auto, unfolding(crate::specs::Parameters::parameters_text))]
pub(crate) fn parameters_text(alloc: Global, number: u32) -> Result<Vec<u8>, NoMemory>
    ensures { IfOk result (λ text. text.items ≡ parameters_text number) }
{
    let mut text = Vec::from_slice(alloc, FILES)?;
    push_bytes(&mut text, b"BLM 0.5\nRANDSEED ")?;
    push_number(&mut text, u64::from(number))?;
    push_bytes(&mut text, b"\n")?;
    push_bytes(&mut text, RUN)?;
    Ok(text)
}
