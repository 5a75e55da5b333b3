//! The parameter file.
ghost use Rattle.std.specs.Prelude.{IfOk};
ghost use Rattle.mz_params.specs.ParamFile.{IsAccepted, params_from};
ghost use Rattle.mz_project.specs.Project.{of_params, params_read};
ghost use Rattle.mz_project.specs.ReadAs.{ReadAs, TakenAs};

use crate::fault::{ReadFault, Which, param_fault};
use crate::file::read_bytes;
use mz_params::Params;
use mz_shelf::Shelf;
use std::alloc::Global;

/// Reads the parameter file of that name. Of a shelf that tells its files, the answer is what the
/// file's bytes give: the parameters, or its first fault; a file that isn't there is absent, one of
/// more than 268,435,456 bytes is too long.
pub fn read_params<S: Shelf>(alloc: Global, shelf: &mut S, name: &str) -> Result<Params, ReadFault>
    ensures read { ReadAs (params_read name.now) (S.state shelf.old) (S.state shelf.new) result }
    ensures accepted { IfOk result IsAccepted }
{
    let bytes = read_bytes(alloc, shelf, name, Which::Params)?;
    params_in(alloc, &bytes)
}

/// The parameters of a file's bytes.
fn params_in(alloc: Global, bytes: &[u8]) -> Result<Params, ReadFault>
    ensures taken { TakenAs (of_params (params_from bytes.now)) result }
    ensures accepted { IfOk result IsAccepted }
{
    match Params::read(alloc, bytes) {
        Ok(params) => Ok(params),
        Err(fault) => Err(param_fault(fault)),
    }
}
