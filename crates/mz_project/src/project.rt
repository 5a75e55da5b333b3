//! The whole project.
ghost use Rattle.std.specs.Prelude.{IfOk};
ghost use Rattle.mz_params.specs.ParamFile.{IsAccepted};
ghost use Rattle.mz_project.specs.GivenFiles.{given_files};
ghost use Rattle.mz_project.specs.Project.{project_read};
ghost use Rattle.mz_project.specs.ReadAs.{IfTold, ReadAs, ReadEach};

use crate::fault::ReadFault;
use crate::parts::limited_parts;
use crate::region::read_region;
use mz_model::Problem;
use mz_params::Params;
use mz_shelf::Shelf;
use std::alloc::Global;

/// Reads the problem of these parameters: the files that they give, one after another, and then the
/// limits. Of a shelf that tells its files, the answer is what they give: the problem, or the first
/// fault; the files are unchanged. Each given file is read once and in order, up to the first fault, and a
/// file that isn't given isn't read.
#[tactic(auto, unfolding(crate::specs::Project::project_read))]
pub fn read_project<S: Shelf>(
    alloc: Global,
    shelf: &mut S,
    params: &Params,
) -> Result<Problem, ReadFault>
    requires { IsAccepted params.now }
    ensures read { ReadAs (project_read params.now) (S.state shelf.old) (S.state shelf.new) result }
    ensures files { IfOk result (λ _. IfTold (S.state shelf.old)
        (λ _. ReadEach (given_files params.now) (S.state shelf.old) (S.state shelf.new))) }
{
    let region = read_region(alloc, shelf, params)?;
    let parts = limited_parts(alloc, params, region)?;
    Ok(Problem::build(alloc, parts)?)
}
