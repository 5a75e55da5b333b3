//! The names of the output files.
ghost use Rattle.std.specs.Prelude.{◌≡◌, ◌<◌, ◌++◌, IfOk, string_bytes};
ghost use Rattle.mz_run.specs.Acts.{digit_text, ending_of, output_name, run_digits};

use mz_num::{NoMemory, Text};
use mz_params::{Params, file_in_folder};
use std::alloc::Global;

/// The ending that the value of a SAVE key chooses.
fn ending(kind: u8) -> &'static str
    ensures { result.now ≡ ending_of kind }
{
    match kind {
        1 => ".dat",
        2 => ".txt",
        _ => ".csv",
    }
}

/// The name of the output file of that part and kind.
pub(crate) fn file_name(
    alloc: Global,
    params: &Params,
    part: &str,
    kind: u8,
) -> Result<Text, NoMemory>
    ensures { IfOk result (λ name. name ≡ output_name params.now part.now kind) }
{
    let mut name = String::from_str(alloc, params.scen.as_str())?;
    name.push_str(part)?;
    name.push_str(ending(kind))?;
    file_in_folder(alloc, params.output_dir.as_str(), name.as_str())
}

/// A name part with the number of a run behind it, in five digits.
pub(crate) fn numbered(alloc: Global, front: &str, run: u32) -> Result<String, NoMemory>
    ensures { IfOk result (λ part. string_bytes part ≡ front.now ++ run_digits run) }
{
    let mut part = String::from_str(alloc, front)?;
    part.push_str(digit(run / 10000 % 10))?;
    part.push_str(digit(run / 1000 % 10))?;
    part.push_str(digit(run / 100 % 10))?;
    part.push_str(digit(run / 10 % 10))?;
    part.push_str(digit(run % 10))?;
    Ok(part)
}

/// A number below 10 as a digit.
fn digit(number: u32) -> &'static str
    requires { number < 10 }
    ensures { result.now ≡ digit_text number }
{
    match number {
        0 => "0",
        1 => "1",
        2 => "2",
        3 => "3",
        4 => "4",
        5 => "5",
        6 => "6",
        7 => "7",
        8 => "8",
        9 => "9",
        _ => unreachable!(),
    }
}
