//! The text of a refused input, whatever its fault.
ghost use Rattle.std.specs.Prelude.{◌≡◌, IfOk};
ghost use Rattle.mz_run.specs.Refusal.{input_text};

use crate::joined::joined;
use crate::limit_refusal::{quantity, weight_text};
use crate::param_refusal::param_fault_text;
use crate::row_refusal::row_fault_text;
use crate::table_refusal::table_fault_text;
use mz_num::NoMemory;
use mz_project::{InputFault, file_word};
use std::alloc::Global;

/// The text of a fault of the input.
pub(crate) fn input_fault_text(alloc: Global, fault: InputFault) -> Result<Vec<u8>, NoMemory>
    ensures { IfOk result (λ text. text.items ≡ input_text fault) }
{
    match fault {
        InputFault::TooLong(which) => joined(alloc, file_word(which), ": too long"),
        InputFault::Param(fault) => param_fault_text(alloc, fault),
        InputFault::Table(which, fault) => table_fault_text(alloc, which, fault),
        InputFault::Row(which, fault) => row_fault_text(alloc, which, fault),
        InputFault::Sum(what) => joined(alloc, "limit: ", quantity(what)),
        InputFault::Weight(id) => weight_text(alloc, id),
    }
}
