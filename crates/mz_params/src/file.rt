//! The lines of a parameter file in order, with the faults of each.
ghost use Rattle.std.specs.Prelude.{◌≡◌, [], IfOk, IfErr, OnOk};
ghost use Rattle.std.specs.Option.{option_copied};
ghost use Rattle.mz_params.specs.Lines.{lines_of, line_fault, first_fault, has_key, value_of, without_mark};
ghost use Rattle.mz_params.specs.ParamFile.{IsFirstFault};

use crate::fault::ParamFault;
use crate::key::{Key, is_same};
use crate::key_line::{KeyLine, read_line};
use crate::value::value_fault;
use std::alloc::Global;

/// The lines of a file that are taken, or the first fault among them.
pub(crate) fn read_lines(alloc: Global, bytes: &[u8]) -> Result<Vec<KeyLine<'_>>, ParamFault>
    ensures lines { IfOk result (λ lines. lines.items ≡ lines_of bytes.now) }
    ensures good { OnOk result (first_fault [] (lines_of bytes.now) ≡ None) }
    ensures fault { IfErr result (λ fault. IsFirstFault fault (first_fault [] (lines_of bytes.now))) }
{
    let mut lines = Vec::new(alloc);
    for text in without_byte_order_mark(bytes).split(|byte| *byte == b'\n') {
        if let Some(line) = read_line(text) {
            if let Some(fault) = fault_of(&lines, &line) {
                return Err(fault);
            }
            lines.push(line)?;
        }
    }
    Ok(lines)
}

/// The bytes without a byte order mark at their start.
fn without_byte_order_mark(bytes: &[u8]) -> &[u8]
    ensures { result.now ≡ without_mark bytes.now }
{
    match bytes.strip_prefix(&[0xEF, 0xBB, 0xBF]) {
        Some(rest) => rest,
        None => bytes,
    }
}

/// The fault of a line behind the lines before it.
#[tactic(auto, unfolding(crate::specs::Lines::line_fault))]
fn fault_of(lines: &[KeyLine], line: &KeyLine) -> Option<ParamFault>
    ensures { result ≡ line_fault lines.now line.now }
{
    if has_line(lines, line.key()) {
        return Some(ParamFault::Repeated(line.key()));
    }
    value_fault(line.key(), line.value())
}

fn has_line(lines: &[KeyLine], key: Key) -> bool
    ensures { result ≡ has_key key lines.now }
{
    lines.iter().any(|line| is_same(line.key(), key))
}

/// The value that a key's line gives.
#[tactic(auto, unfolding(crate::specs::Lines::value_of))]
pub(crate) fn value<'a>(lines: &[KeyLine<'a>], key: Key) -> Option<&'a [u8]>
    ensures { option_copied result ≡ value_of key lines.now }
{
    for line in lines {
        if is_same(line.key(), key) {
            return Some(line.value());
        }
    }
    None
}
