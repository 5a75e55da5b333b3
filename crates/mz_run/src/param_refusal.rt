//! The texts of refused parameter files.
ghost use Rattle.std.specs.Prelude.{◌≡◌, ◌++◌, codes, IfOk, OnOk};
ghost use Rattle.mz_params.specs.KeyName.{name_of};
ghost use Rattle.mz_run.specs.Refusal.{param_text};

use mz_num::{NoMemory, push_bytes};
use mz_params::{Key, ParamFault, key_name};
use std::alloc::Global;

/// Why a parameter file is refused.
pub(crate) fn param_fault_text(alloc: Global, fault: ParamFault) -> Result<Vec<u8>, NoMemory>
    ensures { IfOk result (λ text. text.items ≡ codes "input: " ++ param_text fault) }
{
    let mut text = Vec::from_slice(alloc, b"input: ")?;
    match fault {
        ParamFault::Repeated(key) => push_key(&mut text, key, " repeated")?,
        ParamFault::BadValue(key) => push_key(&mut text, key, " bad value")?,
        ParamFault::OutOfRange(key) => push_key(&mut text, key, " out of range")?,
        ParamFault::LeftOut(key) => push_key(&mut text, key, " left out")?,
        ParamFault::Missing(key) => push_key(&mut text, key, " missing")?,
        ParamFault::NoMemory => {}
    }
    Ok(text)
}

/// Appends a key's name and what is wrong with it.
fn push_key(text: &mut Vec<u8>, key: Key, wrong: &str) -> Result<(), NoMemory>
    ensures { OnOk result (text.new.items ≡ text.old.items ++ name_of key ++ wrong.now) }
{
    push_bytes(text, key_name(key).as_bytes())?;
    push_bytes(text, wrong.as_bytes())
}
