//! Texts put together.
ghost use Rattle.std.specs.Prelude.{◌≡◌, ◌++◌, IfOk};

use mz_num::NoMemory;
use std::alloc::Global;

/// Two texts, one behind the other.
pub(crate) fn joined(alloc: Global, front: &str, end: &str) -> Result<Vec<u8>, NoMemory>
    ensures { IfOk result (λ text. text.items ≡ front.now ++ end.now) }
{
    let mut text = Vec::from_slice(alloc, front.as_bytes())?;
    text.extend_from_slice(end.as_bytes())?;
    Ok(text)
}
