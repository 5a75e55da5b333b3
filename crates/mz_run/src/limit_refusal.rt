//! The texts of quantities above their limits.
ghost use Rattle.std.specs.Prelude.{◌≡◌, ◌++◌, codes, decimal, IfOk};
ghost use Rattle.mz_run.specs.Refusal.{word_of_quantity};

use mz_num::{NoMemory, push_number};
use mz_project::What;
use std::alloc::Global;

/// The word of a quantity that has a limit.
pub(crate) fn quantity(what: What) -> &'static str
    ensures { result.now ≡ word_of_quantity what }
{
    match what {
        What::Cost => "cost",
        What::Rate => "rate",
        What::Boundary => "boundary",
        What::Edge => "edge",
        What::Amount => "amount",
        What::Gain => "gain",
        What::Level => "level",
    }
}

/// The text of a target row that is too heavy.
pub(crate) fn weight_text(alloc: Global, id: u32) -> Result<Vec<u8>, NoMemory>
    ensures { IfOk result (λ text. text.items ≡ codes "limit: weight of feature " ++ decimal id) }
{
    let mut text = Vec::from_slice(alloc, b"limit: weight of feature ")?;
    push_number(&mut text, u64::from(id))?;
    Ok(text)
}
