//! Counts by place.
ghost use Rattle.std.specs.Prelude.{◌≡◌, ◌<◌, IfOk, length};
ghost use Rattle.mz_model.specs.Groups.{one_more};

use mz_num::NoMemory;

/// Counts one more at a place. Where a count doesn't fit its type, there is no memory for so many things.
#[inline]
pub(crate) fn count_one(counts: &mut Vec<usize>, place: usize) -> Result<(), NoMemory>
    requires { place < length counts.old.items }
    ensures { IfOk result (λ _. counts.new.items ≡ one_more counts.old.items place) }
{
    let Some(count) = counts[place].checked_add(1) else {
        return Err(NoMemory);
    };
    counts[place] = count;
    Ok(())
}
