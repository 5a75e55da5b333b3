//! Numbers in 64 bits, where each is within the limit of a quantity.
ghost use Rattle.std.specs.Prelude.{ℕ, ◌≡◌, ◌<◌, ◌≤◌, MatchOption, IfOk, get_or, length, slice_index};
ghost use Rattle.std.specs.List.{All};
ghost use Rattle.mz_num.specs.Limits.{greatest_quantity};

use mz_num::NoMemory;
use mz_num::limits::GREATEST_QUANTITY;
use std::alloc::Global;

/// The numbers in 64 bits; none where one of them is above the limit.
pub(crate) fn narrowed(alloc: Global, numbers: &[u128]) -> Result<Option<Vec<u64>>, NoMemory>
    ensures { IfOk result (λ narrow. MatchOption narrow
        ((k : ℕ) × (k < length numbers.now) × (greatest_quantity < slice_index numbers.now k))
        (λ list. (list.items ≡ numbers.now) × All (λ number. number ≤ greatest_quantity) list.items)) }
{
    let mut narrow = Vec::new(alloc);
    for number in numbers {
        if *number > u128::from(GREATEST_QUANTITY) {
            return Ok(None);
        }
        narrow.push(*number as u64)?;
    }
    Ok(Some(narrow))
}

/// Rows of two places and a number, the number in 64 bits; none where one of the numbers is above the limit.
pub(crate) fn narrowed_rows(
    alloc: Global,
    rows: &[(u32, u32, u128)],
) -> Result<Option<Vec<(u32, u32, u64)>>, NoMemory>
    ensures { IfOk result (λ narrow. MatchOption narrow
        ((k : ℕ) × (k < length rows.now) × (greatest_quantity < (get_or rows.now k (0, 0, 0)).2))
        (λ list. (list.items ≡ rows.now) × All (λ row. row.2 ≤ greatest_quantity) list.items)) }
{
    let mut narrow = Vec::new(alloc);
    for (first, second, number) in rows {
        if *number > u128::from(GREATEST_QUANTITY) {
            return Ok(None);
        }
        narrow.push((*first, *second, *number as u64))?;
    }
    Ok(Some(narrow))
}
