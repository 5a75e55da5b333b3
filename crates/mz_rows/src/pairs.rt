//! Rows that name two places: the numbers of those of one pair are added.
ghost use Rattle.std.specs.Prelude.{ℕ, ◌≡◌, ◌<◌, ◌≤◌, ◌+◌, ◌*◌, ◌^◌, length, IfOk};
ghost use Rattle.std.specs.List.{All};
ghost use Rattle.std.specs.List.Sorted.{IsNonDecreasingBy};
ghost use Rattle.mz_num.specs.Limits.{greatest_quantity, most_amount_rows};
ghost use Rattle.mz_rows.specs.Pairs.{added_pairs};
ghost use Rattle.mz_rows.specs.Runs.{AreAdded, ends_with, pair_key};

use mz_num::NoMemory;
use std::alloc::Global;

/// A row: two places and a number.
type PairRow = (u32, u32, u64);

/// A pair of places with the sum of its rows.
type PairSum = (u32, u32, u128);

/// Each pair of places that rows name, once, in order of the first place and then of the second, with
/// the numbers of its rows added. A row that isn't to count is taken out before.
pub fn add_pairs(
    alloc: Global,
    mut rows: Vec<(u32, u32, u64)>,
) -> Result<Vec<(u32, u32, u128)>, NoMemory>
    requires few { length rows.items ≤ most_amount_rows }
    requires narrow { All (λ row. row.1 < 2 ^ 32) rows.items }
    requires small { All (λ row. row.2 ≤ greatest_quantity) rows.items }
    ensures sums { IfOk result (λ sums. (n m : ℕ) → All (λ row. row.0 < n) rows.items
        → All (λ row. row.1 < m) rows.items → sums.items ≡ added_pairs n m rows.items) }
    ensures fewer { IfOk result (λ sums. length sums.items ≤ length rows.items) }
{
    rows.sort_unstable_by_key(|row| pair_key(row));
    add_runs(alloc, rows.as_slice())
}

/// A pair as one number, by which rows are ordered: the first place decides, then the second.
fn pair_key(row: &PairRow) -> u64
    ensures { result ≡ pair_key row.now }
{
    u64::from(row.0) * 4_294_967_296 + u64::from(row.1)
}

/// The same of rows that stand in order of their pairs.
fn add_runs(alloc: Global, rows: &[PairRow]) -> Result<Vec<PairSum>, NoMemory>
    // The rows, within their limits and in order.
    requires few { length rows.now ≤ most_amount_rows }
    requires narrow { All (λ row. row.1 < 2 ^ 32) rows.now }
    requires small { All (λ row. row.2 ≤ greatest_quantity) rows.now }
    requires sorted { IsNonDecreasingBy pair_key rows.now }

    // The sums, a pair each.
    ensures added { IfOk result (λ sums. AreAdded rows.now sums.items) }
    ensures fewer { IfOk result (λ sums. length sums.items ≤ length rows.now) }
{
    let mut sums = Vec::with_capacity(alloc, run_count(rows))?;
    for row in rows {
        if is_last(sums.as_slice(), row) {
            let last = sums.len() - 1;
            sums[last].2 += u128::from(row.2);
        } else {
            sums.push((row.0, row.1, u128::from(row.2)))?;
        }
    }
    Ok(sums)
}

/// How many pairs rows in order name, so that the list of sums is made in one piece.
fn run_count(rows: &[PairRow]) -> usize {
    rows.chunk_by(|one, next| one.0 == next.0 && one.1 == next.1)
        .count()
}

/// The last sum is that of the row's pair.
fn is_last(sums: &[PairSum], row: &PairRow) -> bool
    ensures { result ≡ ends_with sums.now row.now }
{
    match sums.last() {
        Some(sum) => sum.0 == row.0 && sum.1 == row.1,
        None => false,
    }
}
