//! The units that hold each feature.
ghost use Rattle.std.specs.Prelude.{◌≡◌, ◌<◌, IfOk, length, map};
ghost use Rattle.std.specs.List.{All};
ghost use Rattle.mz_model.specs.Amounts.{holders_of};
ghost use Rattle.mz_num.specs.Places.{list_below};

use crate::count::count_one;
use crate::filling::Filling;
use crate::groups::Groups;
use mz_num::NoMemory;
use std::alloc::Global;

/// The units that hold each feature, with their amounts, in order of the rows: rows of a unit, a
/// feature and an amount, by place.
pub fn holders_by_feature(
    alloc: Global,
    amounts: &[(u32, u32, u64)],
    features: u32,
) -> Result<Groups<(u32, u64)>, NoMemory>
    requires { All (λ row. row.1 < features) amounts.now }
    ensures { IfOk result (λ holders. holders ≡ list_below features (holders_of amounts.now)) }
{
    let counts = holder_counts(alloc, amounts, features)?;
    let mut lists = Filling::new(alloc, counts.as_slice(), (0, 0))?;
    for (unit, feature, amount) in amounts {
        lists.push(*feature as usize, (*unit, *amount));
    }
    Ok(lists.full())
}

/// How many units hold each feature.
fn holder_counts(
    alloc: Global,
    amounts: &[(u32, u32, u64)],
    features: u32,
) -> Result<Vec<usize>, NoMemory>
    requires { All (λ row. row.1 < features) amounts.now }
    ensures { IfOk result (λ counts. counts.items ≡ map length (list_below features (holders_of amounts.now))) }
{
    let mut counts = vec![in alloc; 0usize; features as usize]?;
    for row in amounts {
        count_one(&mut counts, row.1 as usize)?;
    }
    Ok(counts)
}
