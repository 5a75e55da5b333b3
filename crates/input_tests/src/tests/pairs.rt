//! Rows that name two places.
use mz_num::NoMemory;
use mz_rows::add_pairs;
use std::alloc::Global;

/// The two pairs of three rows, with their sums.
fn two_sums(
    alloc: Global,
    numbers: [u8; 3],
) -> Result<Option<((u32, u32, u128), (u32, u32, u128))>, NoMemory> {
    let mut rows = Vec::new(alloc);
    rows.push((1, 0, u64::from(numbers[0])))?;
    rows.push((0, 2, u64::from(numbers[1])))?;
    rows.push((1, 0, u64::from(numbers[2])))?;
    let sums = add_pairs(alloc, rows)?;
    Ok(match sums.as_slice() {
        [first, second] => Some((*first, *second)),
        _ => None,
    })
}

#[test]
fn adds_the_rows_of_each_pair(rt: HostRuntime) {
    assert_eq!(rt;
        two_sums(rt.alloc(), [5, 1, 7]),
        Ok(Some(((0, 2, 1), (1, 0, 12))))
    );
    assert_eq!(rt;
        two_sums(rt.alloc(), [0, 0, 0]),
        Ok(Some(((0, 2, 0), (1, 0, 0))))
    );
}
