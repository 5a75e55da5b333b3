//! The units that hold each feature.
use mz_model::holders_by_feature;
use mz_num::NoMemory;
use std::alloc::Global;
use std::test::Fail;

/// Whether these units hold a feature, of two over three units.
fn are_holders(alloc: Global, feature: usize, units: &[(u32, u64)]) -> Result<bool, NoMemory> {
    let amounts = [(0, 1, 20_000), (1, 0, 30_000), (2, 1, 40_000)];
    let holders = holders_by_feature(alloc, &amounts, 2)?;
    Ok(feature < 2 && holders.at(feature) == units)
}

#[test]
fn features_have_holders(rt: HostRuntime) -> Result<(), Fail> {
    let alloc = rt.alloc();
    assert!(rt; are_holders(alloc, 0, &[(1, 30_000)])?);
    assert!(rt; are_holders(alloc, 1, &[(0, 20_000), (2, 40_000)])?);
    Ok(())
}
