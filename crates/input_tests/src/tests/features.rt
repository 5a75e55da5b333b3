//! The file of features.
ghost use Rattle.std.specs.Prelude.{◌≡◌, length, IfOk};
ghost use Rattle.std.specs.List.{All};

use super::{Refusal, is_given, small_table};
use mz_num::NumFault;
use mz_tables::{RowFault, Table};
use mz_targets::{FeatureList, read_features, wants_features};
use std::alloc::Global;

fn feature_table(alloc: Global, bytes: &[u8]) -> Result<Table, Refusal>
    ensures { IfOk result (λ table. All (λ row. length row ≡ 9) table) }
{
    let wants = wants_features(alloc)?;
    small_table(alloc, bytes, &wants)
}

fn features_in(alloc: Global, bytes: &[u8]) -> Result<FeatureList, Refusal> {
    let table = feature_table(alloc, bytes)?;
    Ok(read_features(alloc, &table)?)
}

/// The target, proportion and penalty factor of the one feature.
fn one_feature(alloc: Global, bytes: &[u8]) -> Result<Option<(u64, u64, u64)>, Refusal> {
    let features = features_in(alloc, bytes)?;
    Ok(match features.rows.as_slice() {
        [feature] => Some((feature.target, feature.prop, feature.spf)),
        _ => None,
    })
}

/// The two bytes of the name of the one feature.
fn one_name(alloc: Global, bytes: &[u8]) -> Result<Option<(u8, u8)>, Refusal> {
    let features = features_in(alloc, bytes)?;
    let [name] = features.names.as_slice() else {
        return Ok(None);
    };
    Ok(match name.as_slice() {
        [first, second] => Some((*first, *second)),
        _ => None,
    })
}

#[test]
fn reads_features_with_their_defaults(rt: HostRuntime) {
    let rows: [(&[u8], Result<Option<(u64, u64, u64)>, Refusal>); 6] = [
        (b"id\n1\n", Ok(Some((0, 0, 1000000)))),
        (b"id,target,fpf\n1,0.5,2\n", Ok(Some((5000, 0, 2000000)))),
        (b"id,prop,spf\n1,0.3,\n", Ok(Some((0, 300000, 1000000)))),
        (b"id,spf\n1,0\n", Ok(Some((0, 0, 0)))),
        (
            b"id,target,sepnum\n1,3,0.00001\n",
            Ok(Some((30000, 0, 1000000))),
        ),
        (b"id\n1\n2\n", Ok(None)),
    ];
    for (bytes, answer) in rows {
        assert!(rt; is_given(one_feature(rt.alloc(), bytes), answer));
    }
}

#[test]
fn tells_the_first_fault_of_features(rt: HostRuntime) {
    let rows: [(&[u8], RowFault); 5] = [
        (b"id,sepnum\n1,2\n", RowFault::LeftOut(2, 6)),
        (b"id,targetocc\n1,\n2,1\n", RowFault::LeftOut(3, 8)),
        (
            b"id,sepnum,target2\n1,2,x\n",
            RowFault::BadNumber(2, 5, NumFault::NotANumber),
        ),
        (
            b"id,spf,prop\n1,-1,-1\n",
            RowFault::BadNumber(2, 2, NumFault::Negative),
        ),
        (b"id\n1\n2\n1\n", RowFault::Repeated(4)),
    ];
    for (bytes, fault) in rows {
        assert!(rt; is_given(one_feature(rt.alloc(), bytes), Err(Refusal::Row(fault))));
    }
}

#[test]
fn keeps_a_name_that_is_no_text(rt: HostRuntime) {
    let name = one_name(rt.alloc(), b"id,name\n1,\xff\xfe\n");
    assert!(rt; matches!(name, Ok(Some((255, 254)))));
}
