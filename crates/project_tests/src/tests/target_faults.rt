//! Why files of features, amounts, contributions, zone targets and boundaries are refused.
use super::{AMOUNTS, FEATURES, Reading, UNITS, empty_shelf, fault_of, fill, has_bad_row, look_on};
use mz_num::NumFault;
use mz_project::{InputFault, Which};
use mz_shelf::MemShelf;
use mz_tables::{RowFault, TableFault};
use std::alloc::Global;
use std::test::Fail;

const TARGETS: &str = "FEATNAME feat.dat\nPUVSFEATNAME amounts.dat";

/// Whether this feature file is refused for a row.
fn feature_row(alloc: Global, text: &str, fault: RowFault) -> Result<bool, Fail> {
    let files = [UNITS, ("feat.dat", text), AMOUNTS];
    has_bad_row(alloc, TARGETS, &files, Which::Features, fault)
}

#[test]
fn numbers_of_features_are_refused(rt: HostRuntime) -> Result<(), Fail> {
    let alloc = rt.alloc();
    assert!(rt;
        feature_row(
            alloc,
            "id\nx\n",
            RowFault::BadNumber(2, 0, NumFault::NotANumber)
        )?
    );
    assert!(rt;
        feature_row(
            alloc,
            "id,target\n1,-4\n",
            RowFault::BadNumber(2, 1, NumFault::Negative)
        )?
    );
    assert!(rt;
        feature_row(
            alloc,
            "id,prop\n1,1e\n",
            RowFault::BadNumber(2, 2, NumFault::NotANumber)
        )?
    );
    assert!(rt;
        feature_row(
            alloc,
            "id,spf\n1,1\n2,1E13\n",
            RowFault::BadNumber(3, 3, NumFault::TooLarge)
        )?
    );
    assert!(rt;
        feature_row(
            alloc,
            "id,fpf\n1,x\n",
            RowFault::BadNumber(2, 3, NumFault::NotANumber)
        )?
    );
    Ok(())
}

#[test]
fn other_rows_of_features_are_refused(rt: HostRuntime) -> Result<(), Fail> {
    let alloc = rt.alloc();
    assert!(rt; feature_row(alloc, "id,target2\n1,1\n", RowFault::LeftOut(2, 5))?);
    assert!(rt; feature_row(alloc, "id,sepnum\n1,2\n", RowFault::LeftOut(2, 6))?);
    assert!(rt; feature_row(alloc, "id,sepdistance\n1,0\n2,3\n", RowFault::LeftOut(3, 7))?);
    assert!(rt;
        feature_row(
            alloc,
            "id,targetocc\n1,x\n",
            RowFault::BadNumber(2, 8, NumFault::NotANumber)
        )?
    );
    assert!(rt; feature_row(alloc, "id\n1\n2\n01\n", RowFault::Repeated(4))?);
    Ok(())
}

/// Whether this amount file is refused for a row.
fn amount_row(alloc: Global, text: &str, fault: RowFault) -> Result<bool, Fail> {
    let files = [UNITS, FEATURES, ("amounts.dat", text)];
    has_bad_row(alloc, TARGETS, &files, Which::Amounts, fault)
}

#[test]
fn amounts_are_refused(rt: HostRuntime) -> Result<(), Fail> {
    let alloc = rt.alloc();
    assert!(rt;
        amount_row(
            alloc,
            "featureid,puid,amount\n1,9,2\n",
            RowFault::Unknown(2, 1)
        )?
    );
    assert!(rt;
        amount_row(
            alloc,
            "featureid,puid,amount\n1,1,2\n2,1,2\n",
            RowFault::Unknown(3, 0)
        )?
    );
    assert!(rt;
        amount_row(
            alloc,
            "featureid,puid,amount\nf,1,2\n",
            RowFault::BadNumber(2, 0, NumFault::NotANumber)
        )?
    );
    assert!(rt;
        amount_row(
            alloc,
            "featureid,puid,amount\n1,,2\n",
            RowFault::BadNumber(2, 1, NumFault::Empty)
        )?
    );
    assert!(rt;
        amount_row(
            alloc,
            "featureid,puid,amount\n1,1,-2\n",
            RowFault::BadNumber(2, 2, NumFault::Negative)
        )?
    );
    Ok(())
}

/// The fault of the first bytes of the amount file.
fn cut_fault(length: usize) -> Option<InputFault> {
    let fault = match length {
        0 => TableFault::NoHeader,
        1..=6 => TableFault::ColumnMissing(0),
        7..=9 => TableFault::ColumnMissing(1),
        10..=16 => TableFault::ColumnMissing(2),
        19..=21 => TableFault::Uneven(2),
        25..=27 => TableFault::Uneven(3),
        31..=33 => TableFault::Uneven(4),
        22 => return Some(no_amount(2)),
        28 => return Some(no_amount(3)),
        34 => return Some(no_amount(4)),
        _ => return None,
    };
    Some(InputFault::Table(Which::Amounts, fault))
}

fn no_amount(line: u32) -> InputFault {
    InputFault::Row(
        Which::Amounts,
        RowFault::BadNumber(line, 2, NumFault::Empty),
    )
}

#[test]
fn a_cut_amount_file_is_refused_where_it_was_cut(rt: HostRuntime) -> Result<(), Fail> {
    let text = "species,pu,amount\n1,1,2\n1,2,3\n1,3,4\n";
    for length in 0..=36 {
        let Some(cut) = text.get(..length) else {
            panic!(rt; "no such length");
        };
        let files = [UNITS, FEATURES, ("amounts.dat", cut)];
        let found = fault_of(rt.alloc(), TARGETS, &files)?;
        assert!(rt; found == cut_fault(length), "{length}");
    }
    Ok(())
}

/// Whether this file of contributions is refused for a row.
fn contribution_row(alloc: Global, text: &str, fault: RowFault) -> Result<bool, Fail> {
    let lines = "FEATNAME feat.dat\nPUVSFEATNAME amounts.dat\nZONECONTRIBNAME q";
    let files = [UNITS, FEATURES, AMOUNTS, ("q", text)];
    has_bad_row(alloc, lines, &files, Which::Contribs, fault)
}

#[test]
fn contributions_are_refused(rt: HostRuntime) -> Result<(), Fail> {
    let alloc = rt.alloc();
    assert!(rt;
        contribution_row(
            alloc,
            "zoneid,featureid,fraction\n3,1,1\n",
            RowFault::Unknown(2, 0)
        )?
    );
    assert!(rt;
        contribution_row(
            alloc,
            "zoneid,featureid,fraction\n2,5,1\n",
            RowFault::Unknown(2, 1)
        )?
    );
    assert!(rt;
        contribution_row(
            alloc,
            "zoneid,featureid,fraction\n2,1,\n",
            RowFault::BadNumber(2, 2, NumFault::Empty)
        )?
    );
    assert!(rt;
        contribution_row(
            alloc,
            "zoneid,featureid,fraction\n2,1,1\n1,1,1\n2,1,1\n",
            RowFault::Repeated(4)
        )?
    );
    Ok(())
}

/// Whether this file of zone targets is refused for a row.
fn zone_target_row(alloc: Global, text: &str, fault: RowFault) -> Result<bool, Fail> {
    let lines = "FEATNAME feat.dat\nPUVSFEATNAME amounts.dat\nZONETARGETNAME t";
    let files = [UNITS, FEATURES, AMOUNTS, ("t", text)];
    has_bad_row(alloc, lines, &files, Which::ZoneTargets, fault)
}

#[test]
fn zone_targets_are_refused(rt: HostRuntime) -> Result<(), Fail> {
    let alloc = rt.alloc();
    assert!(rt;
        zone_target_row(
            alloc,
            "zoneid,featureid,target,targettype\n2,1,4,4\n",
            RowFault::LeftOut(2, 3)
        )?
    );
    assert!(rt;
        zone_target_row(
            alloc,
            "zoneid,featureid,target,targettype\n2,1,4,x\n",
            RowFault::BadNumber(2, 3, NumFault::NotANumber)
        )?
    );
    assert!(rt;
        zone_target_row(
            alloc,
            "zoneid,featureid,target,targettype\n2,1,y,4\n",
            RowFault::BadNumber(2, 2, NumFault::NotANumber)
        )?
    );
    Ok(())
}

#[test]
fn zone_targets_of_no_pair_are_refused(rt: HostRuntime) -> Result<(), Fail> {
    let alloc = rt.alloc();
    assert!(rt;
        zone_target_row(
            alloc,
            "zoneid,featureid,target\n2,1,4\n3,1,4\n",
            RowFault::Unknown(3, 0)
        )?
    );
    assert!(rt;
        zone_target_row(
            alloc,
            "zoneid,featureid,target\n2,2,4\n",
            RowFault::Unknown(2, 1)
        )?
    );
    assert!(rt;
        zone_target_row(
            alloc,
            "zoneid,featureid,target\n2,1,4\n2,1,5\n",
            RowFault::Repeated(3)
        )?
    );
    Ok(())
}

/// Whether this boundary file is refused for a row.
fn bound_row(alloc: Global, text: &str, fault: RowFault) -> Result<bool, Fail> {
    let files = [UNITS, ("b", text)];
    has_bad_row(alloc, "BOUNDNAME b", &files, Which::Bounds, fault)
}

#[test]
fn boundaries_are_refused(rt: HostRuntime) -> Result<(), Fail> {
    let alloc = rt.alloc();
    assert!(rt; bound_row(alloc, "id1,id2,boundary\n1,9,2\n", RowFault::Unknown(2, 1))?);
    assert!(rt;
        bound_row(
            alloc,
            "id1,id2,boundary\n1,2,2\n9,1,2\n",
            RowFault::Unknown(3, 0)
        )?
    );
    assert!(rt;
        bound_row(
            alloc,
            "id1,id2,boundary\n1,2,\n",
            RowFault::BadNumber(2, 2, NumFault::Empty)
        )?
    );
    Ok(())
}

/// Whether this file of zone boundary costs is refused for a row.
fn zone_bound_row(alloc: Global, text: &str, fault: RowFault) -> Result<bool, Fail> {
    let files = [UNITS, ("k", text)];
    has_bad_row(
        alloc,
        "ZONEBOUNDCOSTNAME k",
        &files,
        Which::ZoneBounds,
        fault,
    )
}

#[test]
fn zone_boundary_costs_are_refused(rt: HostRuntime) -> Result<(), Fail> {
    let alloc = rt.alloc();
    assert!(rt;
        zone_bound_row(
            alloc,
            "zoneid1,zoneid2,cost\n1,2,0.5\n2,1,0.6\n",
            RowFault::Repeated(3)
        )?
    );
    assert!(rt;
        zone_bound_row(
            alloc,
            "zoneid1,zoneid2,cost\n1,3,1\n",
            RowFault::Unknown(2, 1)
        )?
    );
    assert!(rt;
        zone_bound_row(
            alloc,
            "zoneid1,zoneid2,cost\n1,2,-1\n",
            RowFault::BadNumber(2, 2, NumFault::Negative)
        )?
    );
    Ok(())
}

/// Whether the first feature of a project with this feature file has this name.
fn has_name(alloc: Global, features: &[u8], name: &[u8]) -> Result<bool, Fail> {
    let mut shelf = empty_shelf(alloc, Vec::new(alloc))?;
    fill_with(alloc, &mut shelf, features)?;
    Ok(look_on(alloc, &mut shelf, |reading| is_named(reading, name)))
}

fn is_named(reading: &Reading, name: &[u8]) -> bool {
    match reading {
        Ok(problem) => problem.features() > 0 && problem.name(0) == name,
        Err(_) => false,
    }
}

fn fill_with(alloc: Global, shelf: &mut MemShelf, features: &[u8]) -> Result<(), Fail> {
    fill(alloc, shelf, TARGETS, &[UNITS, AMOUNTS])?;
    shelf.put(alloc, "feat.dat", features)?;
    Ok(())
}

#[test]
fn a_feature_may_have_any_bytes_for_a_name(rt: HostRuntime) -> Result<(), Fail> {
    assert!(rt; has_name(rt.alloc(), b"id,name\n1,\xffa\n", b"\xffa")?);
    Ok(())
}
