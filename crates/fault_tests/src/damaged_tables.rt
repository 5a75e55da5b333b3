//! Damaged tables of the stored project.
use crate::host::{Host, run};
use crate::shelves::put_files;
use crate::stored_project::{accepts, refuses, stored_with};
use std::alloc::{AllocError, Global};
use std::test::Fail;

#[test]
fn damaged_unit_files_are_refused(rt: HostRuntime) -> Result<(), Fail> {
    let table: [(&[u8], &str); 15] = [
        (b"\n\n\r\n", "units: no header"),
        (b"\xEF\xBB\xBF", "units: no header"),
        (b"\0\0\0", "units: column id missing"),
        (b",,,,\n,,,,\n", "units: column id missing"),
        (b"\t\t\n\t\t\n", "units: column id missing"),
        (b"\"\"\n", "units: column id missing"),
        (b"\"id,cost\n1,10\n", "units: column id missing"),
        (
            b"\xEF\xBB\xBF\xEF\xBB\xBFid,cost\n1,10\n",
            "units: column id missing",
        ),
        (b"id;cost\n1;10\n", "units: column id missing"),
        (b"id,\0cost\n1,10\n", "units: column cost 1 missing"),
        (b"id,cost\n1,10\n \n2,20\n", "units: line 3 uneven"),
        (b"id,cost\n1,10\n\0\n2,20\n", "units: line 3 uneven"),
        (b"id,cost\n1,10,\n2,20\n", "units: line 2 uneven"),
        (
            b"id,cost\n1,\"10\n2,20\n3,30\n",
            "units: line 2 bad number in cost 1: not a number",
        ),
        (b"id,cost\n\"1,10\n2,20\n3,30\n", "units: line 2 uneven"),
    ];
    for (bytes, text) in table {
        assert!(rt; refuses(&rt, "pu.dat", bytes, text)?, "{text}");
    }
    Ok(())
}

#[test]
fn other_forms_of_the_unit_file_are_taken(rt: HostRuntime) -> Result<(), Fail> {
    let table: [&[u8]; 6] = [
        b"\xEF\xBB\xBFid,cost\n1,10\n2,20\n3,30",
        b"id,cost\r1,10\r2,20\r3,30",
        b"id,cost\n\n\n1,10\n\r\n2,20\n3,30\n\n",
        b"id,cost\n1,10\n2,20\n3,\"30",
        b"\"id\",\"cost\"\n\"1\",\"10\"\n\"2\",\"20\"\n\"3\",\"30\"\n",
        b"ID,Cost,cost\n1,10,a\n2,20,b\n3,30,c\n",
    ];
    for bytes in table {
        assert!(rt; accepts(&rt, "pu.dat", bytes, "best 1 score 39.0000\n")?);
    }
    Ok(())
}

#[test]
fn damaged_rows_are_refused(rt: HostRuntime) -> Result<(), Fail> {
    let table: [(&str, &[u8], &str); 15] = [
        (
            "amounts.dat",
            b"species,pu,amount\n1,9,2\n",
            "amounts: line 2 unknown puid",
        ),
        (
            "amounts.dat",
            b"species,pu,amount\n0,1,2\n",
            "amounts: line 2 unknown featureid",
        ),
        (
            "amounts.dat",
            b"species,pu,amount\n4294967297,1,2\n",
            "amounts: line 2 bad number in featureid: too large",
        ),
        (
            "amounts.dat",
            b"species,pu,amount\n1,1,1E14\n1,2,1E14\n",
            "limit: amount",
        ),
        (
            "feat.dat",
            b"id,target,sepnum\n1,4,2\n",
            "features: line 2 left out sepnum",
        ),
        (
            "feat.dat",
            b"id,target,target2\n1,4,0.0001\n",
            "features: line 2 left out target2",
        ),
        (
            "feat.dat",
            b"id,target,spf\n1,4,1000000000000.0000005\n",
            "features: line 2 bad number in spf: too large",
        ),
        (
            "feat.dat",
            b"id,target\n1,4\n1,4\n",
            "features: line 3 repeated",
        ),
        (
            "feat.dat",
            b"id,id,target\n2,1,4\n",
            "amounts: line 2 unknown featureid",
        ),
        (
            "bound.dat",
            b"id1,id2,boundary\n1,9,1\n",
            "bound: line 2 unknown id2",
        ),
        (
            "bound.dat",
            b"id1,id2,boundary\n1,2,-1\n",
            "bound: line 2 bad number in boundary: negative",
        ),
        (
            "bound.dat",
            b"id1,id2,boundary\n1,2,1E14\n2,1,0.0001\n",
            "limit: boundary",
        ),
        (
            "bound.dat",
            b"id1,id2,boundary\n1,2,100000000000000.00005\n",
            "bound: line 2 bad number in boundary: too large",
        ),
        (
            "pu.dat",
            b"id,cost\n1,10\n2,20\n3,30\n1,x\n",
            "units: line 5 bad number in cost 1: not a number",
        ),
        (
            "pu.dat",
            b"id,cost\n1,10\n2,20\n3,30\n3,30\n4\n",
            "units: line 6 uneven",
        ),
    ];
    for (name, bytes, text) in table {
        assert!(rt; refuses(&rt, name, bytes, text)?, "{text}");
    }
    Ok(())
}

/// How the project ends with these units and the greatest penalty factor: its exit status, where this is its last line.
fn code_of_heavy(rt: &impl Host, units: &[u8], last: &str) -> Result<Option<u8>, Fail> {
    let alloc = rt.alloc();
    let mut shelf = stored_with(alloc, "feat.dat", b"id,target,spf\n1,4,1000000000000\n")?;
    put_files(alloc, &mut shelf, &[("pu.dat", units)])?;
    let code = run(rt, &mut shelf)?.code;
    Ok(if shelf.said().ends_with(last.as_bytes()) {
        Some(code)
    } else {
        None
    })
}

#[test]
fn the_weight_of_a_target_has_a_limit(rt: HostRuntime) -> Result<(), Fail> {
    let table: [(&[u8], &str, u8); 3] = [
        (b"id,cost\n1,10\n2,20\n3,30\n", "best 1 score 39.0000\n", 0),
        (b"id,cost\n1,30\n2,60\n3,90\n", "best 1 score 99.0000\n", 0),
        (
            b"id,cost\n1,40\n2,70\n3,120\n",
            "refused: limit: weight of feature 1\n",
            2,
        ),
    ];
    for (units, last, code) in table {
        assert!(rt; code_of_heavy(&rt, units, last)? == Some(code), "{last}");
    }
    Ok(())
}

/// The file of what the run holds of its target, whose feature has this name.
fn held_of(rt: &impl Host, name: &[u8]) -> Result<Option<Vec<u8>>, Fail> {
    let alloc = rt.alloc();
    let mut features = Vec::from_slice(alloc, b"id,target,spf,name\n1,4,2,")?;
    features.extend_from_slice(name)?;
    let mut shelf = stored_with(alloc, "feat.dat", &features)?;
    let _ = run(rt, &mut shelf)?;
    match shelf.file("output_mv00001.csv") {
        Some(bytes) => Ok(Some(Vec::from_slice(alloc, bytes)?)),
        None => Ok(None),
    }
}

/// Whether the run's file gives the feature of this name as it stands.
fn keeps_name(rt: &impl Host, name: &[u8]) -> Result<bool, Fail> {
    let mut wanted = Vec::from_slice(
        rt.alloc(),
        b"target,zone,feature,name,level,held,shortfall,met\n1,0,1,",
    )?;
    wanted.extend_from_slice(name)?;
    wanted.extend_from_slice(b",4.0000,5.0000,0.0000,yes\n")?;
    match held_of(rt, name)? {
        Some(held) => Ok(held.as_slice() == wanted.as_slice()),
        None => Ok(false),
    }
}

#[test]
fn names_may_be_any_bytes(rt: HostRuntime) -> Result<(), Fail> {
    let table: [&[u8]; 4] = [b"a\xFFb", b"\0", b"\"a,b\"", b"\"a\nb\""];
    for name in table {
        assert!(rt; keeps_name(&rt, name)?);
    }
    Ok(())
}

/// A unit file of so many columns before its own, with these rows.
fn wide_units(alloc: Global, count: usize, rows: &[u8]) -> Result<Vec<u8>, AllocError> {
    let mut bytes = vec![in alloc; b','; count]?;
    bytes.extend_from_slice(b"id,cost\n")?;
    bytes.extend_from_slice(rows)?;
    Ok(bytes)
}

/// Whether rows of two fields are uneven under a header of so many columns more.
fn refuses_wide_units(rt: &impl Host, count: usize) -> Result<bool, Fail> {
    let units = wide_units(rt.alloc(), count, b"1,10\n2,20\n3,30\n")?;
    refuses(rt, "pu.dat", &units, "units: line 2 uneven")
}

/// Whether a header of so many columns more is taken, without rows.
fn finds_wide_columns(rt: &impl Host, count: usize) -> Result<bool, Fail> {
    let units = wide_units(rt.alloc(), count, b"")?;
    refuses(rt, "pu.dat", &units, "amounts: line 2 unknown puid")
}

#[test]
fn a_header_may_have_a_hundred_thousand_columns(rt: HostRuntime) -> Result<(), Fail> {
    assert!(rt; finds_wide_columns(&rt, 100_000)?);
    assert!(rt; refuses_wide_units(&rt, 100_000)?);
    Ok(())
}
