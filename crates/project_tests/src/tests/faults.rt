//! Why projects are refused.
use super::{Reading, UNITS, ask, has_bad_row, is_above, is_refused, is_taken};
use mz_num::NumFault;
use mz_params::{Key, ParamFault};
use mz_project::{InputFault, ReadFault, What, Which};
use mz_tables::{RowFault, TableFault};
use std::alloc::Global;
use std::test::Fail;

/// A file of so many rows with the ids from 1 on.
fn ids(alloc: Global, header: &str, rows: u32) -> Result<String, Fail> {
    let mut text = String::from_str(alloc, header)?;
    for id in 1..=rows {
        let row = format!(in alloc; "{id},n{id}\n")?;
        text.push_str(row.as_str())?;
    }
    Ok(text)
}

/// Whether this file is refused for a row, both as one of zones and as one of costs.
fn named_row(alloc: Global, text: &str, fault: RowFault) -> Result<bool, Fail> {
    let files = [UNITS, ("f", text)];
    let zones = has_bad_row(alloc, "ZONESNAME f", &files, Which::Zones, fault)?;
    let costs = has_bad_row(alloc, "COSTSNAME f", &files, Which::Costs, fault)?;
    Ok(zones && costs)
}

#[test]
fn zones_and_costs_are_refused(rt: HostRuntime) -> Result<(), Fail> {
    let alloc = rt.alloc();
    assert!(rt;
        named_row(
            alloc,
            "id,name\nx,a\n",
            RowFault::BadNumber(2, 0, NumFault::NotANumber)
        )?
    );
    assert!(rt;
        named_row(
            alloc,
            "id,name\n1,a\n,b\n",
            RowFault::BadNumber(3, 0, NumFault::Empty)
        )?
    );
    assert!(rt;
        named_row(
            alloc,
            "id,name\n-1,a\n",
            RowFault::BadNumber(2, 0, NumFault::Negative)
        )?
    );
    assert!(rt;
        named_row(
            alloc,
            "id,name\n2147483648,a\n",
            RowFault::BadNumber(2, 0, NumFault::TooLarge)
        )?
    );
    assert!(rt; named_row(alloc, "id,name\n1,a\n2,b\n01,c\n", RowFault::Repeated(4))?);
    Ok(())
}

#[test]
fn sixty_zones_are_taken(rt: HostRuntime) -> Result<(), Fail> {
    let sixty = ids(rt.alloc(), "id,name\n", 60)?;
    assert!(rt; is_taken(rt.alloc(), "ZONESNAME f", &[UNITS, ("f", sixty.as_str())])?);
    Ok(())
}

#[test]
fn the_61st_zone_and_cost_are_too_many(rt: HostRuntime) -> Result<(), Fail> {
    let more = ids(rt.alloc(), "id,name\n", 61)?;
    assert!(rt; named_row(rt.alloc(), more.as_str(), RowFault::TooMany(62))?);
    Ok(())
}

/// Whether this unit file is refused for a row, in a project of no cost.
fn unpriced_row(alloc: Global, text: &str, fault: RowFault) -> Result<bool, Fail> {
    let files = [("pu.dat", text), ("f", "id,name\n")];
    has_bad_row(alloc, "COSTSNAME f", &files, Which::Units, fault)
}

#[test]
fn the_100001st_unit_is_too_many(rt: HostRuntime) -> Result<(), Fail> {
    let text = ids(rt.alloc(), "id,name\n", 100_001)?;
    assert!(rt; unpriced_row(rt.alloc(), text.as_str(), RowFault::TooMany(100_002))?);
    Ok(())
}

/// Whether this unit file is refused for a row.
fn unit_row(alloc: Global, text: &str, fault: RowFault) -> Result<bool, Fail> {
    has_bad_row(alloc, "", &[("pu.dat", text)], Which::Units, fault)
}

#[test]
fn ids_of_units_are_refused(rt: HostRuntime) -> Result<(), Fail> {
    let alloc = rt.alloc();
    assert!(rt; unit_row(alloc, "id,cost\n1,10\n1,20\n", RowFault::Repeated(3))?);
    assert!(rt;
        unit_row(
            alloc,
            "id,cost\n1.0,10\n",
            RowFault::BadNumber(2, 0, NumFault::NotANumber)
        )?
    );
    assert!(rt;
        unit_row(
            alloc,
            "id,cost\n1,10\n,20\n",
            RowFault::BadNumber(3, 0, NumFault::Empty)
        )?
    );
    assert!(rt;
        unit_row(
            alloc,
            "id,cost\n-1,10\n",
            RowFault::BadNumber(2, 0, NumFault::Negative)
        )?
    );
    assert!(rt;
        unit_row(
            alloc,
            "id,cost\n2147483648,10\n",
            RowFault::BadNumber(2, 0, NumFault::TooLarge)
        )?
    );
    Ok(())
}

#[test]
fn costs_of_units_are_refused(rt: HostRuntime) -> Result<(), Fail> {
    let alloc = rt.alloc();
    assert!(rt;
        unit_row(
            alloc,
            "id,cost\n1,-5\n",
            RowFault::BadNumber(2, 1, NumFault::Negative)
        )?
    );
    assert!(rt;
        unit_row(
            alloc,
            "id,cost\n1,10\n2,1e\n",
            RowFault::BadNumber(3, 1, NumFault::NotANumber)
        )?
    );
    assert!(rt;
        unit_row(
            alloc,
            "id,cost\n1,\n",
            RowFault::BadNumber(2, 1, NumFault::Empty)
        )?
    );
    assert!(rt;
        unit_row(
            alloc,
            "id,cost\n1,100000000000000.0001\n",
            RowFault::BadNumber(2, 1, NumFault::TooLarge)
        )?
    );
    Ok(())
}

/// Whether this file of zone costs is refused for a row.
fn zone_cost_row(alloc: Global, text: &str, fault: RowFault) -> Result<bool, Fail> {
    let files = [UNITS, ("f", text)];
    has_bad_row(alloc, "ZONECOSTNAME f", &files, Which::ZoneCosts, fault)
}

#[test]
fn zone_costs_of_no_pair_are_refused(rt: HostRuntime) -> Result<(), Fail> {
    let alloc = rt.alloc();
    assert!(rt;
        zone_cost_row(
            alloc,
            "zoneid,costid,multiplier\n3,1,1\n",
            RowFault::Unknown(2, 0)
        )?
    );
    assert!(rt;
        zone_cost_row(
            alloc,
            "zoneid,costid,multiplier\n1,1,1\n2,2,1\n",
            RowFault::Unknown(3, 1)
        )?
    );
    assert!(rt;
        zone_cost_row(
            alloc,
            "zoneid,costid,multiplier\nz,1,1\n",
            RowFault::BadNumber(2, 0, NumFault::NotANumber)
        )?
    );
    assert!(rt;
        zone_cost_row(
            alloc,
            "zoneid,costid,multiplier\n1,,1\n",
            RowFault::BadNumber(2, 1, NumFault::Empty)
        )?
    );
    assert!(rt;
        zone_cost_row(
            alloc,
            "zoneid,costid,multiplier\n2,1,1\n1,1,1\n2,1,1\n",
            RowFault::Repeated(4)
        )?
    );
    Ok(())
}

#[test]
fn multipliers_are_refused(rt: HostRuntime) -> Result<(), Fail> {
    let alloc = rt.alloc();
    assert!(rt;
        zone_cost_row(
            alloc,
            "zoneid,costid,multiplier\n1,1,-1\n",
            RowFault::BadNumber(2, 2, NumFault::Negative)
        )?
    );
    assert!(rt;
        zone_cost_row(
            alloc,
            "zoneid,costid,multiplier\n1,1,\n",
            RowFault::BadNumber(2, 2, NumFault::Empty)
        )?
    );
    assert!(rt;
        zone_cost_row(
            alloc,
            "zoneid,costid,multiplier\n1,1,1E13\n",
            RowFault::BadNumber(2, 2, NumFault::TooLarge)
        )?
    );
    Ok(())
}

/// Whether this file is refused for a row, both as one of zone sets and as one of locks.
fn zone_of_unit_row(alloc: Global, text: &str, fault: RowFault) -> Result<bool, Fail> {
    let files = [UNITS, ("f", text)];
    let sets = has_bad_row(alloc, "PUZONENAME f", &files, Which::ZoneSets, fault)?;
    let locks = has_bad_row(alloc, "PULOCKNAME f", &files, Which::Locks, fault)?;
    Ok(sets && locks)
}

#[test]
fn zone_sets_and_locks_of_no_unit_are_refused(rt: HostRuntime) -> Result<(), Fail> {
    let alloc = rt.alloc();
    assert!(rt; zone_of_unit_row(alloc, "puid,zoneid\n4,1\n", RowFault::Unknown(2, 0))?);
    assert!(rt;
        zone_of_unit_row(
            alloc,
            "puid,zoneid\n,1\n",
            RowFault::BadNumber(2, 0, NumFault::Empty)
        )?
    );
    assert!(rt;
        zone_of_unit_row(
            alloc,
            "puid,zoneid\n-1,1\n",
            RowFault::BadNumber(2, 0, NumFault::Negative)
        )?
    );
    Ok(())
}

#[test]
fn zone_sets_and_locks_of_no_zone_are_refused(rt: HostRuntime) -> Result<(), Fail> {
    let alloc = rt.alloc();
    assert!(rt; zone_of_unit_row(alloc, "puid,zoneid\n1,1\n2,3\n", RowFault::Unknown(3, 1))?);
    assert!(rt;
        zone_of_unit_row(
            alloc,
            "puid,zoneid\n1,x\n",
            RowFault::BadNumber(2, 1, NumFault::NotANumber)
        )?
    );
    assert!(rt;
        zone_of_unit_row(
            alloc,
            "puid,zoneid\n1,1\n2,99999999999\n",
            RowFault::BadNumber(3, 1, NumFault::TooLarge)
        )?
    );
    Ok(())
}

/// Whether this lock file is refused for a row, where the first unit may have the first zone alone.
fn lock_row(alloc: Global, text: &str, fault: RowFault) -> Result<bool, Fail> {
    let files = [UNITS, ("s", "puid,zoneid\n1,1\n"), ("f", text)];
    has_bad_row(
        alloc,
        "PUZONENAME s\nPULOCKNAME f",
        &files,
        Which::Locks,
        fault,
    )
}

#[test]
fn locks_conflict_and_repeat(rt: HostRuntime) -> Result<(), Fail> {
    let alloc = rt.alloc();
    assert!(rt; lock_row(alloc, "puid,zoneid\n1,2\n", RowFault::LockConflict(2, 1))?);
    assert!(rt; lock_row(alloc, "puid,zoneid\n2,2\n2,1\n", RowFault::Repeated(3))?);
    Ok(())
}

#[test]
fn keys_of_the_parameter_file_are_refused(rt: HostRuntime) -> Result<(), Fail> {
    let alloc = rt.alloc();
    let available = InputFault::Param(ParamFault::OutOfRange(Key::AvailableZone));
    let modifier = InputFault::Param(ParamFault::BadValue(Key::Blm));
    assert!(rt; is_refused(alloc, "AVAILABLEZONE 3", &[UNITS], available)?);
    assert!(rt; is_refused(alloc, "BLM x", &[UNITS], modifier)?);
    Ok(())
}

#[test]
fn unit_files_of_no_form_are_refused(rt: HostRuntime) -> Result<(), Fail> {
    let alloc = rt.alloc();
    let empty = InputFault::Table(Which::Units, TableFault::NoHeader);
    let unpriced = InputFault::Table(Which::Units, TableFault::ColumnMissing(1));
    assert!(rt; is_refused(alloc, "", &[("pu.dat", "")], empty)?);
    assert!(rt; is_refused(alloc, "", &[("pu.dat", "id,price\n1,2\n")], unpriced)?);
    Ok(())
}

/// Whether the costs of these units are above their limit.
fn costs_are_above<'a>(alloc: Global, units: &'a str, multipliers: &'a str) -> Result<bool, Fail> {
    let files = [("pu.dat", units), ("f", multipliers)];
    is_above(alloc, "ZONECOSTNAME f", &files, What::Cost)
}

fn costs_are_taken<'a>(alloc: Global, units: &'a str, multipliers: &'a str) -> Result<bool, Fail> {
    let files = [("pu.dat", units), ("f", multipliers)];
    is_taken(alloc, "ZONECOSTNAME f", &files)
}

#[test]
fn all_costs_have_a_limit(rt: HostRuntime) -> Result<(), Fail> {
    let alloc = rt.alloc();
    let none = "zoneid,costid,multiplier\n";
    let at = "id,cost\n1,50000000000000\n2,50000000000000\n";
    let above = "id,cost\n1,50000000000000\n2,50000000000000.0001\n";
    let three = "id,cost\n1,50000000000000\n2,50000000000000\n3,50000000000000\n";
    assert!(rt; costs_are_taken(alloc, at, none)?);
    assert!(rt; costs_are_above(alloc, above, none)?);
    assert!(rt; costs_are_above(alloc, three, none)?);
    Ok(())
}

#[test]
fn costs_in_the_dearest_zones_have_a_limit(rt: HostRuntime) -> Result<(), Fail> {
    let alloc = rt.alloc();
    let twice = "zoneid,costid,multiplier\n2,1,2\n";
    let at = "id,cost\n1,50000000000000\n";
    let above = "id,cost\n1,50000000000000.0001\n";
    assert!(rt; costs_are_taken(alloc, at, twice)?);
    assert!(rt; costs_are_above(alloc, above, twice)?);
    Ok(())
}

/// Whether a project with these lines names a file of this name that isn't there.
fn misses(alloc: Global, lines: &str, name: &str) -> Result<bool, Fail> {
    ask(alloc, lines, &[UNITS], |reading| is_absent(reading, name))
}

fn is_absent(reading: &Reading, name: &str) -> bool {
    match reading {
        Err(ReadFault::Absent(missing)) => missing.as_str() == name,
        _ => false,
    }
}

#[test]
fn a_given_file_must_be_there(rt: HostRuntime) -> Result<(), Fail> {
    assert!(rt; misses(rt.alloc(), "INPUTDIR in\nZONESNAME z.dat", "in/z.dat")?);
    Ok(())
}
