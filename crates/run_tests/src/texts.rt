//! The text of every fault.
use mz_num::{NumFault, Text};
use mz_params::{Key, ParamFault};
use mz_run::{InputFault, Status, What, Which, fault_text};
use mz_tables::{RowFault, TableFault};
use std::alloc::Global;
use std::test::Fail;

fn is_text_of(alloc: Global, status: &Status, text: &str) -> Result<bool, Fail> {
    let found = fault_text(alloc, status)?;
    Ok(found.as_slice() == text.as_bytes())
}

/// Whether the input's fault has this text.
fn is_text(alloc: Global, fault: InputFault, text: &str) -> Result<bool, Fail> {
    is_text_of(alloc, &Status::Input(fault), text)
}

#[test]
fn files_that_are_too_long(rt: HostRuntime) -> Result<(), Fail> {
    let table = [
        (Which::Params, "input: too long"),
        (Which::Zones, "zones: too long"),
        (Which::Costs, "costs: too long"),
        (Which::Units, "units: too long"),
        (Which::ZoneCosts, "zonecost: too long"),
        (Which::Features, "features: too long"),
        (Which::Amounts, "amounts: too long"),
        (Which::Contribs, "zonecontrib: too long"),
        (Which::ZoneTargets, "zonetarget: too long"),
        (Which::ZoneSets, "puzone: too long"),
        (Which::Locks, "pulock: too long"),
        (Which::Bounds, "bound: too long"),
        (Which::ZoneBounds, "zoneboundcost: too long"),
    ];
    for (which, text) in table {
        assert!(rt;
            is_text(rt.alloc(), InputFault::TooLong(which), text)?,
            "{text}"
        );
    }
    Ok(())
}

#[test]
fn columns_of_each_file(rt: HostRuntime) -> Result<(), Fail> {
    let table = [
        (Which::Zones, 0, "zones: line 2 unknown zoneid"),
        (Which::Zones, 1, "zones: line 2 unknown zonename"),
        (Which::Costs, 0, "costs: line 2 unknown costid"),
        (Which::Costs, 1, "costs: line 2 unknown costname"),
        (Which::Units, 0, "units: line 2 unknown id"),
        (Which::Units, 1, "units: line 2 unknown cost 1"),
        (Which::Units, 2, "units: line 2 unknown cost 2"),
        (Which::ZoneCosts, 0, "zonecost: line 2 unknown zoneid"),
        (Which::ZoneCosts, 1, "zonecost: line 2 unknown costid"),
        (Which::ZoneCosts, 2, "zonecost: line 2 unknown multiplier"),
        (Which::Features, 0, "features: line 2 unknown id"),
        (Which::Features, 1, "features: line 2 unknown target"),
        (Which::Features, 2, "features: line 2 unknown prop"),
        (Which::Features, 3, "features: line 2 unknown spf"),
        (Which::Features, 4, "features: line 2 unknown name"),
        (Which::Features, 5, "features: line 2 unknown target2"),
        (Which::Features, 6, "features: line 2 unknown sepnum"),
        (Which::Features, 7, "features: line 2 unknown sepdistance"),
        (Which::Features, 8, "features: line 2 unknown targetocc"),
        (Which::Amounts, 0, "amounts: line 2 unknown featureid"),
        (Which::Amounts, 1, "amounts: line 2 unknown puid"),
        (Which::Amounts, 2, "amounts: line 2 unknown amount"),
        (Which::Contribs, 0, "zonecontrib: line 2 unknown zoneid"),
        (Which::Contribs, 1, "zonecontrib: line 2 unknown featureid"),
        (Which::Contribs, 2, "zonecontrib: line 2 unknown fraction"),
        (Which::ZoneTargets, 0, "zonetarget: line 2 unknown zoneid"),
        (
            Which::ZoneTargets,
            1,
            "zonetarget: line 2 unknown featureid",
        ),
        (Which::ZoneTargets, 2, "zonetarget: line 2 unknown target"),
        (
            Which::ZoneTargets,
            3,
            "zonetarget: line 2 unknown targettype",
        ),
        (Which::ZoneSets, 0, "puzone: line 2 unknown puid"),
        (Which::ZoneSets, 1, "puzone: line 2 unknown zoneid"),
        (Which::Locks, 0, "pulock: line 2 unknown puid"),
        (Which::Locks, 1, "pulock: line 2 unknown zoneid"),
        (Which::Bounds, 0, "bound: line 2 unknown id1"),
        (Which::Bounds, 1, "bound: line 2 unknown id2"),
        (Which::Bounds, 2, "bound: line 2 unknown boundary"),
        (
            Which::ZoneBounds,
            0,
            "zoneboundcost: line 2 unknown zoneid1",
        ),
        (
            Which::ZoneBounds,
            1,
            "zoneboundcost: line 2 unknown zoneid2",
        ),
        (Which::ZoneBounds, 2, "zoneboundcost: line 2 unknown cost"),
        (Which::Params, 0, "input: line 2 unknown "),
        (Which::Zones, 2, "zones: line 2 unknown "),
        (Which::Costs, 2, "costs: line 2 unknown "),
        (Which::ZoneCosts, 3, "zonecost: line 2 unknown "),
        (Which::Features, 9, "features: line 2 unknown "),
        (Which::Amounts, 3, "amounts: line 2 unknown "),
        (Which::Contribs, 3, "zonecontrib: line 2 unknown "),
        (Which::ZoneTargets, 4, "zonetarget: line 2 unknown "),
        (Which::ZoneSets, 2, "puzone: line 2 unknown "),
        (Which::Locks, 2, "pulock: line 2 unknown "),
        (Which::Bounds, 3, "bound: line 2 unknown "),
        (Which::ZoneBounds, 3, "zoneboundcost: line 2 unknown "),
    ];
    for (which, column, text) in table {
        let fault = InputFault::Row(which, RowFault::Unknown(2, column));
        assert!(rt; is_text(rt.alloc(), fault, text)?, "{text}");
    }
    Ok(())
}

#[test]
fn faults_of_rows(rt: HostRuntime) -> Result<(), Fail> {
    let table = [
        (
            Which::Zones,
            RowFault::TooMany(62),
            "zones: line 62 too many",
        ),
        (
            Which::Units,
            RowFault::BadNumber(2, 1, NumFault::Empty),
            "units: line 2 bad number in cost 1: empty",
        ),
        (
            Which::ZoneCosts,
            RowFault::BadNumber(3, 2, NumFault::NotANumber),
            "zonecost: line 3 bad number in multiplier: not a number",
        ),
        (
            Which::Bounds,
            RowFault::BadNumber(4294967295, 2, NumFault::Negative),
            "bound: line 4294967295 bad number in boundary: negative",
        ),
        (
            Which::Amounts,
            RowFault::BadNumber(2, 2, NumFault::TooLarge),
            "amounts: line 2 bad number in amount: too large",
        ),
        (
            Which::Features,
            RowFault::LeftOut(2, 6),
            "features: line 2 left out sepnum",
        ),
        (
            Which::ZoneTargets,
            RowFault::LeftOut(2, 3),
            "zonetarget: line 2 left out targettype",
        ),
        (
            Which::ZoneSets,
            RowFault::Unknown(2, 0),
            "puzone: line 2 unknown puid",
        ),
        (
            Which::Costs,
            RowFault::Repeated(3),
            "costs: line 3 repeated",
        ),
        (
            Which::Locks,
            RowFault::LockConflict(2, 1),
            "pulock: line 2 unit 1 is locked outside its zones",
        ),
    ];
    for (which, fault, text) in table {
        assert!(rt;
            is_text(rt.alloc(), InputFault::Row(which, fault), text)?,
            "{text}"
        );
    }
    Ok(())
}

#[test]
fn faults_of_tables(rt: HostRuntime) -> Result<(), Fail> {
    let table = [
        (
            Which::Contribs,
            TableFault::NoHeader,
            "zonecontrib: no header",
        ),
        (
            Which::Features,
            TableFault::ColumnMissing(0),
            "features: column id missing",
        ),
        (
            Which::Units,
            TableFault::ColumnMissing(59),
            "units: column cost 59 missing",
        ),
        (
            Which::Amounts,
            TableFault::Uneven(3),
            "amounts: line 3 uneven",
        ),
    ];
    for (which, fault, text) in table {
        assert!(rt;
            is_text(rt.alloc(), InputFault::Table(which, fault), text)?,
            "{text}"
        );
    }
    Ok(())
}

/// What is said of a key, by what is wrong with it.
fn param_faults(key: Key) -> [(ParamFault, &'static str); 5] {
    [
        (ParamFault::Repeated(key), "repeated"),
        (ParamFault::BadValue(key), "bad value"),
        (ParamFault::OutOfRange(key), "out of range"),
        (ParamFault::LeftOut(key), "left out"),
        (ParamFault::Missing(key), "missing"),
    ]
}

#[test]
fn faults_of_each_key(rt: HostRuntime) -> Result<(), Fail> {
    let table = [
        (Key::InputDir, "INPUTDIR"),
        (Key::OutputDir, "OUTPUTDIR"),
        (Key::ScenName, "SCENNAME"),
        (Key::PuName, "PUNAME"),
        (Key::FeatName, "FEATNAME"),
        (Key::PuVsFeatName, "PUVSFEATNAME"),
        (Key::BoundName, "BOUNDNAME"),
        (Key::ZonesName, "ZONESNAME"),
        (Key::CostsName, "COSTSNAME"),
        (Key::ZoneCostName, "ZONECOSTNAME"),
        (Key::ZoneBoundCostName, "ZONEBOUNDCOSTNAME"),
        (Key::ZoneContribName, "ZONECONTRIBNAME"),
        (Key::ZoneTargetName, "ZONETARGETNAME"),
        (Key::PuLockName, "PULOCKNAME"),
        (Key::PuZoneName, "PUZONENAME"),
        (Key::AvailableZone, "AVAILABLEZONE"),
        (Key::Blm, "BLM"),
        (Key::Prop, "PROP"),
        (Key::MissLevel, "MISSLEVEL"),
        (Key::RandSeed, "RANDSEED"),
        (Key::NumReps, "NUMREPS"),
        (Key::NumItns, "NUMITNS"),
        (Key::StartTemp, "STARTTEMP"),
        (Key::CoolFac, "COOLFAC"),
        (Key::NumTemp, "NUMTEMP"),
        (Key::RunMode, "RUNMODE"),
        (Key::SaveRun, "SAVERUN"),
        (Key::SaveBest, "SAVEBEST"),
        (Key::SaveSummary, "SAVESUMMARY"),
        (Key::SaveTargMet, "SAVETARGMET"),
        (Key::SaveSumSoln, "SAVESUMSOLN"),
        (Key::SaveTurns, "SAVETURNS"),
        (Key::ClumpType, "CLUMPTYPE"),
        (Key::CostThresh, "COSTTHRESH"),
        (Key::Asymmetric, "ASYMMETRICCONNECTIVITY"),
    ];
    for (key, name) in table {
        for (fault, wrong) in param_faults(key) {
            let text = format!(in rt.alloc(); "input: {name} {wrong}")?;
            assert!(rt;
                is_text(rt.alloc(), InputFault::Param(fault), text.as_str())?,
                "{name}"
            );
        }
    }
    Ok(())
}

#[test]
fn limits(rt: HostRuntime) -> Result<(), Fail> {
    let table = [
        (InputFault::Sum(What::Cost), "limit: cost"),
        (InputFault::Sum(What::Rate), "limit: rate"),
        (InputFault::Sum(What::Boundary), "limit: boundary"),
        (InputFault::Sum(What::Edge), "limit: edge"),
        (InputFault::Sum(What::Amount), "limit: amount"),
        (InputFault::Sum(What::Gain), "limit: gain"),
        (InputFault::Sum(What::Level), "limit: level"),
        (
            InputFault::Weight(2147483647),
            "limit: weight of feature 2147483647",
        ),
    ];
    for (fault, text) in table {
        assert!(rt; is_text(rt.alloc(), fault, text)?, "{text}");
    }
    Ok(())
}

#[test]
fn other_statuses(rt: HostRuntime) -> Result<(), Fail> {
    let alloc = rt.alloc();
    let table = [
        (Status::Done, ""),
        (Status::NoMemory, ""),
        (Status::Words, "words: use [file [workers]] or gen number"),
        (
            Status::ShelfFault(Text::new(String::from_str(alloc, "-")?)),
            "fault: -",
        ),
        (
            Status::Absent(Text::new(String::from_str(alloc, "pu.dat")?)),
            "absent: pu.dat",
        ),
    ];
    for (status, text) in &table {
        assert!(rt; is_text_of(alloc, status, text)?, "{text}");
    }
    Ok(())
}
