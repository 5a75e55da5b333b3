//! The limits of a project's quantities, each at its limit and above it.
use super::{AMOUNTS, UNITS, is_above, is_refused, is_taken};
use mz_project::{InputFault, What};
use std::alloc::Global;
use std::test::Fail;

const TARGETS: &str = "FEATNAME f\nPUVSFEATNAME a";

#[test]
fn rates_have_a_limit(rt: HostRuntime) -> Result<(), Fail> {
    let alloc = rt.alloc();
    let lines = "BLM 1000000000000\nZONEBOUNDCOSTNAME k";
    let at = ("k", "zoneid1,zoneid2,cost\n1,2,1\n");
    let above = ("k", "zoneid1,zoneid2,cost\n1,2,1.000001\n");
    assert!(rt; is_taken(alloc, lines, &[UNITS, at])?);
    assert!(rt; is_above(alloc, lines, &[UNITS, above], What::Rate)?);
    Ok(())
}

/// Whether this quantity of a project with these boundaries is above its limit.
fn bounds_are_above(alloc: Global, lines: &str, bounds: &str, what: What) -> Result<bool, Fail> {
    is_above(alloc, lines, &[UNITS, ("b", bounds)], what)
}

fn bounds_are_taken(alloc: Global, lines: &str, bounds: &str) -> Result<bool, Fail> {
    is_taken(alloc, lines, &[UNITS, ("b", bounds)])
}

#[test]
fn lengths_of_pairs_have_a_limit(rt: HostRuntime) -> Result<(), Fail> {
    let alloc = rt.alloc();
    let lines = "BOUNDNAME b\nBLM 1";
    let at = "id1,id2,boundary\n1,2,60000000000000\n2,1,40000000000000\n";
    let above = "id1,id2,boundary\n1,2,60000000000000\n2,1,40000000000000.0001\n";
    assert!(rt; bounds_are_taken(alloc, lines, at)?);
    assert!(rt; bounds_are_above(alloc, lines, above, What::Boundary)?);
    Ok(())
}

#[test]
fn outer_lengths_have_a_limit(rt: HostRuntime) -> Result<(), Fail> {
    let alloc = rt.alloc();
    let lines = "BOUNDNAME b\nBLM 1";
    let at = "id1,id2,boundary\n3,3,100000000000000\n";
    let above = "id1,id2,boundary\n3,3,100000000000000\n3,3,0.0001\n";
    assert!(rt; bounds_are_taken(alloc, lines, at)?);
    assert!(rt; bounds_are_above(alloc, lines, above, What::Boundary)?);
    Ok(())
}

#[test]
fn terms_of_pairs_have_a_limit(rt: HostRuntime) -> Result<(), Fail> {
    let alloc = rt.alloc();
    let lines = "BOUNDNAME b\nBLM 2";
    let at = "id1,id2,boundary\n1,2,50000000000000\n";
    let above = "id1,id2,boundary\n1,2,50000000000000.0001\n";
    assert!(rt; bounds_are_taken(alloc, lines, at)?);
    assert!(rt; bounds_are_above(alloc, lines, above, What::Edge)?);
    Ok(())
}

#[test]
fn outer_terms_have_a_limit(rt: HostRuntime) -> Result<(), Fail> {
    let alloc = rt.alloc();
    let lines = "BOUNDNAME b\nBLM 2";
    let at = "id1,id2,boundary\n3,3,50000000000000\n";
    let above = "id1,id2,boundary\n3,3,50000000000000.0001\n";
    assert!(rt; bounds_are_taken(alloc, lines, at)?);
    assert!(rt; bounds_are_above(alloc, lines, above, What::Edge)?);
    Ok(())
}

/// Whether the total of a project's one feature is above its limit.
fn total_is_above(alloc: Global, amounts: &str) -> Result<bool, Fail> {
    let files = [UNITS, ("f", "id,target\n1,4\n"), ("a", amounts)];
    is_above(alloc, TARGETS, &files, What::Amount)
}

fn total_is_taken(alloc: Global, amounts: &str) -> Result<bool, Fail> {
    let files = [UNITS, ("f", "id,target\n1,4\n"), ("a", amounts)];
    is_taken(alloc, TARGETS, &files)
}

#[test]
fn totals_have_a_limit(rt: HostRuntime) -> Result<(), Fail> {
    let alloc = rt.alloc();
    let at = "species,pu,amount\n1,1,50000000000000\n1,2,50000000000000\n";
    let above = "species,pu,amount\n1,1,50000000000000\n1,2,50000000000000.0001\n";
    let twice = "species,pu,amount\n1,1,100000000000000\n1,1,0.0001\n";
    assert!(rt; total_is_taken(alloc, at)?);
    assert!(rt; total_is_above(alloc, above)?);
    assert!(rt; total_is_above(alloc, twice)?);
    Ok(())
}

const CONTRIBUTIONS: &str = "FEATNAME f\nPUVSFEATNAME a\nZONECONTRIBNAME q";

/// The files of a project whose one feature counts twice in the second zone.
fn doubled(amounts: &str) -> [(&str, &str); 4] {
    [
        UNITS,
        ("f", "id,target\n1,4\n"),
        ("a", amounts),
        ("q", "zoneid,featureid,fraction\n2,1,2\n"),
    ]
}

#[test]
fn gains_have_a_limit(rt: HostRuntime) -> Result<(), Fail> {
    let alloc = rt.alloc();
    let at = doubled("species,pu,amount\n1,1,50000000000000\n");
    let above = doubled("species,pu,amount\n1,1,50000000000000.0001\n");
    assert!(rt; is_taken(alloc, CONTRIBUTIONS, &at)?);
    assert!(rt; is_above(alloc, CONTRIBUTIONS, &above, What::Gain)?);
    Ok(())
}

/// The files of a project of one amount, with these features and zone targets.
fn asked<'a>(features: &'a str, targets: &'a str) -> [(&'a str, &'a str); 4] {
    let amounts = ("a", "species,pu,amount\n1,1,50000000000000\n");
    [UNITS, ("f", features), amounts, ("t", targets)]
}

const ZONE_TARGETS: &str = "FEATNAME f\nPUVSFEATNAME a\nZONETARGETNAME t";

#[test]
fn levels_of_features_have_a_limit(rt: HostRuntime) -> Result<(), Fail> {
    let alloc = rt.alloc();
    let targets = "zoneid,featureid,target,targettype\n";
    let at = asked("id,prop\n1,2\n", targets);
    let above = asked("id,prop\n1,2.000001\n", targets);
    assert!(rt; is_taken(alloc, ZONE_TARGETS, &at)?);
    assert!(rt; is_above(alloc, ZONE_TARGETS, &above, What::Level)?);
    Ok(())
}

#[test]
fn levels_of_zone_targets_have_a_limit(rt: HostRuntime) -> Result<(), Fail> {
    let alloc = rt.alloc();
    let at = asked("id\n1\n", "zoneid,featureid,target,targettype\n2,1,2,1\n");
    let above = asked(
        "id\n1\n",
        "zoneid,featureid,target,targettype\n2,1,2.000001,1\n",
    );
    assert!(rt; is_taken(alloc, ZONE_TARGETS, &at)?);
    assert!(rt; is_above(alloc, ZONE_TARGETS, &above, What::Level)?);
    Ok(())
}

/// The files of a project whose one feature has a great penalty factor, with these units.
fn weighed(units: &str) -> [(&str, &str); 3] {
    let features = ("f", "id,target,spf\n1,4,1000000000000\n");
    [("pu.dat", units), features, ("a", AMOUNTS.1)]
}

#[test]
fn weights_have_a_limit(rt: HostRuntime) -> Result<(), Fail> {
    let alloc = rt.alloc();
    let below = weighed("id,cost\n1,10\n2,20\n3,30\n");
    let at = weighed("id,cost\n1,30\n2,60\n3,90\n");
    let above = weighed("id,cost\n1,40\n2,70\n3,120\n");
    assert!(rt; is_taken(alloc, TARGETS, &below)?);
    assert!(rt; is_taken(alloc, TARGETS, &at)?);
    assert!(rt; is_refused(alloc, TARGETS, &above, InputFault::Weight(1))?);
    Ok(())
}

/// The files of a project whose one feature weighs too much.
fn heavy<'a>(units: &'a str, bounds: &'a str, amounts: &'a str) -> [(&'a str, &'a str); 4] {
    let features = ("f", "id,target,spf\n1,1,1000000000000\n");
    [("pu.dat", units), features, ("a", amounts), ("b", bounds)]
}

const ALL: &str = "FEATNAME f\nPUVSFEATNAME a\nBOUNDNAME b";

const DEAR: &str = "id,cost\n1,100000000000000\n2,1\n";

const CHEAP: &str = "id,cost\n1,200\n2,1\n";

const LONG: &str = "id1,id2,boundary\n1,2,100000000000000\n1,2,1\n";

const SHORT: &str = "id1,id2,boundary\n1,2,1\n";

const MANY: &str = "species,pu,amount\n1,1,100000000000000\n1,2,1\n";

const FEW: &str = "species,pu,amount\n1,1,1\n";

#[test]
fn the_limits_of_costs_and_boundaries_come_first(rt: HostRuntime) -> Result<(), Fail> {
    let alloc = rt.alloc();
    assert!(rt; is_above(alloc, ALL, &heavy(DEAR, LONG, MANY), What::Cost)?);
    assert!(rt; is_above(alloc, ALL, &heavy(CHEAP, LONG, MANY), What::Boundary)?);
    assert!(rt; is_above(alloc, ALL, &heavy(CHEAP, LONG, FEW), What::Boundary)?);
    Ok(())
}

#[test]
fn weights_come_last(rt: HostRuntime) -> Result<(), Fail> {
    let alloc = rt.alloc();
    let files = heavy(CHEAP, SHORT, FEW);
    assert!(rt; is_above(alloc, ALL, &heavy(CHEAP, SHORT, MANY), What::Amount)?);
    assert!(rt; is_refused(alloc, ALL, &files, InputFault::Weight(1))?);
    Ok(())
}
