//! Parameter files, by what they give and by their first fault.
use mz_num::{Mic6, Ten4, Text};
use mz_params::{Key, KeyKind, ParamFault, Params, key_name};
use std::alloc::Global;
use std::test::Fail;

const LONG_FILE: &str = "Input file for the annealing program.

General Parameters
VERSION 0.1
BLM  5.00000000000000E-0001
PROP  0.00000000000000E+0000
RANDSEED -1
BESTSCORE -1.00000000000000E+0000
NUMREPS 10

Annealing Parameters
NUMITNS 1000000
STARTTEMP -1.00000000000000E+0000
COOLFAC  6.00000000000000E+0000
NUMTEMP 10000

Cost Threshold
COSTTHRESH  0.00000000000000E+0000
THRESHPEN1  0.00000000000000E+0000
THRESHPEN2  0.00000000000000E+0000

Input Files
INPUTDIR input
PUNAME pu.dat
FEATNAME feat.dat
PUVSFEATNAME puvfeat.dat
BOUNDNAME bound.dat
ZONESNAME zones.dat
COSTSNAME costs.dat
ZONECOSTNAME zonecost.dat

Save Files
SCENNAME output
SAVERUN 3
SAVEBEST 3
SAVESUMMARY 3
SAVETARGMET 3
SAVESUMSOLN 3
SAVELOG 3
OUTPUTDIR output

Program control.
RUNMODE 1
MISSLEVEL  1.00000000000000E+0000
ITIMPTYPE 0
HEURTYPE -1
CLUMPTYPE 0
VERBOSITY 3
";

// Without a clause the parameters are any to the tests' proofs, and nothing of a file is worked out there.

fn read(alloc: Global, bytes: &[u8]) -> Result<Params, ParamFault> {
    Params::read(alloc, bytes)
}

/// Whether the file is taken, and `look` holds of what it gives.
fn gives<F: Fn(&Params) -> bool + Drop>(alloc: Global, bytes: &[u8], look: F) -> bool
    requires { F.IsAlwaysCallable look }
{
    let params = read(alloc, bytes);
    match &params {
        Ok(params) => look(params),
        Err(_) => false,
    }
}

fn is_named(file: &Option<Text>, wanted: &str) -> bool {
    match file {
        Some(name) => name.as_str() == wanted,
        None => false,
    }
}

fn is_rate(found: Mic6, millionths: u64) -> bool {
    found.0 == millionths
}

/// Whether these are the folders for input and for output, and the name of the scenario.
fn has_folders(params: &Params, input: &str, output: &str, scenario: &str) -> bool {
    params.input_dir.as_str() == input
        && params.output_dir.as_str() == output
        && params.scen.as_str() == scenario
}

fn has_long_names(params: &Params) -> bool {
    params.units.as_str() == "pu.dat"
        && is_named(&params.features, "feat.dat")
        && is_named(&params.amounts, "puvfeat.dat")
        && is_named(&params.bounds, "bound.dat")
        && is_named(&params.zones, "zones.dat")
        && is_named(&params.costs, "costs.dat")
        && is_named(&params.zone_costs, "zonecost.dat")
}

fn names_no_more(params: &Params) -> bool {
    params.zone_bounds.is_none()
        && params.contribs.is_none()
        && params.zone_targets.is_none()
        && params.locks.is_none()
        && params.zone_sets.is_none()
}

#[test]
fn reads_the_long_file(rt: HostRuntime) -> Result<(), Fail> {
    let alloc = rt.alloc();
    let text = LONG_FILE.as_bytes();
    assert!(rt;
        gives(
            alloc,
            text,
            |params| has_folders(params, "input", "output", "output")
        )
    );
    assert!(rt; gives(alloc, text, |params| has_long_names(params)));
    assert!(rt; gives(alloc, text, |params| names_no_more(params)));
    Ok(())
}

fn has_long_counts(params: &Params) -> bool {
    params.available == 1
        && params.seed.is_none()
        && params.reps == 10
        && params.iterations == 1_000_000
        && params.levels == 10_000
        && params.mode == 1
}

fn has_long_rates(params: &Params) -> bool {
    is_rate(params.blm, 500_000)
        && is_rate(params.prop, 0)
        && is_rate(params.miss_level, 1_000_000)
        && is_rate(params.cool, 6_000_000)
        && params.start.is_none()
}

fn has_long_saves(params: &Params) -> bool {
    params.save_run == 3
        && params.save_best == 3
        && params.save_summary == 3
        && params.save_missing == 3
        && params.save_summed == 3
        && params.save_turns == 0
}

#[test]
fn reads_the_numbers_of_the_long_file(rt: HostRuntime) -> Result<(), Fail> {
    let alloc = rt.alloc();
    let text = LONG_FILE.as_bytes();
    assert!(rt; gives(alloc, text, |params| has_long_counts(params)));
    assert!(rt; gives(alloc, text, |params| has_long_rates(params)));
    assert!(rt; gives(alloc, text, |params| has_long_saves(params)));
    Ok(())
}

fn has_defaults(params: &Params) -> bool {
    params.features.is_none() && params.reps == 1 && params.iterations == 0 && params.levels == 1
}

#[test]
fn gives_the_defaults(rt: HostRuntime) -> Result<(), Fail> {
    let alloc = rt.alloc();
    let text = b"PUNAME pu.dat\nSCENNAME\nPROP 0.25";
    assert!(rt; gives(alloc, text, |params| has_folders(params, "", "", "output")));
    assert!(rt; gives(alloc, text, |params| has_defaults(params)));
    assert!(rt; gives(alloc, text, |params| is_rate(params.prop, 250_000)));
    assert!(rt; gives(alloc, text, |params| is_rate(params.cool, 1_000_000)));
    Ok(())
}

fn has_marked_lines(params: &Params) -> bool {
    params.units.as_str() == "my units.dat"
        && params.seed == Some(7)
        && params.start == Some(Ten4(5000))
        && params.mode == 6
}

#[test]
fn takes_marks_returns_tabs_and_small_letters(rt: HostRuntime) -> Result<(), Fail> {
    let text =
        b"\xEF\xBB\xBFpuname\tmy units.dat \r\n\t RandSeed\t 7 and more\r\nstarttemp 0.5 \t\r\nRUNMODE 6\r";
    assert!(rt; gives(rt.alloc(), text, |params| has_marked_lines(params)));
    Ok(())
}

fn fault(alloc: Global, bytes: &[u8]) -> Option<ParamFault> {
    read(alloc, bytes).err()
}

/// Whether this is the first fault of the file.
fn is_first(alloc: Global, bytes: &[u8], first: ParamFault) -> bool {
    fault(alloc, bytes) == Some(first)
}

#[test]
fn names_the_first_fault(rt: HostRuntime) -> Result<(), Fail> {
    let rows = [
        (
            "PUNAME\nBLM 1\nPUNAME pu.dat",
            ParamFault::Repeated(Key::PuName),
        ),
        (
            "PUNAME pu.dat\nRANDSEED 7\nRANDSEED 7",
            ParamFault::Repeated(Key::RandSeed),
        ),
        ("BLM 1\nblm x", ParamFault::Repeated(Key::Blm)),
        ("BLM x\nBLM 1", ParamFault::BadValue(Key::Blm)),
        ("NUMREPS", ParamFault::BadValue(Key::NumReps)),
        ("NUMREPS 1.0", ParamFault::BadValue(Key::NumReps)),
        ("NUMREPS 0", ParamFault::OutOfRange(Key::NumReps)),
        ("NUMREPS -1", ParamFault::OutOfRange(Key::NumReps)),
        ("NUMREPS 1001", ParamFault::OutOfRange(Key::NumReps)),
        ("NUMITNS 10000001", ParamFault::OutOfRange(Key::NumItns)),
        ("NUMTEMP 0", ParamFault::OutOfRange(Key::NumTemp)),
        (
            "AVAILABLEZONE 2147483648",
            ParamFault::OutOfRange(Key::AvailableZone),
        ),
        ("SAVETURNS 4", ParamFault::OutOfRange(Key::SaveTurns)),
        ("BLM -1", ParamFault::OutOfRange(Key::Blm)),
        ("BLM 1e13", ParamFault::OutOfRange(Key::Blm)),
        ("PROP 1.000001", ParamFault::OutOfRange(Key::Prop)),
        ("MISSLEVEL 2", ParamFault::OutOfRange(Key::MissLevel)),
        ("RANDSEED 2147483648", ParamFault::OutOfRange(Key::RandSeed)),
        ("RANDSEED 1e3", ParamFault::BadValue(Key::RandSeed)),
        ("STARTTEMP 1e15", ParamFault::OutOfRange(Key::StartTemp)),
        ("STARTTEMP hot", ParamFault::BadValue(Key::StartTemp)),
        ("RUNMODE 2", ParamFault::LeftOut(Key::RunMode)),
        ("RUNMODE -1", ParamFault::LeftOut(Key::RunMode)),
        ("RUNMODE 2147483648", ParamFault::OutOfRange(Key::RunMode)),
        ("RUNMODE one", ParamFault::BadValue(Key::RunMode)),
        ("CLUMPTYPE 1", ParamFault::LeftOut(Key::ClumpType)),
        ("costthresh -1", ParamFault::LeftOut(Key::CostThresh)),
        (
            "ASYMMETRICCONNECTIVITY 1e999",
            ParamFault::LeftOut(Key::Asymmetric),
        ),
        ("CLUMPTYPE none", ParamFault::BadValue(Key::ClumpType)),
    ];
    for (text, first) in rows {
        assert!(rt; is_first(rt.alloc(), text.as_bytes(), first), "{text}");
    }
    Ok(())
}

#[test]
fn names_what_is_missing_and_what_does_not_fit_together(rt: HostRuntime) -> Result<(), Fail> {
    let rows = [
        ("", ParamFault::Missing(Key::PuName)),
        ("PUNAME \nPUVSFEATNAME a", ParamFault::Missing(Key::PuName)),
        (
            "PUNAME u\nPUVSFEATNAME a\nNUMREPS 1000\nNUMITNS 10000000",
            ParamFault::Missing(Key::FeatName),
        ),
        (
            "PUNAME u\nFEATNAME f\nPUVSFEATNAME",
            ParamFault::Missing(Key::PuVsFeatName),
        ),
        (
            "PUNAME u\nNUMREPS 101\nNUMITNS 10000000\nSTARTTEMP 1\nCOOLFAC 2",
            ParamFault::OutOfRange(Key::NumItns),
        ),
        (
            "PUNAME u\nSTARTTEMP 0\nCOOLFAC 1.000001",
            ParamFault::OutOfRange(Key::CoolFac),
        ),
        (
            "PUNAME u\nNUMREPS 21\nNUMITNS 10000000\nSAVETURNS 1",
            ParamFault::OutOfRange(Key::SaveTurns),
        ),
    ];
    for (text, first) in rows {
        assert!(rt; is_first(rt.alloc(), text.as_bytes(), first), "{text}");
    }
    for text in [
        "PUNAME u\nNUMREPS 100\nNUMITNS 10000000\nSTARTTEMP -1e9999\nCOOLFAC 2",
        "PUNAME u\nNUMREPS 20\nNUMITNS 10000000\nSAVETURNS 3\nCLUMPTYPE -0",
    ] {
        assert!(rt; fault(rt.alloc(), text.as_bytes()).is_none(), "{text}");
    }
    Ok(())
}

#[test]
fn reads_any_bytes(rt: HostRuntime) -> Result<(), Fail> {
    let text = b"VERSION \xFF\nPUNAME \xFF";
    assert!(rt; is_first(rt.alloc(), text, ParamFault::BadValue(Key::PuName)));
    let letters = vec![in rt.alloc(); b'p'; 1_000_000]?;
    assert!(rt; is_first(rt.alloc(), &letters, ParamFault::Missing(Key::PuName)));
    Ok(())
}

#[test]
fn names_keys_as_they_are_printed(rt: HostRuntime) -> Result<(), Fail> {
    assert_eq!(rt; key_name(Key::ZoneBoundCostName), "ZONEBOUNDCOSTNAME");
    assert_eq!(rt; key_name(Key::Asymmetric), "ASYMMETRICCONNECTIVITY");
    Ok(())
}

#[test]
fn keys_take_values_of_their_kinds(rt: HostRuntime) -> Result<(), Fail> {
    assert_eq!(rt; Key::PuName.kind(), KeyKind::Text);
    assert_eq!(rt; Key::SaveTurns.kind(), KeyKind::Whole);
    assert_eq!(rt; Key::CoolFac.kind(), KeyKind::Millionths);
    assert_eq!(rt; Key::RandSeed.kind(), KeyKind::Seed);
    assert_eq!(rt; Key::StartTemp.kind(), KeyKind::Start);
    assert_eq!(rt; Key::RunMode.kind(), KeyKind::Mode);
    assert_eq!(rt; Key::Asymmetric.kind(), KeyKind::Zero);
    Ok(())
}
