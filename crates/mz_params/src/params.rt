//! What a parameter file says.
use crate::fault::ParamFault;
use crate::file::read_lines;
use crate::given::given_params;
use crate::key::Key;
use mz_num::limits::MILLION;
use mz_num::{Mic6, Ten4, Text};
use std::alloc::Global;

/// The proposals of all runs together.
const MOST_PROPOSALS_OF_ALL: u64 = 1_000_000_000;
/// The turns that are kept, of all runs together.
const MOST_KEPT_TURNS: u64 = 200_000_000;

/// The parameters of a run: the accepted keys of a parameter file, with this project's defaults
/// for keys that aren't given. The keys are those of the manual of Marxan with Zones 1.0.1.
#[derive(Debug, Drop)]
pub struct Params {
    /// INPUTDIR: the folder of the input files, empty where the names stand alone.
    pub input_dir: Text,
    /// OUTPUTDIR: the folder of the output files, empty where the names stand alone.
    pub output_dir: Text,
    /// SCENNAME: the front of each output file's name; `output` where not given.
    pub scen: Text,
    /// PUNAME: the file of planning units and their costs. It must be given.
    pub units: Text,
    /// FEATNAME: the file of features, with their targets and penalty factors. It comes together with `amounts`.
    pub features: Option<Text>,
    /// PUVSFEATNAME: the file of amounts of each feature in each planning unit. It comes together with `features`.
    pub amounts: Option<Text>,
    /// BOUNDNAME: the file of boundary lengths between planning units.
    pub bounds: Option<Text>,
    /// ZONESNAME: the file of zones; without it there are an available and a reserved zone.
    pub zones: Option<Text>,
    /// COSTSNAME: the file of costs; without it there is one.
    pub costs: Option<Text>,
    /// ZONECOSTNAME: the file of cost multipliers by zone.
    pub zone_costs: Option<Text>,
    /// ZONEBOUNDCOSTNAME: the file of boundary costs between zones.
    pub zone_bounds: Option<Text>,
    /// ZONECONTRIBNAME: the file of fractions that a zone contributes to a feature.
    pub contribs: Option<Text>,
    /// ZONETARGETNAME: the file of targets of features in single zones.
    pub zone_targets: Option<Text>,
    /// PULOCKNAME: the file of planning units that are locked to a zone.
    pub locks: Option<Text>,
    /// PUZONENAME: the file of zones that planning units are limited to.
    pub zone_sets: Option<Text>,
    /// AVAILABLEZONE: the id of the zone of units that are left as they are; 1 where not given.
    pub available: u32,
    /// BLM: the boundary length modifier, in millionths; 0 where not given.
    pub blm: Mic6,
    /// PROP: the share of free planning units that start in a drawn zone, in millionths, at most 1; 0 where not given.
    pub prop: Mic6,
    /// MISSLEVEL: the share of a target from which on it counts as met, in millionths, at most 1; 1 where not given.
    pub miss_level: Mic6,
    /// RANDSEED: the random seed; none where it is negative or not given, and then the clock's.
    pub seed: Option<u32>,
    /// NUMREPS: the number of runs, 1 to 1000; 1 where not given.
    pub reps: u32,
    /// NUMITNS: the number of annealing proposals of each run, at most 10,000,000; 0 where not given.
    pub iterations: u32,
    /// STARTTEMP: the temperature that annealing starts at, in ten-thousandths of a score unit; none where it is
    /// negative or not given, and then annealing finds its start and its cooling by itself.
    pub start: Option<Ten4>,
    /// COOLFAC: the factor by which each step of cooling multiplies the temperature, in millionths, at most 1
    /// where a start is given; 1 where not given.
    pub cool: Mic6,
    /// NUMTEMP: the number of temperatures of each run, 1 to 1,000,000; 1 where not given.
    pub levels: u32,
    /// RUNMODE: what each run does. 1 is annealing and then iterative improvement, 4 improvement alone,
    /// 6 annealing alone; 1 where not given.
    pub mode: u8,
    /// SAVERUN: the plan of each run. This and each save value below is 0 for no file, 1 for the
    /// ending `.dat`, 2 for `.txt`, 3 for `.csv`; 0 where not given.
    pub save_run: u8,
    /// SAVEBEST: the plan of the best run.
    pub save_best: u8,
    /// SAVESUMMARY: one line for each run.
    pub save_summary: u8,
    /// SAVETARGMET: the amounts held and missed of each target, of each run and of the best.
    pub save_missing: u8,
    /// SAVESUMSOLN: how often each planning unit had each zone.
    pub save_summed: u8,
    /// SAVETURNS: the order in which workers took their turns in each run, which is this project's own key.
    pub save_turns: u8,
}

impl Params {
    ghost use Rattle.std.specs.Prelude.{◌≡◌, IfOk};
    ghost use Rattle.mz_params.specs.ParamFile.{Answers, IsAccepted, params_from, missing_fault, limit_fault};

    /// The parameters of a whole parameter file, or its first fault: of the lines in order, then of
    /// files that are needed and not named, then of limits on several keys.
    pub fn read(alloc: Global, bytes: &[u8]) -> Result<Params, ParamFault>
        ensures answer { Answers result (params_from bytes.now) }
        ensures accepted { IfOk result IsAccepted }
    {
        let lines = read_lines(alloc, bytes)?;
        let params = given_params(alloc, &lines)?;
        match params.missing().or(params.limit()) {
            Some(fault) => Err(fault),
            None => Ok(params),
        }
    }

    /// The first file that is needed and isn't named.
    fn missing(&self) -> Option<ParamFault>
        ensures { result ≡ missing_fault self.now }
    {
        if self.units.as_str().is_empty() {
            return Some(ParamFault::Missing(Key::PuName));
        }
        match (&self.features, &self.amounts) {
            (None, Some(_)) => Some(ParamFault::Missing(Key::FeatName)),
            (Some(_), None) => Some(ParamFault::Missing(Key::PuVsFeatName)),
            _ => None,
        }
    }

    /// The first limit on several keys that is passed.
    fn limit(&self) -> Option<ParamFault>
        ensures { result ≡ limit_fault self.now }
    {
        let proposals = u64::from(self.reps) * u64::from(self.iterations);
        if proposals > MOST_PROPOSALS_OF_ALL {
            return Some(ParamFault::OutOfRange(Key::NumItns));
        }
        if self.start.is_some() && self.cool.0 > MILLION {
            return Some(ParamFault::OutOfRange(Key::CoolFac));
        }
        if self.save_turns != 0 && proposals > MOST_KEPT_TURNS {
            return Some(ParamFault::OutOfRange(Key::SaveTurns));
        }
        None
    }
}
