//! The keys of a parameter file.
ghost use Rattle.std.specs.Prelude.{◌≡◌};
ghost use Rattle.mz_params.specs.KeyName.{name_of, key_of, is_named as is_named_as, same_key};
ghost use Rattle.mz_params.specs.declared.key.Key.{Key};

/// A keyword of the parameter file, as the manual of Marxan with Zones 1.0.1 names it, in this
/// project's order. Three of them (`ClumpType`, `CostThresh`, `Asymmetric`) ask for what this
/// project leaves out, and are read for their one accepted value, 0.
#[derive(Clone, Copy, Debug, PartialEq, Eq)]
pub enum Key {
    InputDir,
    OutputDir,
    ScenName,
    PuName,
    FeatName,
    PuVsFeatName,
    BoundName,
    ZonesName,
    CostsName,
    ZoneCostName,
    ZoneBoundCostName,
    ZoneContribName,
    ZoneTargetName,
    PuLockName,
    PuZoneName,
    AvailableZone,
    Blm,
    Prop,
    MissLevel,
    RandSeed,
    NumReps,
    NumItns,
    StartTemp,
    CoolFac,
    NumTemp,
    RunMode,
    SaveRun,
    SaveBest,
    SaveSummary,
    SaveTargMet,
    SaveSumSoln,
    SaveTurns,
    ClumpType,
    CostThresh,
    Asymmetric,
}

/// All keys, in their order.
const KEYS: [Key; 35] = [
    Key::InputDir,
    Key::OutputDir,
    Key::ScenName,
    Key::PuName,
    Key::FeatName,
    Key::PuVsFeatName,
    Key::BoundName,
    Key::ZonesName,
    Key::CostsName,
    Key::ZoneCostName,
    Key::ZoneBoundCostName,
    Key::ZoneContribName,
    Key::ZoneTargetName,
    Key::PuLockName,
    Key::PuZoneName,
    Key::AvailableZone,
    Key::Blm,
    Key::Prop,
    Key::MissLevel,
    Key::RandSeed,
    Key::NumReps,
    Key::NumItns,
    Key::StartTemp,
    Key::CoolFac,
    Key::NumTemp,
    Key::RunMode,
    Key::SaveRun,
    Key::SaveBest,
    Key::SaveSummary,
    Key::SaveTargMet,
    Key::SaveSumSoln,
    Key::SaveTurns,
    Key::ClumpType,
    Key::CostThresh,
    Key::Asymmetric,
];

impl Key {
    fn name(self) -> &'static str
        ensures { result.now ≡ name_of self }
    {
        match self {
            Key::InputDir => "INPUTDIR",
            Key::OutputDir => "OUTPUTDIR",
            Key::ScenName => "SCENNAME",
            Key::PuName => "PUNAME",
            Key::FeatName => "FEATNAME",
            Key::PuVsFeatName => "PUVSFEATNAME",
            Key::BoundName => "BOUNDNAME",
            Key::ZonesName => "ZONESNAME",
            Key::CostsName => "COSTSNAME",
            Key::ZoneCostName => "ZONECOSTNAME",
            Key::ZoneBoundCostName => "ZONEBOUNDCOSTNAME",
            Key::ZoneContribName => "ZONECONTRIBNAME",
            Key::ZoneTargetName => "ZONETARGETNAME",
            Key::PuLockName => "PULOCKNAME",
            Key::PuZoneName => "PUZONENAME",
            Key::AvailableZone => "AVAILABLEZONE",
            Key::Blm => "BLM",
            Key::Prop => "PROP",
            Key::MissLevel => "MISSLEVEL",
            Key::RandSeed => "RANDSEED",
            Key::NumReps => "NUMREPS",
            Key::NumItns => "NUMITNS",
            Key::StartTemp => "STARTTEMP",
            Key::CoolFac => "COOLFAC",
            Key::NumTemp => "NUMTEMP",
            Key::RunMode => "RUNMODE",
            Key::SaveRun => "SAVERUN",
            Key::SaveBest => "SAVEBEST",
            Key::SaveSummary => "SAVESUMMARY",
            Key::SaveTargMet => "SAVETARGMET",
            Key::SaveSumSoln => "SAVESUMSOLN",
            Key::SaveTurns => "SAVETURNS",
            Key::ClumpType => "CLUMPTYPE",
            Key::CostThresh => "COSTTHRESH",
            Key::Asymmetric => "ASYMMETRICCONNECTIVITY",
        }
    }
}

/// The key as it stands in a parameter file and in messages. No two keys share one.
pub fn key_name(key: Key) -> &'static str
    ensures name { result.now ≡ name_of key }
    ensures own { (other : Key) → name_of other ≡ result.now → other ≡ key }
{
    key.name()
}

/// The key that a word names, in capitals or not.
#[tactic(auto, unfolding(crate::specs::KeyName::key_of))]
pub(crate) fn find_key(word: &[u8]) -> Option<Key>
    ensures { result ≡ key_of word.now }
{
    KEYS.iter().copied().find(|key| is_named(*key, word))
}

fn is_named(key: Key, word: &[u8]) -> bool
    ensures { result ≡ is_named_as word.now key }
{
    key.name().as_bytes().eq_ignore_ascii_case(word)
}

/// Whether two keys are one.
pub(crate) fn is_same(a: Key, b: Key) -> bool
    ensures { result ≡ same_key a b }
{
    a == b
}
