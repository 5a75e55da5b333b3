//! What all entries of a run have in common.
use mz_history::Rules;
use mz_model::Problem;
use std::marker::Model;
use std::snapshot::Snapshot;

/// The problem, the rules, the random seed, the run and the number of seats. No value of it is made: it stands in
/// proofs alone.
pub(crate) struct Common {
    problem: Snapshot<Problem>,
    rules: Snapshot<Rules>,
    seed: u64,
    run: u32,
    seats: u8,
}

impl Model for Common {
    ghost use Rattle.mz_history.specs.Rules.{setting_with};
    ghost use Rattle.mz_store.specs.RunSetting.{RunSetting};

    ghost Value = { RunSetting };

    ghost view = { λ c. record {
      setting = setting_with c.problem.value c.rules.value c.seed c.run;
      limit = c.rules.value.limit;
      seats = c.seats;
    } };
}
