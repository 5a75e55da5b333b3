//! The score of a plan, summed over the whole plan.
ghost use Rattle.std.specs.Prelude.{◌≡◌, ◌*◌, ◌<◌, ◌≤◌, ◌^◌};
ghost use Rattle.std.specs.List.{sum_by};
ghost use Rattle.mz_model.specs.Parts.{unit_count, target_count};
ghost use Rattle.mz_num.specs.Places.{sum_below};
ghost use Rattle.mz_num.specs.Limits.{greatest_quantity, greatest_score};
ghost use Rattle.mz_model.specs.Plans.{IsLegalPlan};
ghost use Rattle.mz_model.specs.Scores.{cost_of_plan, outer_term, pair_term, penalty_of_plan, score_of_plan};
ghost use Rattle.mz_model.specs.Targets.{held_of, is_met, shortfall_of};

use crate::plan::Plan;
use crate::problem::Problem;
use mz_num::Mic6;

/// The parts of a plan's score and their sum, in ten-thousandths.
#[derive(Clone, Copy, Debug, PartialEq, Eq)]
pub struct Score {
    pub cost: u128,
    pub boundary: u128,
    pub penalty: u128,
    pub total: u128,
}

/// The score of a plan, in ten-thousandths: its cost, its boundary cost, and the penalties for what it
/// misses, as in Watts et al. 2009. Each term is rounded half up by itself, which is this project's profile.
pub fn evaluate(problem: &Problem, plan: &Plan) -> Score
    requires { IsLegalPlan problem.now plan.now }
    ensures score { result ≡ score_of_plan problem.now plan.now }
    ensures small { result.total ≤ greatest_score }
{
    let cost = cost(problem, plan);
    let boundary = pairs_boundary(problem, plan) + outer_boundary(problem, plan);
    let penalty = penalty(problem, plan);
    Score {
        cost,
        boundary,
        penalty,
        total: cost + boundary + penalty,
    }
}

fn cost(problem: &Problem, plan: &Plan) -> u128
    requires { IsLegalPlan problem.now plan.now }
    ensures cost { result ≡ cost_of_plan problem.now plan.now }
    ensures small { result ≤ 10 ^ 23 }
{
    let mut cost = 0;
    for unit in 0..problem.units() {
        cost += problem.cost_of(unit, plan.zone(unit)) as u128;
    }
    cost
}

fn pairs_boundary(problem: &Problem, plan: &Plan) -> u128
    requires { IsLegalPlan problem.now plan.now }
    ensures terms { result ≡ sum_by (pair_term problem.now plan.now) problem.now.edges }
    ensures small { result ≤ 10 ^ 24 }
{
    let mut boundary = 0;
    let edges = problem.edges();
    for edge in edges {
        boundary += problem.edge_term(edge.2, plan.zone(edge.0), plan.zone(edge.1)) as u128;
    }
    boundary
}

fn outer_boundary(problem: &Problem, plan: &Plan) -> u128
    requires { IsLegalPlan problem.now plan.now }
    ensures terms { result ≡ sum_below (unit_count problem.now) (outer_term problem.now plan.now) }
    ensures small { result ≤ 10 ^ 23 }
{
    let available = problem.available();
    let mut boundary = 0;
    for unit in 0..problem.units() {
        let zone = plan.zone(unit);
        boundary += problem.edge_term(problem.outer(unit), zone, available) as u128;
    }
    boundary
}

fn penalty(problem: &Problem, plan: &Plan) -> u128
    requires { IsLegalPlan problem.now plan.now }
    ensures penalty { result ≡ penalty_of_plan problem.now plan.now }
    ensures small { result ≤ 10 ^ 23 }
{
    let mut penalty = 0;
    for row in 0..problem.targets() {
        penalty += problem.penalty_term(row, held(problem, plan, row)) as u128;
    }
    penalty
}

/// What a plan holds for a target row, in ten-thousandths: the gains of all units in their zones, as in
/// Watts et al. 2009.
pub fn held(problem: &Problem, plan: &Plan, t: u32) -> u64
    requires legal { IsLegalPlan problem.now plan.now }
    requires row { t < target_count problem.now }
    ensures held { result ≡ held_of problem.now plan.now t }
    ensures small { result ≤ greatest_quantity }
{
    let mut held = 0;
    let holders = problem.holders(problem.target(t).feature);
    for (unit, amount) in holders {
        held += problem.gain_from(t, *amount, plan.zone(*unit));
    }
    held
}

/// How much is missing for a target row where so much is held, both in ten-thousandths: nothing where the
/// level is reached. This is the shortfall of Watts et al. 2009.
pub fn short(problem: &Problem, t: u32, held: u64) -> u64
    requires { t < target_count problem.now }
    ensures { result ≡ shortfall_of problem.now t held }
{
    problem.target(t).level.saturating_sub(held)
}

/// Whether what is held meets a level: whether it reaches the part of the level that `miss_level`
/// asks. This is the test of a target that is missed in Watts et al. 2009.
pub fn is_met(miss_level: Mic6, level: u64, held: u64) -> bool
    ensures { result ≡ is_met miss_level level held }
{
    held as u128 * 1_000_000 >= miss_level.0 as u128 * level as u128
}
