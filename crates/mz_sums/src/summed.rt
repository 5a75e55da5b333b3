//! How often each unit has each zone in the plans of several runs.
ghost use Rattle.std.specs.Prelude.{◌≡◌, ℕ, ◌+◌, ◌*◌, ◌<◌, ◌≤◌, ◌++◌, ◌∷◌, ◌==◌, List, [], IfOk, length, slice_index};
ghost use Rattle.std.specs.List.{All, count_by};
ghost use Rattle.mz_num.specs.Limits.{most_runs};
ghost use Rattle.mz_num.specs.Places.{list_below};
ghost use Rattle.mz_model.specs.Parts.{unit_count, zone_count};
ghost use Rattle.mz_model.specs.Plans.{IsLegalPlan};
ghost use Rattle.mz_sums.specs.Sums.{count_in, count_with, sums_of, with_plan};

use mz_model::{Plan, Problem};
use mz_num::NoMemory;
use std::alloc::Global;
use std::marker::Model;
use std::snapshot::Snapshot;

/// How many of the added plans give each unit each zone. At most 1,000 plans are added.
#[derive(Drop)]
pub struct Summed {
    problem: Snapshot<Problem>,
    units: u32,
    zones: u8,
    added: u32,
    /// How many plans give a unit a zone, at `unit * zones + zone`.
    counts: Vec<u16>,
}

impl Model for Summed {
    ghost use Rattle.mz_sums.specs.Sums.{AreSums, Sums};

    ghost Value = { Sums };

    ghost view = { λ s. record { parts = s.problem.value; added = s.added; counts = s.counts.items } };

    ghost invariant = { λ s.
        AreSums (record { parts = s.problem.value; added = s.added; counts = s.counts.items })
        s.units s.zones };
}

impl Summed {
    /// No plan is added yet.
    pub fn open(alloc: Global, problem: &Problem) -> Result<Summed, NoMemory>
        ensures { IfOk result (λ summed. summed ≡ sums_of problem.now []) }
    {
        let units = problem.units();
        let zones = problem.zones();
        let counts = vec![in alloc; 0; units as usize * zones as usize]?;
        Ok(Summed {
            problem: Snapshot::of(problem),
            units,
            zones,
            added: 0,
            counts,
        })
    }

    /// Adds a plan of the problem. No memory is taken.
    pub fn add(&mut self, plan: &Plan)
        requires few { self.old.added < most_runs }
        requires legal { IsLegalPlan self.old.parts plan.now }
        ensures changed { self.new ≡ with_plan self.old plan.now }
        ensures plans { (plans : List (List ℕ)) → self.old ≡ sums_of self.old.parts plans
            → self.new ≡ sums_of self.old.parts (plans ++ plan.now ∷ []) }
    {
        count_zones(&mut self.counts, plan, self.units, self.zones);
        self.added += 1;
    }

    /// How many of the added plans give the unit the zone.
    pub fn count(&self, unit: u32, zone: u8) -> u32
        requires unit_in_range { unit < unit_count self.now.parts }
        requires zone_in_range { zone < zone_count self.now.parts }
        ensures value { result ≡ count_in self.now unit zone }
        ensures plans { (plans : List (List ℕ)) → self.now ≡ sums_of self.now.parts plans
            → result ≡ count_by (λ plan. slice_index plan unit == zone) plans }
        ensures small { result ≤ self.now.added }
    {
        u32::from(self.counts[unit as usize * self.zones as usize + zone as usize])
    }
}

/// Counts the zone that a plan gives each unit.
fn count_zones(counts: &mut Vec<u16>, plan: &Plan, units: u32, zones: u8)
    requires places { length counts.old.items ≡ units * zones }
    requires whole { length plan.now ≡ units }
    requires zones_in_range { All (λ zone. zone < zones) plan.now }
    requires few { All (λ count. count < most_runs) counts.old.items }
    ensures { counts.new.items ≡ list_below (units * zones) (count_with zones plan.now counts.old.items) }
{
    for unit in 0..units {
        counts[unit as usize * zones as usize + plan.zone(unit) as usize] += 1;
    }
}
