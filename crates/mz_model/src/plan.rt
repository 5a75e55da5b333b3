//! Plans: a zone for each unit.
ghost use Rattle.std.specs.Prelude.{◌≡◌, ◌<◌, IsTrue, IfOk, length, slice_index, slice_set};
ghost use Rattle.mz_model.specs.Parts.{unit_count};
ghost use Rattle.mz_model.specs.Plans.{IsLegalPlan, Judges};
ghost use Rattle.mz_model.specs.Zones.{is_allowed};

use crate::problem::Problem;
use mz_num::NoMemory;
use std::alloc::{AllocError, Global};
use std::marker::Model;

/// Why a list of zones is no plan.
#[derive(Clone, Copy, Debug, PartialEq, Eq)]
pub enum PlanFault {
    /// There is not one zone for each unit.
    Length,
    /// The first unit, by place, whose zone isn't allowed for it.
    NotAllowed(u32),
    NoMemory,
}

/// A zone for each unit, by place.
#[derive(Debug, Drop)]
pub struct Plan {
    zones: Vec<u8>,
}

impl Model for Plan {
    ghost use Rattle.std.specs.Prelude.{ℕ, List};

    ghost Value = { List ℕ };

    ghost view = { λ a. a.zones.items };
}

impl Plan {
    /// The plan of these zones, by unit, if each unit is given one that it may have.
    pub fn of(alloc: Global, problem: &Problem, zones: &[u8]) -> Result<Plan, PlanFault>
        ensures { Judges problem.now zones.now result }
    {
        if zones.len() != problem.units() as usize {
            return Err(PlanFault::Length);
        }
        for (unit, zone) in zones.iter().enumerate() {
            if !problem.is_allowed(unit as u32, *zone) {
                return Err(PlanFault::NotAllowed(unit as u32));
            }
        }
        match Vec::from_slice(alloc, zones) {
            Ok(zones) => Ok(Plan { zones }),
            Err(_) => Err(PlanFault::NoMemory),
        }
    }

    /// The zone of a unit.
    #[inline]
    pub fn zone(&self, unit: u32) -> u8
        requires { unit < length self.now }
        ensures { result ≡ slice_index self.now unit }
    {
        self.zones[unit as usize]
    }

    /// Gives a unit another of its allowed zones.
    pub fn put(&mut self, problem: &Problem, unit: u32, zone: u8)
        requires legal { IsLegalPlan problem.now self.old }
        requires in_range { unit < unit_count problem.now }
        requires allowed { IsTrue (is_allowed problem.now unit zone) }
        ensures changed { self.new ≡ slice_set self.old unit zone }
        ensures stays_legal { IsLegalPlan problem.now self.new }
    {
        let _ = problem;
        self.zones[unit as usize] = zone;
    }

    pub fn copy(&self, alloc: Global) -> Result<Plan, NoMemory>
        ensures { IfOk result (λ plan. plan ≡ self.now) }
    {
        let zones = Vec::from_slice(alloc, self.zones.as_slice())?;
        Ok(Plan { zones })
    }
}
