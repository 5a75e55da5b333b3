//! Looks, which wait for no turn.
ghost use Rattle.std.specs.Prelude.{◌≡◌, ◌+◌, ◌<◌, ◌≤◌, ◌^◌, ℕ, IsTrue, Some, None, length, map};
ghost use Rattle.std.specs.List.{All, zip};
ghost use Rattle.mz_num.specs.Limits.{greatest_quantity};
ghost use Rattle.mz_board.specs.Chair.{with_front, with_item};
ghost use Rattle.mz_model.specs.Boundary.{neighbours_of};
ghost use Rattle.mz_model.specs.Parts.{target_count, unit_count};
ghost use Rattle.mz_model.specs.Targets.{touched_rows};
ghost use Rattle.mz_model.specs.Zones.{is_allowed};
ghost use Rattle.mz_delta.specs.Reading.{neighbour_at};
ghost use Rattle.mz_delta.specs.Rooms.{FitsReading, greatest_degree, greatest_touched};
ghost use Rattle.mz_store.specs.Loads.{AreZonesAround, places_around, rows_of, with_items};
ghost use Rattle.mz_store.specs.Pass.{Looks};
ghost use Rattle.mz_store.specs.Store.{IsStore};

use super::Store;
use crate::held::Held;
use crate::pass::Pass;
use mz_board::Chair;
use mz_delta::Reading;
use mz_num::Filled;
use std::snapshot::Snapshot;

impl<'p> Store<'p> {
    /// Reads the unit for the pass, behind the published front: it waits for no turn and takes no memory. The reading is
    /// then the pass's last one, and for as long as it is, it stays right for the journal that a commit of the pass finds.
    pub fn look(&self, pass: &mut Pass, unit: u32, reading: &mut Reading)
        requires store { pass.old.store ≡ self.now.board }
        requires unit { unit < unit_count self.now.run.setting.parts }
        requires fits { FitsReading self.now.run.setting.parts reading.old }
        ensures looks { Looks self.now.run pass.old pass.new unit reading.new }
        ensures fits { FitsReading self.now.run.setting.parts reading.new }
    {
        reading.seat = pass.seat;
        reading.unit = unit;
        reading.front = self.load_front(&mut pass.chair);
        reading.zone = self.load_zone(&mut pass.chair, unit);
        self.load_neighbours(&mut pass.chair, unit, &mut reading.neighbours);
        self.load_totals(&mut pass.chair, unit, &mut reading.totals);
        pass.reached = reading.front;
        pass.reading = Some(Snapshot::of(reading));
    }

    /// The published front.
    fn load_front(&self, chair: &mut Chair<Held>) -> u32
        // The chair is one of this store's, without a turn.
        requires store { chair.old.lock ≡ self.now.board }
        requires idle { chair.old.taken ≡ None }

        // The front.
        ensures least { (chair.old.post.reached ≤ result) × (length chair.old.seen ≤ result) }
        ensures most { result ≤ self.now.run.limit }
        ensures valid { IsStore self.now }

        // The chair has loaded it.
        ensures now { chair.new ≡ with_front chair.old result }
    {
        self.board.load_front(chair) as u32
    }

    /// The zone of a unit.
    fn load_zone(&self, chair: &mut Chair<Held>, unit: u32) -> u8
        requires store { chair.old.lock ≡ self.now.board }
        requires front { (front : ℕ) × (chair.old.post.front ≡ Some front) }
        requires unit { unit < unit_count self.now.run.setting.parts }
        ensures allowed { IsTrue (is_allowed self.now.run.setting.parts unit result) }
        ensures now { chair.new ≡ with_item chair.old unit result }
    {
        self.board.load_item(chair, unit) as u8
    }

    /// What is held for a target row.
    fn load_total(&self, chair: &mut Chair<Held>, row: u32) -> u64
        requires store { chair.old.lock ≡ self.now.board }
        requires front { (front : ℕ) × (chair.old.post.front ≡ Some front) }
        requires row { row < target_count self.now.run.setting.parts }
        ensures small { result ≤ greatest_quantity }
        ensures now { chair.new ≡ with_item chair.old (unit_count self.now.run.setting.parts + row) result }
    {
        self.board.load_item(chair, self.problem.units() + row)
    }

    /// The zones of a unit's neighbours.
    fn load_neighbours(&self, chair: &mut Chair<Held>, unit: u32, zones: &mut Filled<u8>)
        // The chair is one of this store's, and has loaded a front.
        requires store { chair.old.lock ≡ self.now.board }
        requires front { (front : ℕ) × (chair.old.post.front ≡ Some front) }

        // The unit, and room for what is read.
        requires unit { unit < unit_count self.now.run.setting.parts }
        requires fits { greatest_degree self.now.run.setting.parts ≤ zones.old.room }

        // The zones, and the chair that has loaded them.
        ensures zones { AreZonesAround self.now.run.setting.parts unit zones.new.items }
        ensures now { chair.new ≡ with_items chair.old (zip (places_around self.now.run.setting.parts unit)
            zones.new.items) }
        ensures room { zones.old.room ≤ zones.new.room }
    {
        zones.clear();
        let problem = self.problem;
        for neighbour in problem.neighbours(unit) {
            zones.push(self.load_zone(chair, neighbour.unit));
        }
    }

    /// What is held for the target rows that a unit touches.
    fn load_totals(&self, chair: &mut Chair<Held>, unit: u32, totals: &mut Filled<u64>)
        // The chair is one of this store's, and has loaded a front.
        requires store { chair.old.lock ≡ self.now.board }
        requires front { (front : ℕ) × (chair.old.post.front ≡ Some front) }

        // The unit, and room for what is read.
        requires unit { unit < unit_count self.now.run.setting.parts }
        requires fits { greatest_touched self.now.run.setting.parts ≤ totals.old.room }

        // The totals, and the chair that has loaded them.
        ensures count { length totals.new.items ≡ length (touched_rows self.now.run.setting.parts unit) }
        ensures small { All (λ total. total ≤ greatest_quantity) totals.new.items }
        ensures now { chair.new ≡ with_items chair.old (zip (rows_of self.now.run.setting.parts unit)
            totals.new.items) }
        ensures room { totals.old.room ≤ totals.new.room }
    {
        totals.clear();
        let problem = self.problem;
        for touch in problem.touches(unit) {
            totals.push(self.load_total(chair, touch.row));
        }
    }
}
