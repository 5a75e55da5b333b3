//! What a look will need is brought near.
ghost use Rattle.std.specs.Prelude.{◌<◌};
ghost use Rattle.mz_model.specs.Parts.{unit_count};

use super::Store;

impl<'p> Store<'p> {
    /// Brings near what a look at the unit loads: its zone, its neighbours' zones, and the first of its target rows.
    /// It tells nothing and changes nothing.
    pub fn prefetch(&self, unit: u32)
        requires { unit < unit_count self.now.run.setting.parts }
    {
        self.prefetch_zone(unit);
        self.prefetch_first_row(unit);
        let problem = self.problem;
        for neighbour in problem.neighbours(unit) {
            self.prefetch_zone(neighbour.unit);
        }
    }

    /// Brings near the zone of a unit.
    fn prefetch_zone(&self, unit: u32)
        requires { unit < unit_count self.now.run.setting.parts }
    {
        self.board.prefetch(unit);
    }

    /// Brings near the first of the target rows that a unit touches.
    fn prefetch_first_row(&self, unit: u32)
        requires { unit < unit_count self.now.run.setting.parts }
    {
        if let Some(touch) = self.problem.touches(unit).first() {
            self.board.prefetch(self.problem.units() + touch.row);
        }
    }
}
