//! What an entry changes is stored in the published words.
ghost use Rattle.std.specs.Prelude.{◌≡◌, ◌+◌, ◌<◌, [], drop, length};
ghost use Rattle.mz_model.specs.Parts.{unit_count, zone_count};
ghost use Rattle.mz_model.specs.Targets.{touched_rows};
ghost use Rattle.mz_store.specs.Turns.{ShowsGains, move_writes, row_writes, with_owes};

use super::Store;
use crate::held::Held;
use mz_board::Chair;
use mz_delta::{Judged, Reading};

impl<'p> Store<'p> {
    /// Stores the judged unit's new zone and the totals that its move changes, where the move was accepted. An entry
    /// that changes nothing stores nothing.
    pub(super) fn store_changes(
        &self,
        chair: &mut Chair<Held>,
        reading: &Reading,
        judged: &Judged,
        accepted: bool,
    )
        // The chair is one of this store's.
        requires store { chair.old.lock ≡ self.now.board }

        // The judged move.
        requires unit { judged.now.unit < unit_count self.now.run.setting.parts }
        requires zones { (judged.now.old < zone_count self.now.run.setting.parts)
            × (judged.now.new < zone_count self.now.run.setting.parts) }
        requires totals { length judged.now.totals.items
            ≡ length (touched_rows self.now.run.setting.parts judged.now.unit) }
        requires gains { ShowsGains self.now.run.setting.parts reading.now judged.now }

        // What the chair owes before and after.
        requires owes { chair.old.post.owes ≡ move_writes self.now.run.setting.parts judged.now accepted }
        ensures { chair.new ≡ with_owes chair.old [] }
    {
        if accepted {
            self.board
                .store_item(chair, judged.unit, u64::from(judged.new));
            self.store_rows(chair, reading, judged);
        }
    }

    /// Stores the totals that the judged move changes.
    fn store_rows(&self, chair: &mut Chair<Held>, reading: &Reading, judged: &Judged)
        // The chair is one of this store's.
        requires store { chair.old.lock ≡ self.now.board }

        // The judged move.
        requires unit { judged.now.unit < unit_count self.now.run.setting.parts }
        requires zones { (judged.now.old < zone_count self.now.run.setting.parts)
            × (judged.now.new < zone_count self.now.run.setting.parts) }
        requires totals { length judged.now.totals.items
            ≡ length (touched_rows self.now.run.setting.parts judged.now.unit) }
        requires gains { ShowsGains self.now.run.setting.parts reading.now judged.now }

        // What the chair owes before and after.
        requires owes { chair.old.post.owes ≡ row_writes self.now.run.setting.parts judged.now.unit judged.now.old
            judged.now.new (touched_rows self.now.run.setting.parts judged.now.unit) judged.now.totals.items }
        ensures { chair.new ≡ with_owes chair.old [] }
    {
        for i in 0..self.problem.touched(judged.unit) {
            self.store_row(chair, reading, judged, i);
        }
    }

    /// Stores the total of one of the target rows that the judged unit touches, where another one was read before the
    /// move.
    fn store_row(&self, chair: &mut Chair<Held>, reading: &Reading, judged: &Judged, i: u32)
        // The chair is one of this store's.
        requires store { chair.old.lock ≡ self.now.board }

        // The judged move, and the place of the row.
        requires unit { judged.now.unit < unit_count self.now.run.setting.parts }
        requires zones { (judged.now.old < zone_count self.now.run.setting.parts)
            × (judged.now.new < zone_count self.now.run.setting.parts) }
        requires totals { length judged.now.totals.items
            ≡ length (touched_rows self.now.run.setting.parts judged.now.unit) }
        requires gains { ShowsGains self.now.run.setting.parts reading.now judged.now }
        requires place { i < length (touched_rows self.now.run.setting.parts judged.now.unit) }

        // What the chair owes before and after.
        requires owes { chair.old.post.owes ≡ row_writes self.now.run.setting.parts judged.now.unit judged.now.old
            judged.now.new (drop i (touched_rows self.now.run.setting.parts judged.now.unit))
            (drop i judged.now.totals.items) }
        ensures { chair.new ≡ with_owes chair.old (row_writes self.now.run.setting.parts judged.now.unit judged.now.old
            judged.now.new (drop (i + 1) (touched_rows self.now.run.setting.parts judged.now.unit))
            (drop (i + 1) judged.now.totals.items)) }
    {
        let read = reading.totals.as_slice()[i as usize];
        let moved = judged.totals.as_slice()[i as usize];
        if read != moved {
            let word = self.problem.units() + self.problem.touched_row(judged.unit, i);
            self.board.store_item(chair, word, moved);
        }
    }
}
