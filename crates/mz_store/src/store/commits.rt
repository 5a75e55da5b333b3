//! Commits: what was judged by a reading is decided in a turn, where nothing that was read has changed since.
ghost use Rattle.std.specs.Prelude.{◌≡◌, ◌<◌, ◌++◌, ◌∷◌, [], List, Some, None, length};
ghost use Rattle.mz_store.specs.declared.told.Told.{Told};
ghost use Rattle.mz_board.specs.Chair.{Reads, with_entry, without_turn};
ghost use Rattle.mz_model.specs.Parts.{unit_count};
ghost use Rattle.mz_cool.specs.Acceptance.{AreStepsAbove};
ghost use Rattle.mz_delta.specs.Judged.{IsRight};
ghost use Rattle.mz_history.specs.Core.{entry_of_seat, next_draw, seats_of};
ghost use Rattle.mz_history.specs.Replay.{turns_of};
ghost use Rattle.mz_state.specs.Kept.{IsKept};
ghost use Rattle.mz_state.specs.NextMove.{IsNextMove};
ghost use Rattle.mz_store.specs.Commits.{Commits, Tries};
ghost use Rattle.mz_store.specs.Looks.{IsLoaded};
ghost use Rattle.mz_store.specs.Pass.{draw_of};
ghost use Rattle.mz_store.specs.RunSetting.{run_of};
ghost use Rattle.mz_store.specs.Told.{told_all, writes};
ghost use Rattle.mz_store.specs.Turns.{Decides, HasTurn, ShowsGains};
ghost use Rattle.mz_store.specs.Verdict.{added, try_of};

use super::Store;
use crate::held::Held;
use crate::pass::Pass;
use crate::verdict::{TryVerdict, Verdict};
use mz_board::Chair;
use mz_delta::{Judged, Reading};
use mz_state::Receipt;
use std::sync::Wait;

/// What a turn came to: its verdict, and then the journal's length and the number of the seat's next draw.
#[derive(Clone, Copy)]
pub(crate) struct Turn {
    pub(crate) verdict: Verdict,
    pub(crate) length: u32,
    pub(crate) number: u64,
}

impl<'p> Store<'p> {
    /// Commits what was judged by the pass's last reading for its next draw, and waits for as long as another pass has
    /// the turn. It takes no memory.
    pub fn commit<R: Wait>(
        &self,
        rt: &R,
        pass: &mut Pass,
        reading: &Reading,
        judged: &Judged,
    ) -> Verdict
        requires store { pass.old.store ≡ self.now.board }
        requires last { pass.old.reading ≡ Some reading.now }
        requires right { IsRight self.now.run.setting.parts reading.now (draw_of self.now.run pass.old) judged.now }
        ensures { Commits self.now.run pass.old pass.new reading.now result }
    {
        let steps = self.rules.stairs.steps_above(judged.word);
        let held = self.board.take(rt, &mut pass.chair);
        let turn = self.turn(&mut pass.chair, held, reading, judged, steps);
        pass.number = turn.number;
        pass.reached = turn.length;
        pass.reading = None;
        turn.verdict
    }

    /// Commits by one try for the turn, and waits for nothing.
    pub fn try_commit(&self, pass: &mut Pass, reading: &Reading, judged: &Judged) -> TryVerdict
        requires store { pass.old.store ≡ self.now.board }
        requires last { pass.old.reading ≡ Some reading.now }
        requires right { IsRight self.now.run.setting.parts reading.now (draw_of self.now.run pass.old) judged.now }
        ensures { Tries self.now.run pass.old pass.new reading.now result }
    {
        let steps = self.rules.stairs.steps_above(judged.word);
        match self.board.try_take(&mut pass.chair) {
            Ok(held) => {
                let turn = self.turn(&mut pass.chair, held, reading, judged, steps);
                pass.number = turn.number;
                pass.reached = turn.length;
                pass.reading = None;
                at_once(turn.verdict)
            }
            Err(seat) => TryVerdict::Busy(seat),
        }
    }

    /// The verdict on what was judged by the reading, where the chair has taken the state; it is put back. The steps
    /// above the draw's word were counted before the turn, so that there is no division in it.
    fn turn(
        &self,
        chair: &mut Chair<Held>,
        held: Held,
        reading: &Reading,
        judged: &Judged,
        steps: u16,
    ) -> Turn
        // The chair has the turn, with the state.
        requires store { chair.old.lock ≡ self.now.board }
        requires setting { chair.old.lock.setting ≡ Some (run_of held.kept.value) }
        requires turn { HasTurn chair.old (told_all held.kept.value.setting held.kept.value.journal) }

        // What was read and judged.
        requires reads { Reads writes chair.old.lock.opening chair.old.post
            (told_all held.kept.value.setting held.kept.value.journal) }
        requires loaded { IsLoaded self.now.run.setting.parts chair.old.number chair.old.post reading.now }
        requires seat { chair.old.number < self.now.run.seats }
        requires right { IsRight self.now.run.setting.parts reading.now (next_draw self.now.run.setting.parts
            self.now.run.setting.seed self.now.run.setting.run held.kept.value.journal chair.old.number) judged.now }

        // The steps above the draw's word.
        requires steps { AreStepsAbove judged.now.word steps }

        // The verdict, and what it leaves.
        ensures { Decides self.now.run chair.old chair.new
            (told_all held.kept.value.setting (held.kept.value.journal ++ added result.verdict))
            held.kept.value reading.now result }
    {
        let mut held = held;
        if held.kept.length() == self.rules.limit {
            return self.end_turn(chair, held, judged.seat, Verdict::Full);
        }
        if let Some(position) = held.kept.touched_since(self.problem, reading) {
            return self.end_turn(chair, held, judged.seat, Verdict::Again(position));
        }
        let receipt = self.add_entry(chair, &mut held, reading, judged, steps);
        self.end_turn(chair, held, judged.seat, Verdict::Decided(receipt))
    }

    /// Appends the entry of the judged move, and stores what it changes.
    fn add_entry(
        &self,
        chair: &mut Chair<Held>,
        held: &mut Held,
        reading: &Reading,
        judged: &Judged,
        steps: u16,
    ) -> Receipt
        // The chair has the turn, with the state.
        requires store { chair.old.lock ≡ self.now.board }
        requires setting { chair.old.lock.setting ≡ Some (run_of held.old.kept.value) }
        requires turn { HasTurn chair.old (told_all held.old.kept.value.setting held.old.kept.value.journal) }
        requires kept { IsKept held.old.kept.value }

        // Room for the entry, and the move of the seat's next draw.
        requires not_full { length held.old.kept.value.journal < held.old.kept.value.limit }
        requires seat { (judged.now.seat ≡ chair.old.number) × (judged.now.seat < held.old.kept.value.seats) }
        requires unit { judged.now.unit < unit_count held.old.kept.value.setting.parts }
        requires next { IsNextMove held.old.kept.value judged.now }
        requires gains { ShowsGains held.old.kept.value.setting.parts reading.now judged.now }
        requires steps { AreStepsAbove judged.now.word steps }

        // The entry.
        ensures position { result.position ≡ length held.old.kept.value.journal }
        ensures entry { result.entry ≡ entry_of_seat held.old.kept.value.setting held.old.kept.value.journal
            judged.now.seat }

        // The state and the chair with it.
        ensures kept { held.new.kept.value ≡ record held.old.kept.value {
          journal = held.old.kept.value.journal ++ result.entry ∷ [];
        } }
        ensures chair { chair.new ≡ with_entry chair.old (told_all held.old.kept.value.setting
            (held.old.kept.value.journal ++ result.entry ∷ [])) [] }
    {
        let receipt = held.kept.apply_on(self.problem, self.rules, judged, steps);
        self.board.append(chair, held);
        self.store_changes(chair, reading, judged, receipt.entry.accepted);
        receipt
    }

    /// Puts the state back.
    fn end_turn(&self, chair: &mut Chair<Held>, held: Held, seat: u8, verdict: Verdict) -> Turn
        // The chair has the turn, owes nothing, and has seen the state's journal.
        requires store { chair.old.lock ≡ self.now.board }
        requires setting { chair.old.lock.setting ≡ Some (run_of held.kept.value) }
        requires taken { (list : List Told) × (chair.old.taken ≡ Some list) }
        requires paid { chair.old.post.owes ≡ [] }
        requires seen { chair.old.seen ≡ told_all held.kept.value.setting held.kept.value.journal }
        requires seat { seat < held.kept.value.seats }

        // What the turn came to.
        ensures verdict { result.verdict ≡ verdict }
        ensures length { result.length ≡ length held.kept.value.journal }
        ensures number { result.number ≡ turns_of seat (seats_of held.kept.value.journal) }

        // The state is put back.
        ensures kept { IsKept held.kept.value }
        ensures chair { chair.new ≡ without_turn chair.old }
    {
        let length = held.kept.length();
        let number = held.kept.next_draw(seat);
        self.board.put_back(chair, held);
        Turn {
            verdict,
            length,
            number,
        }
    }
}

/// The verdict of a try that found the turn free.
fn at_once(verdict: Verdict) -> TryVerdict
    ensures { result ≡ try_of verdict }
{
    match verdict {
        Verdict::Decided(receipt) => TryVerdict::Decided(receipt),
        Verdict::Again(position) => TryVerdict::Again(position),
        Verdict::Full => TryVerdict::Full,
    }
}
