//! Passes meet, and a store closes.
ghost use Rattle.std.specs.Prelude.{◌≡◌, ◌≤◌, ℕ, length, max};
ghost use Rattle.std.specs.List.{All};
ghost use Rattle.mz_store.specs.Gathered.{AreGathered};
ghost use Rattle.mz_store.specs.Leaves.{AreAllOf, Closes, Meets};

use super::Store;
use crate::held::Held;
use crate::pass::Pass;
use mz_board::{Board, Chair};
use mz_state::Closed;

impl<'p> Store<'p> {
    /// Both passes have then seen what each of them had seen, and their readings are spent. It waits for nothing.
    pub fn meet(&self, pass: &mut Pass, other: Pass) -> Pass
        requires store { pass.old.store ≡ self.now.board }
        requires other { other.store ≡ self.now.board }
        ensures { Meets pass.old other pass.new result }
    {
        let mut other = other;
        let note = self.board.split(&mut pass.chair);
        let other_note = self.board.split(&mut other.chair);
        self.board.join(&mut pass.chair, other_note);
        self.board.join(&mut other.chair, note);
        self.board.count(&mut pass.chair);
        self.board.count(&mut other.chair);
        let reached = greater(pass.reached, other.reached);
        pass.reached = reached;
        pass.reading = None;
        other.reached = reached;
        other.reading = None;
        other
    }

    /// What the run leaves, once all passes are back. It takes no memory.
    pub fn close(self, passes: Vec<Pass>) -> Closed
        requires { AreAllOf self passes.items }
        ensures { Closes self.entry passes.items result.journal.items result.plan result.totals.items result.score }
    {
        let chairs = gather(&self.board, passes);
        let Store { board, .. } = self;
        let Held { kept } = board.close(chairs);
        Box::into_inner(kept).finish()
    }
}

/// The chairs of the passes, in the room that one of these has for them.
fn gather(board: &Board<Held>, passes: Vec<Pass>) -> Vec<Chair<Held>>
    requires here { All (λ pass. pass.store ≡ board.now) passes.items }
    requires some { 1 ≤ length passes.items }
    requires few { length passes.items ≤ board.now.seats }
    ensures { AreGathered board.now passes.items result.items }
{
    let _ = board;
    let mut passes = passes;
    let Some(last) = passes.pop() else {
        unreachable!()
    };
    let Pass {
        chair,
        room: mut chairs,
        ..
    } = last;
    chairs.push_reserved(chair);
    while let Some(pass) = passes.pop() {
        let Pass { chair, .. } = pass;
        chairs.push_reserved(chair);
    }
    chairs
}

/// The greater of two numbers.
fn greater(a: u32, b: u32) -> u32
    ensures { result ≡ max a b }
{
    if a < b { b } else { a }
}
