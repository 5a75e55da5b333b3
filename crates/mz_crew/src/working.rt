//! One worker's loop.
ghost use Rattle.std.specs.Prelude.{◌≡◌, ◌<◌, Some, length};
ghost use Rattle.mz_model.specs.Parts.{unit_count};
ghost use Rattle.mz_model.specs.Zones.{free_units};
ghost use Rattle.mz_delta.specs.Judged.{IsRight};
ghost use Rattle.mz_delta.specs.Rooms.{FitsJudged, FitsReading};
ghost use Rattle.mz_store.specs.Commits.{Commits};
ghost use Rattle.mz_store.specs.Pass.{draw_of};
ghost use Rattle.mz_crew.specs.Ahead.{IsPast};
ghost use Rattle.mz_crew.specs.Works.{Proposes, Works, words_at};

use crate::ahead::Ahead;
use crate::gate::{Gate, Point};
use mz_delta::{Judged, Reading, judge};
use mz_draw::{Draw, Drawer};
use mz_history::Rules;
use mz_model::Problem;
use mz_store::{Pass, Store, TryVerdict, Verdict};
use std::sync::Wait;

/// Proposes the draws of the pass's seat one after another, each until it is decided, and ends once the journal has as
/// many entries as it may have. It makes draws ahead, and those that are left over are lost. A commit is tried once and
/// then waits for its turn. It takes no memory.
pub fn work<R: Wait, G: Gate>(
    rt: &R,
    problem: &Problem,
    rules: &Rules,
    store: &Store,
    pass: &mut Pass,
    drawer: &mut Drawer,
    reading: &mut Reading,
    judged: &mut Judged,
    gate: &G,
)
    // the store's problem, some unit of which is free, and a pass of the store
    requires problem { problem.now ≡ store.now.run.setting.parts }
    requires some_free { 0 < length (free_units problem.now) }
    requires store { pass.old.store ≡ store.now.board }
    // the drawer stands at the pass's next draw
    requires drawer { drawer.old ≡ words_at store.now.run pass.old pass.old.number }
    // the rooms fit
    requires reading { FitsReading problem.now reading.old }
    requires judged { FitsJudged problem.now judged.now }
    // the pass has seen the whole journal, and the drawer is past its next draw
    ensures works { Works store.now.run pass.old pass.new }
    ensures drawer { IsPast store.now.run pass.new drawer.new }
    // the rooms stay
    ensures reading { FitsReading problem.now reading.new }
    ensures judged { FitsJudged problem.now judged.exit.now }
{
    let _ = rules;
    let mut ahead = Ahead::none();
    let mut draw = ahead.next(problem, store, pass, drawer);
    loop {
        match propose(rt, problem, store, pass, draw, reading, judged, gate) {
            Verdict::Decided(_) => {
                gate.pass(pass.seat(), Point::Decided);
                draw = ahead.next(problem, store, pass, drawer);
            }
            Verdict::Again(_) => gate.pass(pass.seat(), Point::Overtaken),
            Verdict::Full => return,
        }
    }
}

/// Looks at the draw's unit, judges the draw by what was read, and commits it.
fn propose<R: Wait, G: Gate>(
    rt: &R,
    problem: &Problem,
    store: &Store,
    pass: &mut Pass,
    draw: Draw,
    reading: &mut Reading,
    judged: &mut Judged,
    gate: &G,
) -> Verdict
    // A pass of the store, and its next draw.
    requires problem { problem.now ≡ store.now.run.setting.parts }
    requires store { pass.old.store ≡ store.now.board }
    requires drawn { draw ≡ draw_of store.now.run pass.old }
    requires unit { draw.unit < unit_count problem.now }

    // The rooms fit.
    requires reading { FitsReading problem.now reading.old }
    requires judged { FitsJudged problem.now judged.now }

    // What comes of the draw.
    ensures proposes { Proposes store.now.run pass.old pass.new result }

    // The rooms stay.
    ensures reading { FitsReading problem.now reading.new }
    ensures judged { FitsJudged problem.now judged.exit.now }
{
    let seat = pass.seat();
    gate.pass(seat, Point::Look);
    store.look(pass, draw.unit, reading);
    gate.pass(seat, Point::Judge);
    judge(problem, reading, draw, judged);
    gate.pass(seat, Point::Commit);
    commit(rt, store, pass, reading, judged)
}

/// Commits by one try, and where another pass has the turn, waits for it.
fn commit<R: Wait>(
    rt: &R,
    store: &Store,
    pass: &mut Pass,
    reading: &Reading,
    judged: &Judged,
) -> Verdict
    requires store { pass.old.store ≡ store.now.board }
    requires last { pass.old.reading ≡ Some reading.now }
    requires right { IsRight store.now.run.setting.parts reading.now (draw_of store.now.run pass.old) judged.now }
    ensures { Commits store.now.run pass.old pass.new reading.now result }
{
    match store.try_commit(pass, reading, judged) {
        TryVerdict::Decided(receipt) => Verdict::Decided(receipt),
        TryVerdict::Again(position) => Verdict::Again(position),
        TryVerdict::Full => Verdict::Full,
        TryVerdict::Busy(_) => store.commit(rt, pass, reading, judged),
    }
}
