//! What a pass works with.
ghost use Rattle.std.specs.Prelude.{◌≡◌, ◌<◌, IfOk, IfSome};
ghost use Rattle.mz_delta.specs.Rooms.{FitsJudged, FitsReading};
ghost use Rattle.mz_store.specs.Pass.{AreFresh};
ghost use Rattle.store_tests.specs.Proposals.{AreOf, IsProposed, IsRunOf};

use mz_delta::{Judged, Reading, judge};
use mz_draw::Drawer;
use mz_model::Problem;
use mz_num::NoMemory;
use mz_store::{Pass, Store};
use std::alloc::Global;

/// What a pass read last, and what was judged by it.
#[derive(Drop)]
pub(super) struct Desk {
    pub(super) reading: Reading,
    pub(super) judged: Judged,
}

pub(super) fn make_desk(alloc: Global, problem: &Problem) -> Result<Desk, NoMemory>
    ensures { IfOk result (λ desk. FitsReading problem.now desk.reading × FitsJudged problem.now desk.judged) }
{
    let reading = Reading::room(alloc, problem)?;
    let judged = Judged::room(alloc, problem)?;
    Ok(Desk { reading, judged })
}

/// Looks at the unit of the pass's next draw, and judges the draw.
pub(super) fn propose(problem: &Problem, seed: u64, store: &Store, pass: &mut Pass, desk: &mut Desk)
    requires run { IsRunOf store.now problem.now seed }
    requires pass { (pass.old.store ≡ store.now.board) × (pass.old.seat < 60) }
    requires fits { FitsReading problem.now desk.now.reading × FitsJudged problem.now desk.now.judged }
    ensures pass { (pass.new.store ≡ store.now.board) × (pass.new.seat ≡ pass.old.seat) }
    ensures proposed { IsProposed store.now pass.new desk.exit.now.reading desk.exit.now.judged }
    ensures fits { FitsReading problem.now desk.exit.now.reading × FitsJudged problem.now desk.exit.now.judged }
{
    let number = pass.number();
    let seen = pass.seen();
    prove!(number <= u64::from(seen));
    let mut drawer = Drawer::new(seed, 1, pass.seat());
    drawer.skip(number);
    let draw = drawer.next(problem.free(), problem.counts());
    store.prefetch(draw.unit);
    store.look(pass, draw.unit, &mut desk.reading);
    judge(problem, &desk.reading, draw, &mut desk.judged);
}

/// The two passes of a store, in the order of their seats.
pub(super) fn two_passes(store: &Store, mut passes: Vec<Pass>) -> Option<(Pass, Pass)>
    requires { AreFresh store.now.board 2 passes.items }
    ensures { IfSome result (λ two. AreOf store.now two.0 two.1) }
{
    let _ = store;
    let second = passes.pop()?;
    let first = passes.pop()?;
    Some((first, second))
}
