//! A caller of a store, who knows of it what its contracts say.
ghost use Rattle.std.specs.Prelude.{◌≡◌, Some};
ghost use Rattle.mz_delta.specs.Judged.{IsRight};
ghost use Rattle.mz_store.specs.Pass.{draw_of};
ghost use Rattle.store_tests.specs.Caller.{DecidesNext};

use mz_delta::{Judged, Reading};
use mz_num::NoMemory;
use mz_store::{Pass, Store, Verdict};
use std::sync::Wait;
use std::thread;
use std::thread::Threads;

/// Commits: what is decided is the next entry of the history that the pass had seen, or of a longer one.
pub fn commit_next<R: Wait>(
    rt: &R,
    store: &Store,
    pass: &mut Pass,
    reading: &Reading,
    judged: &Judged,
) -> Verdict
    requires store { pass.old.store ≡ store.now.board }
    requires last { pass.old.reading ≡ Some reading.now }
    requires right { IsRight store.now.run.setting.parts reading.now (draw_of store.now.run pass.old) judged.now }
    ensures { DecidesNext store.now.run pass.old result }
{
    store.commit(rt, pass, reading, judged)
}

/// Each pass goes to a thread of its own, which shares the store, and back.
pub fn visit_threads<R: Threads + Sync>(
    rt: &R,
    store: &Store,
    passes: Vec<Pass>,
) -> Result<Vec<Pass>, NoMemory> {
    let back = thread::map_vec(
        rt,
        passes,
        &|pass: Pass| -> Pass {
            stand_beside(store);
            pass
        },
    )?;
    Ok(back)
}

/// Does nothing with a store.
fn stand_beside(store: &Store) {
    let _ = store;
}
