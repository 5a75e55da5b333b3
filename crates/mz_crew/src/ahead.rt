//! Draws that are made ahead, some at once: they don't depend on the plan.
ghost use Rattle.std.specs.Prelude.{◌≡◌, ◌+◌, ◌<◌, ◌∷◌, [], length};
ghost use Rattle.std.specs.List.{All};
ghost use Rattle.mz_model.specs.Parts.{unit_count};
ghost use Rattle.mz_model.specs.Zones.{free_units};
ghost use Rattle.mz_store.specs.Pass.{draw_of};
ghost use Rattle.mz_crew.specs.Ahead.{AreAhead, draws_at_once, draws_of};
ghost use Rattle.mz_crew.specs.Works.{words_at};

use mz_draw::{Draw, Drawer};
use mz_model::Problem;
use mz_store::{Pass, Store};
use std::marker::Model;

/// How many draws are made at once.
const AT_ONCE: usize = 16;

/// A seat's draws that are made and not yet proposed, in order.
#[derive(Drop)]
pub(crate) struct Ahead {
    draws: [Draw; AT_ONCE],
    /// How many of them were taken.
    taken: usize,
}

impl Model for Ahead {
    ghost use Rattle.std.specs.Prelude.{◌≡◌, ◌≤◌, List, drop, length};
    ghost use Rattle.mz_draw.specs.declared.draw.Draw.{Draw};
    ghost use Rattle.mz_crew.specs.Ahead.{draws_at_once};

    ghost Value = { List Draw };

    ghost view = { λ a. drop a.taken a.draws };

    ghost invariant = { λ a. (length a.draws ≡ draws_at_once) × (a.taken ≤ draws_at_once) };
}

impl Ahead {
    /// No draw yet.
    pub(crate) fn none() -> Ahead
        ensures { result ≡ [] }
    {
        let unused = Draw {
            number: 0,
            unit: 0,
            shift: 0,
            word: 0,
        };
        Ahead {
            draws: [unused; AT_ONCE],
            taken: AT_ONCE,
        }
    }

    /// The pass's next draw.
    pub(crate) fn next(
        &mut self,
        problem: &Problem,
        store: &Store,
        pass: &Pass,
        drawer: &mut Drawer,
    ) -> Draw
        // The store's problem, some unit of which is free.
        requires problem { problem.now ≡ store.now.run.setting.parts }
        requires some_free { 0 < length (free_units problem.now) }

        // The draws that are made, from the pass's next one on.
        requires ahead { AreAhead store.now.run pass.now pass.now.number self.old drawer.old }

        // The draw, and the ones behind it.
        ensures drawn { result ≡ draw_of store.now.run pass.now }
        ensures unit { result.unit < unit_count problem.now }
        ensures ahead { AreAhead store.now.run pass.now (pass.now.number + 1) self.new drawer.new }
        ensures few { length self.new < draws_at_once }
    {
        self.fill(problem, store, pass, drawer);
        self.take()
    }

    /// Makes the next draws at once where none is left.
    fn fill(&mut self, problem: &Problem, store: &Store, pass: &Pass, drawer: &mut Drawer)
        // The store's problem, some unit of which is free.
        requires problem { problem.now ≡ store.now.run.setting.parts }
        requires some_free { 0 < length (free_units problem.now) }

        // The draws that are made, from the pass's next one on: at least one is then there.
        requires ahead { AreAhead store.now.run pass.now pass.now.number self.old drawer.old }
        ensures ahead { AreAhead store.now.run pass.now pass.now.number self.new drawer.new }
        ensures some { 0 < length self.new }
    {
        if self.taken == AT_ONCE {
            self.draws = next_draws(problem, store, pass, drawer);
            self.taken = 0;
            prefetch(store, &self.draws);
        }
    }

    /// Takes the first of the draws.
    fn take(&mut self) -> Draw
        requires { 0 < length self.old }
        ensures { self.old ≡ result ∷ self.new }
    {
        let draw = self.draws[self.taken];
        self.taken += 1;
        draw
    }
}

/// The next draws of the pass's seat.
fn next_draws(problem: &Problem, store: &Store, pass: &Pass, drawer: &mut Drawer) -> [Draw; AT_ONCE]
    // The store's problem, some unit of which is free.
    requires problem { problem.now ≡ store.now.run.setting.parts }
    requires some_free { 0 < length (free_units problem.now) }

    // The drawer before and after the draws.
    requires drawer { drawer.old ≡ words_at store.now.run pass.now pass.now.number }
    ensures draws { result ≡ draws_of store.now.run pass.now pass.now.number draws_at_once }
    ensures units { All (λ draw. draw.unit < unit_count problem.now) result }
    ensures drawer { drawer.new ≡ words_at store.now.run pass.now (pass.now.number + draws_at_once) }
{
    let _ = store;
    let number = pass.number();
    let seen = pass.seen();
    prove!(number <= u64::from(seen));
    let free = problem.free();
    let counts = problem.counts();
    let mut draws = [drawer.next(free, counts); AT_ONCE];
    for place in 1..AT_ONCE {
        draws[place] = drawer.next(free, counts);
    }
    draws
}

/// Brings near what the looks at the drawn units will need: many loads at once take little longer than one.
fn prefetch(store: &Store, draws: &[Draw])
    requires { All (λ draw. draw.unit < unit_count store.now.run.setting.parts) draws.now }
{
    for draw in draws {
        store.prefetch(draw.unit);
    }
}
