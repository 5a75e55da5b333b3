//! Commits, by one try for the turn or not.
ghost use Rattle.std.specs.Prelude.{◌≡◌};
ghost use Rattle.store_tests.specs.Proposals.{IsProposed};

use super::desks::Desk;
use super::told::{Told, brief, brief_try};
use mz_store::{Pass, Store};
use std::sync::Wait;

/// How passes commit.
#[derive(Clone, Copy)]
pub(super) enum Way {
    /// They wait for the turn.
    Waiting,
    /// By one try for it.
    Trying,
}

/// Commits what the pass has proposed.
pub(super) fn commit<R: Wait>(rt: &R, way: Way, store: &Store, pass: &mut Pass, desk: &Desk) -> Told
    requires store { pass.old.store ≡ store.now.board }
    requires proposed { IsProposed store.now pass.old desk.now.reading desk.now.judged }
    ensures { (pass.new.store ≡ pass.old.store) × (pass.new.seat ≡ pass.old.seat) }
{
    match way {
        Way::Waiting => brief(store.commit(rt, pass, &desk.reading, &desk.judged)),
        Way::Trying => commit_at_once(store, pass, desk),
    }
}

/// Commits what the pass has proposed, by one try.
fn commit_at_once(store: &Store, pass: &mut Pass, desk: &Desk) -> Told
    requires store { pass.old.store ≡ store.now.board }
    requires proposed { IsProposed store.now pass.old desk.now.reading desk.now.judged }
    ensures { (pass.new.store ≡ pass.old.store) × (pass.new.seat ≡ pass.old.seat) }
{
    brief_try(store.try_commit(pass, &desk.reading, &desk.judged))
}
