//! The worked cases of two passes on one thread.
ghost use Rattle.mz_delta.specs.Rooms.{FitsJudged, FitsReading};
ghost use Rattle.mz_history.specs.Rules.{IsRules};
ghost use Rattle.store_tests.specs.Proposals.{AreOf, IsRunOf};

use super::commits::{Way, commit};
use super::desks::{Desk, make_desk, propose, two_passes};
use super::problems::{Ground, build, rules};
use super::told::{Told, are_told};
use super::{COLD, FAR, NEAR, WARM};
use mz_history::Rules;
use mz_model::Problem;
use mz_num::NoMemory;
use mz_store::{Pass, Store};
use std::alloc::Global;
use std::sync::Wait;
use std::test::Fail;

/// What the second pass is answered, and then the first one, which had proposed before; it proposes and commits anew.
pub(super) fn in_turn<R: Wait>(
    rt: &R,
    problem: &Problem,
    seed: u64,
    store: &Store,
    way: Way,
    a: &mut Pass,
    b: &mut Pass,
    first: &mut Desk,
    second: &mut Desk,
) -> [Told; 3]
    requires run { IsRunOf store.now problem.now seed }
    requires passes { AreOf store.now a.old b.old }
    requires first { FitsReading problem.now first.now.reading × FitsJudged problem.now first.now.judged }
    requires second { FitsReading problem.now second.now.reading × FitsJudged problem.now second.now.judged }
    ensures { AreOf store.now a.new b.new }
{
    propose(problem, seed, store, a, first);
    propose(problem, seed, store, b, second);
    let other = commit(rt, way, store, b, second);
    let own = commit(rt, way, store, a, first);
    propose(problem, seed, store, a, first);
    let later = commit(rt, way, store, a, first);
    [other, own, later]
}

/// The second pass commits twice before the first one commits what it had proposed.
fn twice_before<R: Wait>(
    rt: &R,
    problem: &Problem,
    seed: u64,
    store: &Store,
    way: Way,
    a: &mut Pass,
    b: &mut Pass,
    first: &mut Desk,
    second: &mut Desk,
) -> [Told; 3]
    requires run { IsRunOf store.now problem.now seed }
    requires passes { AreOf store.now a.old b.old }
    requires first { FitsReading problem.now first.now.reading × FitsJudged problem.now first.now.judged }
    requires second { FitsReading problem.now second.now.reading × FitsJudged problem.now second.now.judged }
{
    propose(problem, seed, store, a, first);
    propose(problem, seed, store, b, second);
    let other = commit(rt, way, store, b, second);
    propose(problem, seed, store, b, second);
    let again = commit(rt, way, store, b, second);
    let own = commit(rt, way, store, a, first);
    [other, again, own]
}

/// The second pass commits, the first one proposes, the second one commits again, and then the first one.
fn between<R: Wait>(
    rt: &R,
    problem: &Problem,
    seed: u64,
    store: &Store,
    way: Way,
    a: &mut Pass,
    b: &mut Pass,
    first: &mut Desk,
    second: &mut Desk,
) -> [Told; 3]
    requires run { IsRunOf store.now problem.now seed }
    requires passes { AreOf store.now a.old b.old }
    requires first { FitsReading problem.now first.now.reading × FitsJudged problem.now first.now.judged }
    requires second { FitsReading problem.now second.now.reading × FitsJudged problem.now second.now.judged }
{
    propose(problem, seed, store, b, second);
    let other = commit(rt, way, store, b, second);
    propose(problem, seed, store, a, first);
    propose(problem, seed, store, b, second);
    let again = commit(rt, way, store, b, second);
    let own = commit(rt, way, store, a, first);
    [other, again, own]
}

/// The second pass commits what the first one hasn't seen, and they meet in the place of the first one's commit: what
/// the two have seen then, what the first one reads anew, which is its front and the zone of its unit's first neighbour,
/// and what its commit is answered.
fn meeting<R: Wait>(
    rt: &R,
    problem: &Problem,
    seed: u64,
    store: &Store,
    way: Way,
    mut a: Pass,
    mut b: Pass,
    first: &mut Desk,
    second: &mut Desk,
) -> [Told; 3]
    requires run { IsRunOf store.now problem.now seed }
    requires passes { AreOf store.now a b }
    requires first { FitsReading problem.now first.now.reading × FitsJudged problem.now first.now.judged }
    requires second { FitsReading problem.now second.now.reading × FitsJudged problem.now second.now.judged }
{
    propose(problem, seed, store, &mut a, first);
    propose(problem, seed, store, &mut b, second);
    commit(rt, way, store, &mut b, second);
    let b = store.meet(&mut a, b);
    let seen = Told::Seen(a.seen(), b.seen());
    propose(problem, seed, store, &mut a, first);
    let read = Told::Read(
        first.reading.front,
        first.reading.neighbours.as_slice().first().copied(),
    );
    let own = commit(rt, way, store, &mut a, first);
    [seen, read, own]
}

/// Which of these is played.
#[derive(Clone, Copy)]
enum Play {
    InTurn,
    TwiceBefore,
    Between,
    Meeting,
}

/// What is played: the case, its problem, its random seed, how many entries its journal may have, and its temperature.
#[derive(Clone, Copy)]
struct Case {
    play: Play,
    ground: Ground,
    seed: u64,
    limit: u32,
    temperature: u128,
}

/// Whether the two passes of a store are answered as told, by commits that wait and by tries.
fn is_played<R: Wait>(
    rt: &R,
    alloc: Global,
    case: Case,
    wanted: [Told; 3],
) -> Result<bool, NoMemory> {
    let waiting = is_played_by(rt, alloc, case, Way::Waiting, wanted)?;
    let trying = is_played_by(rt, alloc, case, Way::Trying, wanted)?;
    Ok(waiting && trying)
}

fn is_played_by<R: Wait>(
    rt: &R,
    alloc: Global,
    case: Case,
    way: Way,
    wanted: [Told; 3],
) -> Result<bool, NoMemory> {
    let problem = build(alloc, case.ground)?;
    play_by_rules(rt, alloc, &problem, case, way, wanted)
}

fn play_by_rules<R: Wait>(
    rt: &R,
    alloc: Global,
    problem: &Problem,
    case: Case,
    way: Way,
    wanted: [Told; 3],
) -> Result<bool, NoMemory> {
    if case.limit > 100 || case.temperature < COLD || case.temperature > WARM {
        return Ok(false);
    }
    let rules = rules(alloc, case.limit, case.temperature)?;
    play_in_store(rt, alloc, problem, &rules, case, way, wanted)
}

fn play_in_store<R: Wait>(
    rt: &R,
    alloc: Global,
    problem: &Problem,
    rules: &Rules,
    case: Case,
    way: Way,
    wanted: [Told; 3],
) -> Result<bool, NoMemory>
    requires rules { IsRules rules.now }
{
    if problem.free().is_empty() {
        return Ok(false);
    }
    let (store, passes) = Store::open(alloc, problem, rules, case.seed, 1, 2)?;
    match two_passes(&store, passes) {
        Some((a, b)) => play_at_desks(
            rt, alloc, problem, case.seed, &store, case.play, way, a, b, wanted,
        ),
        None => Ok(false),
    }
}

fn play_at_desks<R: Wait>(
    rt: &R,
    alloc: Global,
    problem: &Problem,
    seed: u64,
    store: &Store,
    play: Play,
    way: Way,
    a: Pass,
    b: Pass,
    wanted: [Told; 3],
) -> Result<bool, NoMemory>
    requires run { IsRunOf store.now problem.now seed }
    requires passes { AreOf store.now a b }
{
    let mut first = make_desk(alloc, problem)?;
    let mut second = make_desk(alloc, problem)?;
    let found = answers(
        rt,
        problem,
        seed,
        store,
        play,
        way,
        a,
        b,
        &mut first,
        &mut second,
    );
    Ok(are_told(found, wanted))
}

/// What the passes are answered.
fn answers<R: Wait>(
    rt: &R,
    problem: &Problem,
    seed: u64,
    store: &Store,
    play: Play,
    way: Way,
    mut a: Pass,
    mut b: Pass,
    first: &mut Desk,
    second: &mut Desk,
) -> [Told; 3]
    requires run { IsRunOf store.now problem.now seed }
    requires passes { AreOf store.now a b }
    requires first { FitsReading problem.now first.now.reading × FitsJudged problem.now first.now.judged }
    requires second { FitsReading problem.now second.now.reading × FitsJudged problem.now second.now.judged }
{
    match play {
        Play::InTurn => in_turn(rt, problem, seed, store, way, &mut a, &mut b, first, second),
        Play::TwiceBefore => twice_before(
            rt, problem, seed, store, way, &mut a, &mut b, first, second,
        ),
        Play::Between => between(rt, problem, seed, store, way, &mut a, &mut b, first, second),
        Play::Meeting => meeting(rt, problem, seed, store, way, a, b, first, second),
    }
}

/// A case on the three units with their feature, at the temperature at which small rises are taken.
fn warm(play: Play, seed: u64, limit: u32) -> Case {
    Case {
        play,
        ground: Ground::Featured,
        seed,
        limit,
        temperature: WARM,
    }
}

#[test]
fn a_neighbour_overtakes(rt: HostRuntime) -> Result<(), Fail> {
    let told = [
        Told::Decided(0, 0, true),
        Told::Again(0),
        Told::Decided(1, 0, true),
    ];
    assert!(rt; is_played(&rt, rt.alloc(), warm(Play::InTurn, NEAR, 100), told)?);
    Ok(())
}

#[test]
fn a_target_row_overtakes(rt: HostRuntime) -> Result<(), Fail> {
    let told = [
        Told::Decided(0, 0, true),
        Told::Again(0),
        Told::Decided(1, 0, true),
    ];
    assert!(rt; is_played(&rt, rt.alloc(), warm(Play::InTurn, FAR, 100), told)?);
    Ok(())
}

#[test]
fn without_features_units_alone_overtake(rt: HostRuntime) -> Result<(), Fail> {
    let told = [Told::Placed(0, 0), Told::Placed(1, 0), Told::Placed(2, 1)];
    let case = Case {
        play: Play::InTurn,
        ground: Ground::Bare,
        seed: FAR,
        limit: 100,
        temperature: WARM,
    };
    assert!(rt; is_played(&rt, rt.alloc(), case, told)?);
    Ok(())
}

#[test]
fn a_journal_of_one_entry_is_full(rt: HostRuntime) -> Result<(), Fail> {
    let told = [Told::Decided(0, 0, true), Told::Full, Told::Full];
    assert!(rt; is_played(&rt, rt.alloc(), warm(Play::InTurn, NEAR, 1), told)?);
    Ok(())
}

#[test]
fn a_move_there_and_back_overtakes(rt: HostRuntime) -> Result<(), Fail> {
    let told = [
        Told::Decided(0, 0, true),
        Told::Decided(1, 1, true),
        Told::Again(1),
    ];
    assert!(rt; is_played(&rt, rt.alloc(), warm(Play::TwiceBefore, NEAR, 100), told)?);
    Ok(())
}

#[test]
fn a_refused_entry_overtakes_nothing(rt: HostRuntime) -> Result<(), Fail> {
    let told = [
        Told::Decided(0, 0, true),
        Told::Decided(1, 1, false),
        Told::Decided(2, 0, true),
    ];
    let case = Case {
        play: Play::Between,
        ground: Ground::Featured,
        seed: NEAR,
        limit: 100,
        temperature: COLD,
    };
    assert!(rt; is_played(&rt, rt.alloc(), case, told)?);
    Ok(())
}

#[test]
fn passes_that_meet_have_seen_the_same(rt: HostRuntime) -> Result<(), Fail> {
    let told = [
        Told::Seen(1, 1),
        Told::Read(1, Some(1)),
        Told::Decided(1, 0, true),
    ];
    assert!(rt; is_played(&rt, rt.alloc(), warm(Play::Meeting, NEAR, 100), told)?);
    Ok(())
}
