//! The core and the kept state, played with the same events.
ghost use Rattle.std.specs.Prelude.{◌≡◌, IfOk};
ghost use Rattle.mz_delta.specs.Rooms.{FitsJudged, FitsReading};
ghost use Rattle.state_tests.specs.Game.{IsGame};

use super::decided::{decide, draw_of};
use mz_delta::{Judged, Reading, judge};
use mz_history::{Event, Reply, Rules};
use mz_model::Problem;
use mz_num::NoMemory;
use mz_state::Kept;
use std::alloc::Global;

/// What a seat has read, and by how much its move would change the score.
#[derive(Clone, Copy)]
pub(super) struct Seen {
    front: u32,
    unit: u32,
    change: i128,
}

/// What looks and moves are made in, and what each seat has seen.
#[derive(Drop)]
pub(super) struct Table {
    seen: Vec<Option<Seen>>,
    reading: Reading,
    judged: Judged,
}

impl Table {
    pub(super) fn open(alloc: Global, problem: &Problem) -> Result<Table, NoMemory>
        ensures reading { IfOk result (λ table. FitsReading problem.now table.reading) }
        ensures judged { IfOk result (λ table. FitsJudged problem.now table.judged) }
    {
        Ok(Table {
            seen: vec![in alloc; None; 60]?,
            reading: Reading::room(alloc, problem)?,
            judged: Judged::room(alloc, problem)?,
        })
    }

    /// What the seat saw last, which is then spent.
    fn spend(&mut self, seat: u8) -> Option<Seen>
        ensures reading { self.new.reading ≡ self.old.reading }
        ensures judged { self.new.judged ≡ self.old.judged }
    {
        match self.seen.get_mut(seat as usize) {
            Some(seen) => seen.take(),
            None => None,
        }
    }

    fn note(&mut self, seat: u8, seen: Seen)
        ensures reading { self.new.reading ≡ self.old.reading }
        ensures judged { self.new.judged ≡ self.old.judged }
    {
        if let Some(place) = self.seen.get_mut(seat as usize) {
            *place = Some(seen);
        }
    }
}

/// The seat looks behind the whole journal, and judges the move of its next draw.
fn look(
    problem: &Problem,
    rules: &Rules,
    seed: u64,
    kept: &Kept,
    seat: u8,
    table: &mut Table,
) -> Reply
    requires game { IsGame problem.now rules.now seed kept.now }
    requires reading { FitsReading problem.now table.old.reading }
    requires judged { FitsJudged problem.now table.old.judged }
    ensures reading { FitsReading problem.now table.new.reading }
    ensures judged { FitsJudged problem.now table.new.judged }
{
    if seat >= 60 {
        return Reply::Strange;
    }
    let number = kept.next_draw(seat);
    if number > 10_000_000 {
        return Reply::Strange;
    }
    let draw = draw_of(problem, seed, seat, number);
    kept.look(problem, seat, draw.unit, &mut table.reading);
    judge(problem, &table.reading, draw, &mut table.judged);
    let seen = Seen {
        front: table.reading.front,
        unit: draw.unit,
        change: table.judged.change,
    };
    table.note(seat, seen);
    Reply::Looked
}

/// The entry that overtook what was seen, if any did.
fn overtaking(
    problem: &Problem,
    kept: &Kept,
    seen: Seen,
    seat: u8,
    reading: &mut Reading,
) -> Option<u32>
    requires problem { problem.now ≡ kept.now.setting.parts }
    requires reading { FitsReading problem.now reading.old }
    ensures reading { FitsReading problem.now reading.new }
{
    if seen.unit >= problem.units() {
        return None;
    }
    kept.look(problem, seat, seen.unit, reading);
    reading.front = seen.front;
    kept.touched_since(problem, reading)
}

/// The seat commits what it saw; an entry whose change isn't the one that was judged then is strange.
fn commit(
    problem: &Problem,
    rules: &Rules,
    seed: u64,
    kept: &mut Kept,
    seat: u8,
    table: &mut Table,
) -> Reply
    requires game { IsGame problem.now rules.now seed kept.old }
    requires reading { FitsReading problem.now table.old.reading }
    requires judged { FitsJudged problem.now table.old.judged }
    ensures game { IsGame problem.now rules.now seed kept.new }
    ensures reading { FitsReading problem.now table.new.reading }
    ensures judged { FitsJudged problem.now table.new.judged }
{
    let Some(seen) = table.spend(seat) else {
        return Reply::Strange;
    };
    if kept.full() {
        return Reply::Full;
    }
    if let Some(position) = overtaking(problem, kept, seen, seat, &mut table.reading) {
        return Reply::Again(position);
    }
    decide_seen(problem, rules, seed, kept, seat, seen, table)
}

fn decide_seen(
    problem: &Problem,
    rules: &Rules,
    seed: u64,
    kept: &mut Kept,
    seat: u8,
    seen: Seen,
    table: &mut Table,
) -> Reply
    requires game { IsGame problem.now rules.now seed kept.old }
    requires reading { FitsReading problem.now table.old.reading }
    requires judged { FitsJudged problem.now table.old.judged }
    ensures game { IsGame problem.now rules.now seed kept.new }
    ensures reading { FitsReading problem.now table.new.reading }
    ensures judged { FitsJudged problem.now table.new.judged }
{
    if seat >= 60 {
        return Reply::Strange;
    }
    match decide(
        problem,
        rules,
        seed,
        kept,
        seat,
        &mut table.reading,
        &mut table.judged,
    ) {
        Some(entry) if entry.change == seen.change => Reply::Decided(entry),
        _ => Reply::Strange,
    }
}

/// What the kept state answers to an event. A look is always behind the whole journal.
pub(super) fn answer(
    problem: &Problem,
    rules: &Rules,
    seed: u64,
    kept: &mut Kept,
    event: Event,
    table: &mut Table,
) -> Reply
    requires game { IsGame problem.now rules.now seed kept.old }
    requires reading { FitsReading problem.now table.old.reading }
    requires judged { FitsJudged problem.now table.old.judged }
    ensures game { IsGame problem.now rules.now seed kept.new }
    ensures reading { FitsReading problem.now table.new.reading }
    ensures judged { FitsJudged problem.now table.new.judged }
{
    match event {
        Event::Look(seat, _) => look(problem, rules, seed, kept, seat, table),
        Event::Commit(seat) => commit(problem, rules, seed, kept, seat, table),
    }
}
