//! The core: events of workers on one journal, one after another.
ghost use Rattle.std.specs.Prelude.{◌≡◌, ◌<◌, ◌≤◌, ◌&&◌, ◌++◌, ◌∷◌, [], ℕ, IfOk, length, nat_le, slice_get};
ghost use Rattle.mz_model.specs.Parts.{unit_count};
ghost use Rattle.mz_model.specs.Zones.{free_units};
ghost use Rattle.mz_num.specs.Places.{list_below};
ghost use Rattle.mz_num.specs.Limits.{most_proposals, most_runs, most_workers};
ghost use Rattle.mz_history.specs.Core.{commit, core_step, entry_of_seat, is_in_sight, look, new_seat, next_draw, reading_of, seats_of, spent};
ghost use Rattle.mz_history.specs.declared.event.Event.TheVariants.{Commit};
ghost use Rattle.mz_history.specs.declared.event.Reply.TheVariants.{Again};
ghost use Rattle.mz_history.specs.History.{IsSound};
ghost use Rattle.mz_history.specs.Overtaken.{IsOvertakenCommit};
ghost use Rattle.mz_history.specs.Replay.{turns_of};
ghost use Rattle.mz_history.specs.Rules.{IsRules, setting_with};
ghost use Rattle.mz_history.specs.World.{world_of};

use crate::decision::decide;
use crate::entry::Entry;
use crate::event::{Event, Reply};
use crate::overtaking::overtaking_entry;
use crate::rules::Rules;
use crate::seat::{SeatReading, SeatState};
use crate::starting_plan::start;
use mz_draw::{Draw, Drawer};
use mz_model::{Plan, Problem, Score, evaluate};
use mz_num::NoMemory;
use std::alloc::Global;
use std::marker::Model;
use std::snapshot::Snapshot;

/// One journal, and what each of up to 60 seats has seen and read. It is the reference for the
/// quicker state of running workers: it looks for an overtaking entry in the journal itself, and
/// sums both scores of a move anew.
#[derive(Drop)]
pub struct World {
    problem: Snapshot<Problem>,
    rules: Snapshot<Rules>,
    seed: u64,
    run: u32,
    journal: Vec<Entry>,
    seats: Vec<SeatState>,
    plan: Plan,
    score: Score,
}

impl Model for World {
    ghost use Rattle.std.specs.Prelude.{vec_capacity};
    ghost use Rattle.mz_history.specs.Rules.{setting_with};
    ghost use Rattle.mz_history.specs.World.{IsWorld, WorldState, world_of};

    ghost Value = { WorldState };

    ghost view = { λ w. world_of (setting_with w.problem.value w.rules.value w.seed w.run) w.rules.value.limit
        w.journal.items w.seats.items };

    ghost invariant = { λ w. IsWorld (world_of (setting_with w.problem.value w.rules.value w.seed w.run)
        w.rules.value.limit w.journal.items w.seats.items) w.plan w.score (vec_capacity w.journal) };
}

impl World {
    /// An empty journal with room for all entries, and seats that have seen and read nothing.
    pub fn open(
        alloc: Global,
        problem: &Problem,
        rules: &Rules,
        seed: u64,
        run: u32,
        seats: u8,
    ) -> Result<World, NoMemory>
        requires rules { IsRules rules.now }
        requires runs { run ≤ most_runs }
        requires some_free { 0 < length (free_units problem.now) }
        requires workers { seats ≤ most_workers }
        ensures { IfOk result (λ world. world ≡ world_of (setting_with problem.now rules.now seed run) rules.now.limit
            [] (list_below seats (λ _. new_seat))) }
    {
        let plan = start(alloc, problem, rules.prop, seed, run)?;
        let score = evaluate(problem, &plan);
        let journal = Vec::with_capacity(alloc, rules.limit as usize)?;
        let seats = new_seats(alloc, seats)?;
        Ok(World {
            problem: Snapshot::of(problem),
            rules: Snapshot::of(rules),
            seed,
            run,
            journal,
            seats,
            plan,
            score,
        })
    }

    /// The entries so far, in order.
    pub fn journal(&self) -> &[Entry]
        ensures entries { result.now ≡ self.now.core.journal }
        ensures sound { IsSound self.now }
    {
        self.journal.as_slice()
    }

    /// What the event is answered, and what it leaves. No memory is taken.
    pub fn step(&mut self, problem: &Problem, rules: &Rules, event: Event) -> Reply
        // The world's own problem and rules.
        requires problem { problem.now ≡ self.old.setting.parts }
        requires schedule { rules.now.schedule ≡ self.old.setting.cooling }
        requires limit { rules.now.limit ≡ self.old.limit }

        // The answer, and the core after it.
        ensures reply { result ≡ (core_step self.old.setting self.old.limit self.old.core event).0 }
        ensures core { self.new.core ≡ (core_step self.old.setting self.old.limit self.old.core event).1 }
        ensures setting { (self.new.setting ≡ self.old.setting) × (self.new.limit ≡ self.old.limit) }

        // What Again names.
        ensures overtaken { (seat position : ℕ) → event ≡ Commit seat → result ≡ Again position
            → IsOvertakenCommit self.old.setting self.old.core seat position }
    {
        match event {
            Event::Look(seat, front) => self.look(problem, seat, front),
            Event::Commit(seat) => self.commit(problem, rules, seat),
        }
    }

    fn look(&mut self, problem: &Problem, seat: u8, front: u32) -> Reply
        requires problem { problem.now ≡ self.old.setting.parts }
        ensures reply { result ≡ (look self.old.setting self.old.core seat front).0 }
        ensures core { self.new.core ≡ (look self.old.setting self.old.core seat front).1 }
        ensures setting { (self.new.setting ≡ self.old.setting) × (self.new.limit ≡ self.old.limit) }
    {
        if !may_look(self.seats.as_slice(), self.journal.len(), seat, front) {
            return Reply::Strange;
        }
        let unit = next_draw(problem, self.journal.as_slice(), self.seed, self.run, seat).unit;
        let reading = Some(SeatReading { front, unit });
        self.seats[seat as usize] = SeatState {
            seen: front,
            reading,
        };
        Reply::Looked
    }

    fn commit(&mut self, problem: &Problem, rules: &Rules, seat: u8) -> Reply
        // The world's own problem and rules.
        requires problem { problem.now ≡ self.old.setting.parts }
        requires schedule { rules.now.schedule ≡ self.old.setting.cooling }
        requires limit { rules.now.limit ≡ self.old.limit }

        // The answer, and the core after it.
        ensures reply { result ≡ (commit self.old.setting self.old.limit self.old.core seat).0 }
        ensures core { self.new.core ≡ (commit self.old.setting self.old.limit self.old.core seat).1 }
        ensures setting { (self.new.setting ≡ self.old.setting) × (self.new.limit ≡ self.old.limit) }
    {
        let Some(reading) = reading_of(self.seats.as_slice(), seat) else {
            return Reply::Strange;
        };
        if self.journal.len() as u32 == rules.limit {
            self.spend(seat);
            return Reply::Full;
        }
        let journal = self.journal.as_slice();
        match overtaking_entry(problem, journal, reading.front, reading.unit) {
            Some(position) => {
                self.spend(seat);
                Reply::Again(position)
            }
            None => Reply::Decided(self.add(problem, rules, seat)),
        }
    }

    /// The seat has seen the whole journal, and its reading is spent.
    fn spend(&mut self, seat: u8)
        requires { seat < length self.old.core.seats }
        ensures { self.new ≡ record self.old { core = spent self.old.core seat } }
    {
        self.seats[seat as usize] = SeatState {
            seen: self.journal.len() as u32,
            reading: None,
        };
    }

    /// Decides the seat's next draw.
    fn add(&mut self, problem: &Problem, rules: &Rules, seat: u8) -> Entry
        // The world's own problem and rules.
        requires problem { problem.now ≡ self.old.setting.parts }
        requires schedule { rules.now.schedule ≡ self.old.setting.cooling }

        // The seat, and room for an entry.
        requires seat { seat < length self.old.core.seats }
        requires not_full { length self.old.core.journal < self.old.limit }

        // The entry, and the core after it.
        ensures entry { result ≡ entry_of_seat self.old.setting self.old.core.journal seat }
        ensures now { self.new ≡ record self.old {
          core = spent (record self.old.core { journal = self.old.core.journal ++ result ∷ [] }) seat;
        } }
    {
        let length = self.journal.len() as u32;
        let draw = next_draw(problem, self.journal.as_slice(), self.seed, self.run, seat);
        let entry = decide(
            problem,
            rules,
            &mut self.plan,
            &mut self.score,
            length,
            seat,
            draw,
        );
        self.journal.push_reserved(entry);
        self.seats[seat as usize] = SeatState {
            seen: length + 1,
            reading: None,
        };
        entry
    }
}

/// Seats that have seen and read nothing.
fn new_seats(alloc: Global, count: u8) -> Result<Vec<SeatState>, NoMemory>
    ensures { IfOk result (λ seats. seats.items ≡ list_below count (λ _. new_seat)) }
{
    let mut seats = Vec::with_capacity(alloc, count as usize)?;
    for _ in 0..count {
        seats.push(SeatState {
            seen: 0,
            reading: None,
        })?;
    }
    Ok(seats)
}

/// Whether a seat that is there has seen no more than the front, and the front lies within the
/// journal.
fn may_look(seats: &[SeatState], length: usize, seat: u8, front: u32) -> bool
    ensures { result ≡ is_in_sight length front (slice_get seats.now seat) }
{
    match seats.get(seat as usize) {
        Some(state) => is_between(front as usize, state.seen as usize, length),
        None => false,
    }
}

fn is_between(front: usize, least: usize, most: usize) -> bool
    ensures { result ≡ (nat_le least front && nat_le front most) }
{
    least <= front && front <= most
}

/// The reading of a seat, if the seat is there and has one.
fn reading_of(seats: &[SeatState], seat: u8) -> Option<SeatReading>
    ensures { result ≡ reading_of (slice_get seats.now seat) }
{
    match seats.get(seat as usize) {
        Some(state) => state.reading,
        None => None,
    }
}

/// The seat's next draw: its first that stands in no entry.
fn next_draw(problem: &Problem, journal: &[Entry], seed: u64, run: u32, seat: u8) -> Draw
    // The run, the seat, and what there is to draw from.
    requires runs { run ≤ most_runs }
    requires seats { seat < most_workers }
    requires some_free { 0 < length (free_units problem.now) }
    requires few { length journal.now ≤ most_proposals }

    // The draw.
    ensures draw { result ≡ next_draw problem.now seed run journal.now seat }
    ensures in_range { result.unit < unit_count problem.now }
{
    let mut drawer = Drawer::new(seed, run, seat);
    drawer.skip(turns_of(journal, seat));
    drawer.next(problem.free(), problem.counts())
}

/// How many of the entries are the seat's.
fn turns_of(journal: &[Entry], seat: u8) -> u64
    ensures turns { result ≡ turns_of seat (seats_of journal.now) }
    ensures few { result ≤ length journal.now }
{
    let mut turns = 0;
    for entry in journal {
        if entry.seat == seat {
            turns += 1;
        }
    }
    turns
}
