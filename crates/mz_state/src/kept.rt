//! The state of a run: a journal, and what follows from it.
ghost use Rattle.std.specs.Prelude.{◌≡◌, ◌<◌, ◌≤◌, ◌==◌, ◌++◌, ◌∷◌, [], IfOk, length};
ghost use Rattle.mz_num.specs.Limits.{most_runs, most_workers};
ghost use Rattle.mz_model.specs.Parts.{unit_count};
ghost use Rattle.mz_cool.specs.Acceptance.{AreStepsAbove};
ghost use Rattle.mz_delta.specs.Reading.{IsWellFormed};
ghost use Rattle.mz_delta.specs.Rooms.{FitsReading};
ghost use Rattle.mz_history.specs.Core.{entry_of_seat, seats_of};
ghost use Rattle.mz_history.specs.Replay.{turns_of};
ghost use Rattle.mz_history.specs.Rules.{IsRules, setting_with};
ghost use Rattle.mz_history.specs.Verdict.{overtaking_entry};
ghost use Rattle.mz_state.specs.Closed.{IsClosed};
ghost use Rattle.mz_state.specs.Kept.{IsKept};
ghost use Rattle.mz_state.specs.Looks.{IsLook};
ghost use Rattle.mz_state.specs.NextMove.{IsNextMove};

use crate::closed::Closed;
use crate::receipt::Receipt;
use crate::standing::Standing;
use crate::temperature::level_after;
use crate::versions::position_past;
use mz_cool::{Level, accepts_on};
use mz_delta::{Judged, Reading, read_plan};
use mz_history::{Entry, Rules, start};
use mz_model::Problem;
use mz_num::NoMemory;
use std::alloc::Global;
use std::marker::Model;
use std::snapshot::Snapshot;

/// A journal with all that workers ask of it: its plan, what the plan holds and scores, when each item was
/// last changed, and which draw of each seat is next. All memory is taken at the opening.
#[derive(Drop)]
pub struct Kept {
    problem: Snapshot<Problem>,
    rules: Snapshot<Rules>,
    seed: u64,
    run: u32,
    /// How many entries the journal may have.
    limit: u32,
    journal: Vec<Entry>,
    /// The number of each seat's next draw.
    draws: Vec<u64>,
    standing: Standing,
    /// The level of the next entry.
    level: Level,
}

impl Model for Kept {
    ghost use Rattle.std.specs.Prelude.{length, vec_capacity};
    ghost use Rattle.mz_history.specs.Rules.{setting_with};
    ghost use Rattle.mz_state.specs.Kept.{Keeps, KeptState, KnowsLevel};

    ghost Value = { KeptState };

    ghost view = { λ k. record {
      setting = setting_with k.problem.value k.rules.value k.seed k.run;
      limit = k.limit;
      seats = length k.draws.items;
      journal = k.journal.items;
    } };

    ghost invariant = { λ k. Keeps (record {
      setting = setting_with k.problem.value k.rules.value k.seed k.run;
      limit = k.limit;
      seats = length k.draws.items;
      journal = k.journal.items;
    })
        k.draws.items k.standing.plan k.standing.totals.items k.standing.score
        k.standing.units.items k.standing.rows.items k.standing.last (vec_capacity k.journal)
        × KnowsLevel (setting_with k.problem.value k.rules.value k.seed k.run).cooling k.limit (length k.journal.items) k.level };
}

impl Kept {
    /// An empty journal with room for all entries, and the starting plan.
    pub fn open(
        alloc: Global,
        problem: &Problem,
        rules: &Rules,
        seed: u64,
        run: u32,
        seats: u8,
    ) -> Result<Kept, NoMemory>
        requires rules { IsRules rules.now }
        requires runs { run ≤ most_runs }
        requires workers { seats ≤ most_workers }
        ensures opened { IfOk result (λ kept. kept ≡ record {
          setting = setting_with problem.now rules.now seed run;
          limit = rules.now.limit;
          seats = seats;
          journal = [];
        }) }
        ensures kept { IfOk result IsKept }
    {
        let plan = start(alloc, problem, rules.prop, seed, run)?;
        let standing = Standing::of(alloc, problem, plan)?;
        let journal = Vec::with_capacity(alloc, rules.limit as usize)?;
        let draws = vec![in alloc; 0; seats as usize]?;
        let level = level_after(Level::OVER, &rules.schedule, rules.limit, 0);
        Ok(Kept {
            problem: Snapshot::of(problem),
            rules: Snapshot::of(rules),
            seed,
            run,
            limit: rules.limit,
            journal,
            draws,
            standing,
            level,
        })
    }

    /// How many entries the journal has.
    #[inline]
    pub fn length(&self) -> u32
        ensures count { result ≡ length self.now.journal }
        ensures kept { IsKept self.now }
    {
        self.journal.len() as u32
    }

    /// Whether the journal has as many entries as it may have.
    #[inline]
    pub fn full(&self) -> bool
        ensures { result ≡ (length self.now.journal == self.now.limit) }
    {
        self.journal.len() as u32 == self.limit
    }

    /// The number of the seat's next draw.
    #[inline]
    pub fn next_draw(&self, seat: u8) -> u64
        requires { seat < self.now.seats }
        ensures { result ≡ turns_of seat (seats_of self.now.journal) }
    {
        self.draws[seat as usize]
    }

    /// Reads the unit of the journal's plan, for the seat. No memory is taken.
    pub fn look(&self, problem: &Problem, seat: u8, unit: u32, reading: &mut Reading)
        requires problem { problem.now ≡ self.now.setting.parts }
        requires unit { unit < unit_count problem.now }
        requires fits { FitsReading problem.now reading.old }
        ensures looks { IsLook self.now seat unit reading.new }
        ensures fits { FitsReading problem.now reading.new }
    {
        read_plan(
            problem,
            &self.standing.plan,
            self.standing.totals.as_slice(),
            unit,
            reading,
        );
        reading.seat = seat;
        reading.front = self.length();
    }

    /// The last accepted entry, at the reading's front or later, that changed an item of its unit: no search
    /// in the journal.
    pub fn touched_since(&self, problem: &Problem, reading: &Reading) -> Option<u32>
        requires problem { problem.now ≡ self.now.setting.parts }
        requires well_formed { IsWellFormed problem.now reading.now }
        ensures { result ≡ overtaking_entry self.now.setting.parts self.now.journal reading.now.front reading.now.unit }
    {
        if self.standing.last <= reading.front {
            return None;
        }
        position_past(
            reading.front,
            self.standing.version_around(problem, reading.unit),
        )
    }

    /// Decides the seat's next draw, as it was judged: the entry is appended, and where it is accepted its move
    /// is made. This costs the moved unit's target rows. No memory is taken.
    pub fn apply(&mut self, problem: &Problem, rules: &Rules, judged: &Judged) -> Receipt
        // The state's own problem and rules.
        requires problem { problem.now ≡ self.old.setting.parts }
        requires schedule { rules.now.schedule ≡ self.old.setting.cooling }
        requires limit { rules.now.limit ≡ self.old.limit }

        // Room for the entry, and the move of the seat's next draw.
        requires not_full { length self.old.journal < self.old.limit }
        requires seat { judged.now.seat < self.old.seats }
        requires unit { judged.now.unit < unit_count problem.now }
        requires next { IsNextMove self.old judged.now }

        // The entry, and the state with it.
        ensures position { result.position ≡ length self.old.journal }
        ensures entry { result.entry ≡ entry_of_seat self.old.setting self.old.journal judged.now.seat }
        ensures kept { self.new ≡ record self.old { journal = self.old.journal ++ result.entry ∷ [] } }
    {
        let steps = rules.stairs.steps_above(judged.word);
        self.apply_on(problem, rules, judged, steps)
    }

    /// Decides as `apply` does, where it is known how many steps of the staircase stand above the draw's word:
    /// they can be counted before the state is at hand, and no division is left to make.
    pub fn apply_on(
        &mut self,
        problem: &Problem,
        rules: &Rules,
        judged: &Judged,
        steps: u16,
    ) -> Receipt
        // The state's own problem and rules.
        requires problem { problem.now ≡ self.old.setting.parts }
        requires schedule { rules.now.schedule ≡ self.old.setting.cooling }
        requires limit { rules.now.limit ≡ self.old.limit }

        // Room for the entry, and the move of the seat's next draw.
        requires not_full { length self.old.journal < self.old.limit }
        requires seat { judged.now.seat < self.old.seats }
        requires unit { judged.now.unit < unit_count problem.now }
        requires next { IsNextMove self.old judged.now }

        // The steps above the draw's word.
        requires steps { AreStepsAbove judged.now.word steps }

        // The entry, and the state with it.
        ensures position { result.position ≡ length self.old.journal }
        ensures entry { result.entry ≡ entry_of_seat self.old.setting self.old.journal judged.now.seat }
        ensures kept { self.new ≡ record self.old { journal = self.old.journal ++ result.entry ∷ [] } }
    {
        let position = self.length();
        let accepted = accepts_on(steps, judged.change, self.level.temperature);
        self.standing
            .decide(problem, judged, accepted, position + 1);
        self.draws[judged.seat as usize] += 1;
        let entry = entry_of(judged, accepted);
        self.journal.push_reserved(entry);
        self.level = level_after(self.level, &rules.schedule, self.limit, position + 1);
        Receipt { position, entry }
    }

    /// What the run leaves.
    pub fn finish(self) -> Closed
        ensures { IsClosed self result.journal.items result.plan result.totals.items result.score }
    {
        let Kept {
            journal,
            standing,
            ..
        } = self;
        Closed {
            journal,
            plan: standing.plan,
            totals: standing.totals,
            score: standing.score,
        }
    }
}

/// The entry of a judged move.
fn entry_of(judged: &Judged, accepted: bool) -> Entry
    ensures { result ≡ record {
      seat = judged.now.seat;
      number = judged.now.number;
      unit = judged.now.unit;
      old = judged.now.old;
      new = judged.now.new;
      word = judged.now.word;
      change = judged.now.change;
      accepted = accepted;
    } }
{
    Entry {
        seat: judged.seat,
        number: judged.number,
        unit: judged.unit,
        old: judged.old,
        new: judged.new,
        word: judged.word,
        change: judged.change,
        accepted,
    }
}
