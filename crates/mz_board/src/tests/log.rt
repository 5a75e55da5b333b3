//! A log of lines, as a value under the board: each line writes one item.
ghost use Rattle.std.specs.Prelude.{◌≡◌, ◌≤◌, true, false, [], ◌∷◌, ◌++◌, length};

use crate::Story;
use std::alloc::Global;

/// The most lines of a log.
const MOST: usize = 1000;

/// A line: the chair that wrote it, its number among that chair's lines, and what it writes.
#[derive(Clone, Copy)]
pub(super) struct Line {
    pub(super) chair: u8,
    pub(super) number: u64,
    pub(super) item: u32,
    pub(super) value: u64,
}

#[derive(Drop)]
pub(super) struct Log {
    name: u32,
    lines: Vec<Line>,
}

impl Story for Log {
    type Entry = Line;

    type Setting = u32;

    ghost entries = { λ log. log.lines.items };

    ghost owner = { λ line. line.chair };

    ghost setting = { λ log. log.name };

    ghost writes = { λ line. (line.item, line.value) ∷ [] };

    ghost may_have = { λ _ _ _. true };

    ghost most = { λ _. 1000 };

    fn length(&self) -> u64 {
        self.lines.len() as u64
    }
}

impl Log {
    pub(super) fn new(alloc: Global, name: u32) -> Log
        ensures { result.lines.items ≡ [] }
    {
        Log {
            name,
            lines: Vec::new(alloc),
        }
    }

    pub(super) fn name(&self) -> u32 {
        self.name
    }

    /// Whether the line was written: a full log and one without memory stay as they are.
    pub(super) fn write(&mut self, line: Line) -> bool
        ensures name { self.new.name ≡ self.old.name }
        ensures left { result ≡ false → self.new.lines.items ≡ self.old.lines.items }
        ensures added { result ≡ true → (self.new.lines.items ≡ self.old.lines.items ++ line ∷ [])
            × (length self.new.lines.items ≤ 1000) }
    {
        if self.lines.len() >= MOST {
            return false;
        }
        let Ok(()) = self.lines.push(line) else {
            return false;
        };
        true
    }

    /// The number of lines, where each chair's lines are numbered in order from 0.
    pub(super) fn lines_in_order(&self) -> Option<usize> {
        let mut next = [0u64; 8];
        for line in self.lines.iter() {
            let chair = line.chair as usize;
            if chair >= 8 || next[chair] != line.number {
                return None;
            }
            next[chair] = line.number.saturating_add(1);
        }
        Some(self.lines.len())
    }

    /// What the last line of each of the four items wrote.
    pub(super) fn last_values(&self) -> [u64; 4] {
        let mut values = [0u64; 4];
        for line in self.lines.iter() {
            let item = line.item as usize;
            if item < 4 {
                values[item] = line.value;
            }
        }
        values
    }
}
