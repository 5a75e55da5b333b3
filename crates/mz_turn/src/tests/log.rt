//! A log of lines, as a value under the lock.
ghost use Rattle.std.specs.Prelude.{◌≡◌, ◌⊎◌, [], ◌∷◌, ◌++◌};

use crate::Story;
use std::alloc::Global;

/// A line: the chair that wrote it, and its number among that chair's lines.
#[derive(Clone, Copy)]
pub(super) struct Line {
    pub(super) chair: u8,
    pub(super) number: u64,
}

#[derive(Drop)]
pub(super) struct Log {
    name: u32,
    lines: Vec<Line>,
}

impl Story for Log {
    type Entry = Line;

    type Setting = u32;

    ghost entries = { λ log. log.lines.items };

    ghost owner = { λ line. line.chair };

    ghost setting = { λ log. log.name };

    fn length(&self) -> u64 {
        self.lines.len() as u64
    }
}

impl Log {
    pub(super) fn new(alloc: Global, name: u32) -> Log
        ensures { result.lines.items ≡ [] }
    {
        Log {
            name,
            lines: Vec::new(alloc),
        }
    }

    pub(super) fn name(&self) -> u32 {
        self.name
    }

    /// Without memory the line is left out.
    pub(super) fn write(&mut self, line: Line)
        ensures name { self.new.name ≡ self.old.name }
        ensures lines { (self.new.lines.items ≡ self.old.lines.items)
            ⊎ (self.new.lines.items ≡ self.old.lines.items ++ line ∷ []) }
    {
        drop(self.lines.push(line));
    }

    /// The number of lines, where each chair's lines are numbered in order from 0.
    pub(super) fn lines_in_order(&self) -> Option<usize> {
        let mut next = [0u64; 8];
        for line in self.lines.iter() {
            let chair = line.chair as usize;
            if chair >= 8 || next[chair] != line.number {
                return None;
            }
            next[chair] = line.number.saturating_add(1);
        }
        Some(self.lines.len())
    }
}
