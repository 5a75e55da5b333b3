//! A shelf in memory whose calls fail where a list says so.
ghost use Rattle.std.specs.Prelude.{◌≡◌, ◌≤◌, [], MatchResult, IfOk, OnOk, OnErr, take, false, IsTrue, ◌↔◌};
ghost use Rattle.std.specs.Option.{option_copied};
ghost use Rattle.std.specs.FinMap.{get, empty};
ghost use Rattle.mz_shelf.specs.Act.Act.{Say, Write};
ghost use Rattle.mz_shelf.specs.Shelf.{ReadsFile, ReadStopped, DidAct, ActStopped};
ghost use Rattle.mz_shelf.specs.Memory.{Failing, state_of, held_after, is_failing, called, faulted, ReadInTurn, ReadStoppedInTurn, DidInTurn, StoppedInTurn};

use crate::safe_shelf::SafeShelf;
use crate::shelf::{Shelf, ShelfErr};
use mz_num::{NoMemory, Text};
use std::alloc::Global;
use std::marker::Model;

/// Files and said bytes in memory. It tells both, and the names that were read. The calls of `Shelf` are
/// numbered from 0.
#[derive(Drop)]
pub struct MemShelf {
    shelf: SafeShelf,
    faults: u64,
    /// The number of the next call. It is wider than those of `fails`, so that a call past the last
    /// value of a u64 doesn't fail.
    calls: u128,
    fails: Vec<u64>,
    cut: usize,
}

impl Model for MemShelf {
    ghost use Rattle.mz_shelf.specs.Memory.{Failing, failing_code};

    ghost Value = { Failing };

    ghost coded = { failing_code };

    ghost view = { λ a. record {
      held = a.shelf;
      faults = a.faults;
      calls = a.calls;
      fails = a.fails.items;
      cut = a.cut;
    } };
}

impl MemShelf {
    /// A shelf without files, to which nothing was said. The calls whose numbers are in `fails` will
    /// fail; such a write or say takes the first `cut` bytes, or all if there are fewer.
    pub fn new(alloc: Global, fails: Vec<u64>, cut: usize) -> Result<MemShelf, NoMemory>
        ensures { IfOk result (λ shelf. shelf ≡ record {
          held = record { files = empty; said = []; reads = []; misses = 0; overs = 0 };
          faults = 0;
          calls = 0;
          fails = fails.items;
          cut = cut;
        }) }
    {
        Ok(MemShelf {
            shelf: SafeShelf::new(alloc)?,
            faults: 0,
            calls: 0,
            fails,
            cut,
        })
    }

    /// Puts a file on the shelf, in the place of one that has the name. It is no numbered call.
    pub fn put(&mut self, alloc: Global, name: &str, bytes: &[u8]) -> Result<(), NoMemory>
        ensures ok { OnOk result
            (self.new ≡ record self.old { held = held_after (Write name.now bytes.now) self.old.held }) }
        ensures err { OnErr result (self.new ≡ self.old) }
    {
        self.shelf.put(alloc, name, bytes)
    }

    /// The bytes of the file of that name.
    pub fn file(&self, name: &str) -> Option<&[u8]>
        ensures { option_copied result ≡ get self.now.held.files name.now }
    {
        self.shelf.file(name)
    }

    /// All that was said.
    pub fn said(&self) -> &[u8]
        ensures { result.now ≡ self.now.held.said }
    {
        self.shelf.said()
    }

    /// The names that were read, in order, whatever came of each read.
    pub fn reads(&self) -> &[Text]
        ensures { result.now ≡ self.now.held.reads }
    {
        self.shelf.reads()
    }

    /// How many calls failed.
    pub fn faults(&self) -> u64
        ensures { result ≡ self.now.faults }
    {
        self.faults
    }

    /// Whether the next call is one of those that fail.
    fn is_failing(&self) -> bool
        ensures { result ≡ is_failing self.now }
    {
        self.fails
            .iter()
            .any(|&number| u128::from(number) == self.calls)
    }

    /// Counts a call that doesn't fail.
    fn count_call(&mut self)
        ensures { self.new ≡ called self.old }
    {
        self.calls = self.calls.saturating_add(1);
    }

    /// Counts a call that fails.
    fn count_fault(&mut self)
        ensures left { self.new ≡ faulted self.old }
        ensures keeps { self.old.faults ≤ self.new.faults }
    {
        self.calls = self.calls.saturating_add(1);
        self.faults = self.faults.saturating_add(1);
    }
}

impl Shelf for MemShelf {
    ghost state = { state_of };

    fn read_file(&mut self, alloc: Global, name: &str) -> Result<Vec<u8>, ShelfErr>
        ensures answer { MatchResult result
            (λ bytes. ReadsFile name.now (state_of self.old) (state_of self.new) bytes.items)
            (λ error. ReadStopped name.now (state_of self.old) (state_of self.new) error) }
        ensures turn { MatchResult result
            (λ _. ReadInTurn name.now self.old self.new)
            (λ error. ReadStoppedInTurn name.now self.old self.new error) }
    {
        if self.is_failing() {
            self.shelf.note_read(alloc, name)?;
            self.count_fault();
            return Err(ShelfErr::Failed);
        }
        let read = self.shelf.read_file(alloc, name);
        if !is_short_of_memory(&read) {
            self.count_call();
        }
        read
    }

    fn write_file(&mut self, alloc: Global, name: &str, bytes: &[u8]) -> Result<(), ShelfErr>
        ensures answer { MatchResult result
            (λ _. DidAct (Write name.now bytes.now) (state_of self.old) (state_of self.new))
            (λ error. ActStopped (Write name.now bytes.now) (state_of self.old) (state_of self.new) error) }
        ensures turn { MatchResult result
            (λ _. DidInTurn (Write name.now bytes.now) self.old self.new)
            (λ error. StoppedInTurn (Write name.now bytes.now) self.old self.new error) }
    {
        if self.is_failing() {
            self.shelf.put(alloc, name, front(bytes, self.cut))?;
            self.count_fault();
            return Err(ShelfErr::Failed);
        }
        self.shelf.put(alloc, name, bytes)?;
        self.count_call();
        Ok(())
    }

    fn say(&mut self, _alloc: Global, bytes: &[u8]) -> Result<(), ShelfErr>
        ensures answer { MatchResult result
            (λ _. DidAct (Say bytes.now) (state_of self.old) (state_of self.new))
            (λ error. ActStopped (Say bytes.now) (state_of self.old) (state_of self.new) error) }
        ensures turn { MatchResult result
            (λ _. DidInTurn (Say bytes.now) self.old self.new)
            (λ error. StoppedInTurn (Say bytes.now) self.old self.new error) }
    {
        if self.is_failing() {
            self.shelf.append(front(bytes, self.cut))?;
            self.count_fault();
            return Err(ShelfErr::Failed);
        }
        self.shelf.append(bytes)?;
        self.count_call();
        Ok(())
    }
}

/// The first bytes, or all if there are fewer.
fn front(bytes: &[u8], most: usize) -> &[u8]
    ensures { result.now ≡ take most bytes.now }
{
    if most < bytes.len() {
        &bytes[..most]
    } else {
        bytes
    }
}

/// Whether a read ended for want of memory.
fn is_short_of_memory(read: &Result<Vec<u8>, ShelfErr>) -> bool
    ensures { MatchResult read.now (λ _. result ≡ false) (λ error. IsTrue result ↔ (error ≡ ShelfErr.NoMemory)) }
{
    match read {
        Err(error) => *error == ShelfErr::NoMemory,
        Ok(_) => false,
    }
}
