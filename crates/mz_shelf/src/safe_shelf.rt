//! A shelf in memory whose calls never fail.
ghost use Rattle.std.specs.Prelude.{◌≡◌, [], MatchResult, IfOk, OnOk, OnErr};
ghost use Rattle.std.specs.Option.{option_copied};
ghost use Rattle.std.specs.FinMap.{get, empty};
ghost use Rattle.mz_shelf.specs.Act.Act.{Say, Write};
ghost use Rattle.mz_shelf.specs.Memory.{told, held_after, held_after_read, held_after_error};
ghost use Rattle.mz_shelf.specs.Shelf.{ReadsFile, ReadStopped, DidAct, ActStopped};

use crate::file_map::FileMap;
use crate::shelf::{Shelf, ShelfErr};
use mz_num::limits::MOST_FILE_BYTES;
use mz_num::{NoMemory, Text};
use std::alloc::Global;
use std::marker::Model;

/// Files and said bytes in memory. It tells both, and the names that were read; its faults are always 0.
#[derive(Drop)]
pub struct SafeShelf {
    files: FileMap,
    said: Vec<u8>,
    reads: Vec<Text>,
    misses: u64,
    overs: u64,
}

impl Model for SafeShelf {
    ghost use Rattle.mz_shelf.specs.Memory.{Held, held_code};

    ghost Value = { Held };

    ghost coded = { held_code };

    ghost view = { λ a. record {
      files = a.files;
      said = a.said.items;
      reads = a.reads.items;
      misses = a.misses;
      overs = a.overs;
    } };
}

impl SafeShelf {
    /// A shelf without files, to which nothing was said.
    pub fn new(alloc: Global) -> Result<SafeShelf, NoMemory>
        ensures { IfOk result
            (λ shelf. shelf ≡ record { files = empty; said = []; reads = []; misses = 0; overs = 0 }) }
    {
        Ok(SafeShelf {
            files: FileMap::new(alloc),
            said: Vec::new(alloc),
            reads: Vec::new(alloc),
            misses: 0,
            overs: 0,
        })
    }

    /// Puts a file on the shelf, in the place of one that has the name.
    pub fn put(&mut self, alloc: Global, name: &str, bytes: &[u8]) -> Result<(), NoMemory>
        ensures ok { OnOk result (self.new ≡ held_after (Write name.now bytes.now) self.old) }
        ensures err { OnErr result (self.new ≡ self.old) }
    {
        self.files.insert(alloc, name, bytes)
    }

    /// The bytes of the file of that name.
    pub fn file(&self, name: &str) -> Option<&[u8]>
        ensures { option_copied result ≡ get self.now.files name.now }
    {
        self.files.get(name)
    }

    /// All that was said.
    pub fn said(&self) -> &[u8]
        ensures { result.now ≡ self.now.said }
    {
        self.said.as_slice()
    }

    /// The names that were read, in order, whatever came of each read.
    pub fn reads(&self) -> &[Text]
        ensures { result.now ≡ self.now.reads }
    {
        self.reads.as_slice()
    }

    /// Says bytes.
    pub(crate) fn append(&mut self, bytes: &[u8]) -> Result<(), NoMemory>
        ensures ok { OnOk result (self.new ≡ held_after (Say bytes.now) self.old) }
        ensures err { OnErr result (self.new ≡ self.old) }
    {
        self.said.extend_from_slice(bytes)?;
        Ok(())
    }

    /// Notes that a file of that name was read, whatever comes of it.
    pub(crate) fn note_read(&mut self, alloc: Global, name: &str) -> Result<(), NoMemory>
        ensures ok { OnOk result (self.new ≡ held_after_read name.now self.old) }
        ensures err { OnErr result (self.new ≡ self.old) }
    {
        let name = Text::new(String::from_str(alloc, name)?);
        self.reads.push(name)?;
        Ok(())
    }
}

impl Shelf for SafeShelf {
    ghost state = { told 0 };

    fn read_file(&mut self, alloc: Global, name: &str) -> Result<Vec<u8>, ShelfErr>
        ensures answer { MatchResult result
            (λ bytes. ReadsFile name.now (told 0 self.old) (told 0 self.new) bytes.items)
            (λ error. ReadStopped name.now (told 0 self.old) (told 0 self.new) error) }
        ensures left { MatchResult result
            (λ _. self.new ≡ held_after_read name.now self.old)
            (λ error. self.new ≡ held_after_error name.now error self.old) }
    {
        match self.files.get(name) {
            None => {
                self.note_read(alloc, name)?;
                self.misses = self.misses.saturating_add(1);
                Err(ShelfErr::Absent)
            }
            Some(bytes) if bytes.len() > MOST_FILE_BYTES => {
                self.note_read(alloc, name)?;
                self.overs = self.overs.saturating_add(1);
                Err(ShelfErr::TooLong)
            }
            Some(bytes) => {
                let bytes = Vec::from_slice(alloc, bytes)?;
                self.note_read(alloc, name)?;
                Ok(bytes)
            }
        }
    }

    fn write_file(&mut self, alloc: Global, name: &str, bytes: &[u8]) -> Result<(), ShelfErr>
        ensures answer { MatchResult result
            (λ _. DidAct (Write name.now bytes.now) (told 0 self.old) (told 0 self.new))
            (λ error. ActStopped (Write name.now bytes.now) (told 0 self.old) (told 0 self.new) error) }
        ensures left { MatchResult result
            (λ _. self.new ≡ held_after (Write name.now bytes.now) self.old)
            (λ _. self.new ≡ self.old) }
    {
        self.put(alloc, name, bytes)?;
        Ok(())
    }

    fn say(&mut self, _alloc: Global, bytes: &[u8]) -> Result<(), ShelfErr>
        ensures answer { MatchResult result
            (λ _. DidAct (Say bytes.now) (told 0 self.old) (told 0 self.new))
            (λ error. ActStopped (Say bytes.now) (told 0 self.old) (told 0 self.new) error) }
        ensures left { MatchResult result
            (λ _. self.new ≡ held_after (Say bytes.now) self.old)
            (λ _. self.new ≡ self.old) }
    {
        self.append(bytes)?;
        Ok(())
    }
}
