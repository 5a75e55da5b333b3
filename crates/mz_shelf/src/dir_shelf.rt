//! Real files below a folder, and standard output.
ghost use Rattle.std.specs.Prelude.{◌≡◌, ◌≤◌, ◌<◌, ℕ, length, take, IfOk, IsErrOf, IfSome, OnOk, OnErr, string_bytes};
ghost use Rattle.std.specs.Io.KnownBytes.{Appends};
ghost use Rattle.mz_num.specs.Limits.{most_file_bytes};
ghost use Rattle.mz_shelf.specs.State.{KeepsCounts};
ghost use Rattle.mz_shelf.specs.Folder.{untold, counts_after, path_of};

use crate::shelf::{Shelf, ShelfErr};
use mz_num::limits::MOST_FILE_BYTES;
use std::alloc::{AllocError, Global};
use std::io::{ErrorKind, Read, Write};
use std::marker::Model;
use std::rt::Files;
use std::{fs, io};

/// The files below a folder, and standard output. It tells nothing of their content: that the system
/// keeps what is written is trusted. A missing file or parent and the empty name are absent on
/// reading; all else that the system refuses is a fault.
#[derive(Drop)]
pub struct DirShelf<'r, R: Files + Print> {
    rt: &'r R,
    folder: String,
    faults: u64,
    misses: u64,
    overs: u64,
}

impl<'r, R: Files + Print> Model for DirShelf<'r, R> {
    ghost use Rattle.mz_shelf.specs.State.{Counts};

    ghost Value = { Counts };

    ghost view = { λ a. record {
      faults = a.faults;
      misses = a.misses;
      overs = a.overs;
    } };
}

impl<'r, R: Files + Print> DirShelf<'r, R> {
    /// A shelf over the files below `folder`. An empty folder leaves a name as it is.
    pub fn new(rt: &'r R, folder: String) -> DirShelf<'r, R>
        ensures { result ≡ record { faults = 0; misses = 0; overs = 0 } }
    {
        DirShelf {
            rt,
            folder,
            faults: 0,
            misses: 0,
            overs: 0,
        }
    }

    /// The bytes of a file, or why there are none. No file has the empty name.
    fn read(&self, alloc: Global, name: &str) -> Result<Vec<u8>, ShelfErr>
        ensures { IfOk result (λ bytes. length bytes.items ≤ most_file_bytes) }
    {
        if name.is_empty() {
            return Err(ShelfErr::Absent);
        }
        let path = path_below(alloc, self.folder.as_str(), name)?;
        match fs::open(self.rt, path.as_str()) {
            Ok(file) => read_whole(alloc, file),
            Err(error) => Err(why_not_opened(error.kind())),
        }
    }

    /// Counts a call that ended so.
    fn count(&mut self, error: ShelfErr)
        ensures counted { self.new ≡ counts_after error self.old }
        ensures keeps { KeepsCounts self.old self.new }
    {
        match error {
            ShelfErr::Failed => self.faults = self.faults.saturating_add(1),
            ShelfErr::Absent => self.misses = self.misses.saturating_add(1),
            ShelfErr::TooLong => self.overs = self.overs.saturating_add(1),
            ShelfErr::NoMemory => {}
        }
    }
}

impl<'r, R: Files + Print> Shelf for DirShelf<'r, R> {
    ghost state = { untold };

    fn read_file(&mut self, alloc: Global, name: &str) -> Result<Vec<u8>, ShelfErr> {
        match self.read(alloc, name) {
            Ok(bytes) => Ok(bytes),
            Err(error) => {
                self.count(error);
                Err(error)
            }
        }
    }

    fn write_file(&mut self, alloc: Global, name: &str, bytes: &[u8]) -> Result<(), ShelfErr> {
        let path = path_below(alloc, self.folder.as_str(), name)?;
        if write_anew(self.rt, path.as_str(), bytes).is_err() {
            self.count(ShelfErr::Failed);
            return Err(ShelfErr::Failed);
        }
        Ok(())
    }

    fn say(&mut self, _alloc: Global, bytes: &[u8]) -> Result<(), ShelfErr> {
        if write_whole(&mut io::writer(self.rt), bytes).is_err() {
            self.count(ShelfErr::Failed);
            return Err(ShelfErr::Failed);
        }
        Ok(())
    }
}

/// A missing file or parent is absent, and all else that the system refuses is a fault.
fn why_not_opened(kind: ErrorKind) -> ShelfErr {
    match kind {
        ErrorKind::NotFound => ShelfErr::Absent,
        ErrorKind::OutOfMemory => ShelfErr::NoMemory,
        _ => ShelfErr::Failed,
    }
}

/// Writes a file in the place of one that is there.
fn write_anew<R: Files>(rt: &R, path: &str, bytes: &[u8]) -> io::Result<()> {
    let mut file = fs::create(rt, path)?;
    write_whole(&mut file, bytes)
}

/// A name below a folder.
fn path_below(alloc: Global, folder: &str, name: &str) -> Result<String, AllocError>
    ensures { IfOk result (λ path. string_bytes path ≡ path_of folder.now name.now) }
{
    let mut path = String::from_str(alloc, folder)?;
    if !folder.is_empty() {
        path.push('/')?;
    }
    path.push_str(name)?;
    Ok(path)
}

/// All that a reader gives, if it isn't too long.
fn read_whole<S: Read + Drop>(alloc: Global, source: S) -> Result<Vec<u8>, ShelfErr>
    ensures short { IfOk result (λ bytes. length bytes.items ≤ most_file_bytes) }
    ensures whole { IfOk result (λ bytes. IfSome (S.remaining source) (λ all. bytes.items ≡ all)) }
    ensures long { IsErrOf result ShelfErr.TooLong → IfSome (S.remaining source) (λ all. most_file_bytes < length all) }
{
    let mut bytes = Vec::new(alloc);
    match source
        .take(MOST_FILE_BYTES as u64 + 1)
        .read_to_end(&mut bytes)
    {
        Ok(_) if bytes.len() > MOST_FILE_BYTES => Err(ShelfErr::TooLong),
        Ok(_) => Ok(bytes),
        Err(error) if error.kind() == ErrorKind::OutOfMemory => Err(ShelfErr::NoMemory),
        Err(_) => Err(ShelfErr::Failed),
    }
}

/// Writes all bytes, or a front of them.
fn write_whole<W: Write>(out: &mut W, bytes: &[u8]) -> io::Result<()>
    ensures ok { OnOk result (Appends (W.contents out.old) (W.contents out.new) bytes.now) }
    ensures err { OnErr result ((n : ℕ) × Appends (W.contents out.old) (W.contents out.new) (take n bytes.now)) }
{
    let mut written = 0;
    for _ in 0..u64::MAX {
        if written == bytes.len() {
            return Ok(());
        }
        match out.write(&bytes[written..]) {
            Ok(0) => return Err(ErrorKind::WriteZero.into()),
            Ok(n) => written += n,
            Err(error) if error.kind() == ErrorKind::Interrupted => {}
            Err(error) => return Err(error),
        }
    }
    Err(ErrorKind::TimedOut.into())
}
