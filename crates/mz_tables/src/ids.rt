//! Distinct ids in the order in which they were added.
ghost use Rattle.std.specs.Prelude.{◌≡◌, ◌<◌, ◌≤◌, not, nat_eq, [], length, slice_get, OnOk, OnErr, IfOk, IfSome, Some};
ghost use Rattle.std.specs.List.{IsDistinct};
ghost use Rattle.mz_tables.specs.Ids.{has_id, with_id, place_of_id};

use crate::id_hash::IdHash;
use crate::table::Table;
use indexmap::IndexSet;
use mz_num::NoMemory;
use std::alloc::Global;
use std::marker::Model;

/// A list of distinct ids, each found by one look-up.
#[derive(Drop)]
pub struct Ids {
    ids: IndexSet<u32, IdHash>,
}

impl Model for Ids {
    ghost use Rattle.std.specs.Prelude.{List, ℕ, length, ◌≤◌};

    ghost Value = { List ℕ };

    ghost view = { λ a. a.ids.keys };

    ghost invariant = { λ a. length a.ids.keys ≤ 4294967295 };
}

impl Ids {
    /// No id yet.
    pub fn new(alloc: Global) -> Result<Ids, NoMemory>
        ensures { IfOk result (λ ids. ids ≡ []) }
    {
        Ok(Ids {
            ids: IndexSet::with_hasher(alloc, IdHash::new(0)),
        })
    }

    /// No id yet, with room for those of a table's rows, of which so many are taken at most. The
    /// key of their hash comes of the table's own fields, so that ids can't be chosen to share a hash.
    pub fn of_table(alloc: Global, table: &Table, most: u32) -> Result<Ids, NoMemory>
        ensures { IfOk result (λ ids. ids ≡ []) }
    {
        let room = table.rows().min(most) as usize;
        let hash = IdHash::new(table.key());
        Ok(Ids {
            ids: IndexSet::with_capacity_and_hasher(alloc, room, hash)?,
        })
    }

    /// Adds an id, and says whether it is new. After want of memory the ids are as before.
    pub fn add(&mut self, _alloc: Global, id: u32) -> Result<bool, NoMemory>
        requires { length self.old < 4294967295 }
        ensures added { IfOk result (λ added. added ≡ not (has_id self.old id)) }
        ensures ids { OnOk result (self.new ≡ with_id self.old id) }
        ensures err { OnErr result (self.new ≡ self.old) }
    {
        let (_, added) = self.ids.insert_full(id)?;
        Ok(added)
    }

    /// The place of an id; none where it isn't there.
    pub fn place(&self, id: u32) -> Option<u32>
        ensures place { result ≡ place_of_id self.now id }
        ensures within { IfSome result (λ place. place < length self.now) }
    {
        match self.ids.get_index_of(&id) {
            Some(place) => Some(place as u32),
            None => None,
        }
    }

    /// The id at a place.
    pub fn id(&self, place: u32) -> u32
        requires { place < length self.now }
        ensures { slice_get self.now place ≡ Some result }
    {
        match self.ids.get_index(place as usize) {
            Some(id) => *id,
            None => 0,
        }
    }

    /// How many ids there are. No two of them are equal.
    pub fn len(&self) -> u32
        ensures len { result ≡ length self.now }
        ensures distinct { IsDistinct nat_eq self.now }
    {
        self.ids.len() as u32
    }
}
