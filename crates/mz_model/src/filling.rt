//! Lists by place that are filled in any order, once their lengths were counted.
ghost use Rattle.std.specs.Prelude.{◌≡◌, ◌<◌, [], IfOk, length, map, slice_index, slice_index_or};
ghost use Rattle.mz_model.specs.Groups.{pushed, unfilled};

use crate::groups::Groups;
use mz_num::NoMemory;
use std::alloc::Global;
use std::marker::Model;

/// Lists by place that are filled in any order: each has the room that was counted for it, and they
/// become `Groups` once all are full.
#[derive(Debug, Drop)]
pub(crate) struct Filling<T: Copy> {
    /// Where each list starts, and the number of all items.
    starts: Vec<usize>,
    /// Where the next item of each list goes.
    ends: Vec<usize>,
    items: Vec<T>,
}

impl<T: Copy> Model for Filling<T> {
    ghost use Rattle.std.specs.Prelude.{length};
    ghost use Rattle.mz_model.specs.Groups.{Filling, filling_of, IsFilling};

    ghost Value = { Filling T };

    ghost view = { λ a. filling_of a.starts.items a.ends.items a.items.items };

    ghost invariant = { λ a. IsFilling a.starts.items a.ends.items (length a.items.items) };
}

impl<T: Copy> Filling<T> {
    /// Empty lists with room for so many items each; `blank` stands where no item is yet.
    pub fn new(alloc: Global, counts: &[usize], blank: T) -> Result<Filling<T>, NoMemory>
        ensures { IfOk result (λ filling. filling ≡ unfilled counts.now) }
    {
        let mut ends = Vec::new(alloc);
        let mut total: usize = 0;
        for count in counts {
            ends.push(total)?;
            let Some(sum) = total.checked_add(*count) else {
                return Err(NoMemory);
            };
            total = sum;
        }
        let mut starts = Vec::from_slice(alloc, ends.as_slice())?;
        starts.push(total)?;
        let items = vec![in alloc; blank; total]?;
        Ok(Filling {
            starts,
            ends,
            items,
        })
    }

    /// Appends an item to the list of a place.
    #[inline]
    pub fn push(&mut self, place: usize, item: T)
        requires inside { place < length self.old.lists }
        requires room { length (slice_index_or self.old.lists place []) < slice_index self.old.room place }
        ensures { self.new ≡ pushed self.old place item }
    {
        let end = self.ends[place];
        self.items[end] = item;
        self.ends[place] = end + 1;
    }

    /// The lists, all of them full.
    pub fn full(self) -> Groups<T>
        requires { map length self.lists ≡ self.room }
        ensures { result ≡ self.lists }
    {
        Groups::cut(self.starts, self.items)
    }
}
