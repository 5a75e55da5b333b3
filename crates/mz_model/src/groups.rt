//! Many lists in one: the list of each place, one behind the other.
ghost use Rattle.std.specs.Prelude.{◌≡◌, ◌+◌, ◌<◌, ◌≤◌, ◌++◌, ◌∷◌, [], IfOk, length};
ghost use Rattle.std.specs.Prelude.{slice_index, slice_index_or, slice_range};
ghost use Rattle.mz_model.specs.Groups.{groups_of, IsCut};

use mz_num::NoMemory;
use std::alloc::Global;
use std::marker::Model;

/// A list for each place from 0. They stand compressed: all items in a row, and where each list
/// starts.
#[derive(Debug, Drop)]
pub struct Groups<T: Copy> {
    starts: Vec<usize>,
    items: Vec<T>,
}

impl<T: Copy> Model for Groups<T> {
    ghost use Rattle.std.specs.Prelude.{List, length};
    ghost use Rattle.mz_model.specs.Groups.{groups_of, IsCut};

    ghost Value = { List (List T) };

    ghost view = { λ a. groups_of a.starts.items a.items.items };

    ghost invariant = { λ a. IsCut a.starts.items (length a.items.items) };
}

impl<T: Copy> Groups<T> {
    /// No list yet.
    pub fn new(alloc: Global) -> Result<Groups<T>, NoMemory>
        ensures { IfOk result (λ groups. groups ≡ []) }
    {
        let mut starts = Vec::new(alloc);
        starts.push(0)?;
        Ok(Groups {
            starts,
            items: Vec::new(alloc),
        })
    }

    /// The lists of items that were cut at these starts.
    pub(crate) fn cut(starts: Vec<usize>, items: Vec<T>) -> Groups<T>
        requires { IsCut starts.items (length items.items) }
        ensures { result ≡ groups_of starts.items items.items }
    {
        Groups { starts, items }
    }

    /// Appends the list of the next place.
    pub fn push(&mut self, list: &[T]) -> Result<(), NoMemory>
        ensures { IfOk result (λ _. self.new ≡ self.old ++ list.now ∷ []) }
    {
        let before = self.items.len();
        self.items.extend_from_slice(list)?;
        if self.starts.push(self.items.len()).is_err() {
            self.items.truncate(before);
            return Err(NoMemory);
        }
        Ok(())
    }

    /// The list of a place.
    #[inline]
    pub fn at(&self, place: usize) -> &[T]
        requires { place < length self.now }
        ensures { result.now ≡ slice_index_or self.now place [] }
    {
        part(self.starts.as_slice(), self.items.as_slice(), place)
    }
}

/// The items from one start up to the next.
#[inline]
fn part<'a, T: Copy>(starts: &[usize], items: &'a [T], place: usize) -> &'a [T]
    requires next { place + 1 < length starts.now }
    requires rising { slice_index starts.now place ≤ slice_index starts.now (place + 1) }
    requires inside { slice_index starts.now (place + 1) ≤ length items.now }
    ensures { result.now ≡ slice_range items.now (slice_index starts.now place) (slice_index starts.now (place + 1)) }
{
    &items[starts[place]..starts[place + 1]]
}
