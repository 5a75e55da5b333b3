//! A list with room that was reserved for it.
ghost use Rattle.std.specs.Prelude.{◌≡◌, ◌<◌, ◌≤◌, ◌++◌, ◌∷◌, [], IfOk, length, vec_capacity};

use crate::memory::NoMemory;
use std::alloc::Global;
use std::marker::Model;

/// A list that is filled within reserved room, so that it takes no memory. It is made of a `Vec`
/// and given back as one.
#[derive(Debug, Drop)]
pub struct Filled<T: Copy> {
    items: Vec<T>,
}

impl<T: Copy> Model for Filled<T> {
    ghost use Rattle.std.specs.Prelude.{length, vec_capacity};
    ghost use Rattle.mz_num.specs.WithRoom.{WithRoom};

    ghost Value = { WithRoom T };

    ghost view = { λ a. record { items = a.items.items; room = vec_capacity a.items } };
}

impl<T: Copy> Filled<T> {
    /// The list of a `Vec`, with the room that it has.
    pub fn new(items: Vec<T>) -> Filled<T>
        ensures { result ≡ record { items = items.items; room = vec_capacity items } }
    {
        Filled { items }
    }

    pub fn into_vec(self) -> Vec<T>
        ensures { result.items ≡ self.items }
    {
        let Filled { items } = self;
        items
    }

    /// An empty list with room for so many items.
    pub fn with_room(alloc: Global, room: usize) -> Result<Filled<T>, NoMemory>
        ensures { IfOk result (λ list. list ≡ record { items = []; room = room }) }
    {
        Ok(Filled {
            items: Vec::with_capacity(alloc, room)?,
        })
    }

    #[inline]
    pub fn as_slice(&self) -> &[T]
        ensures { result.now ≡ self.now.items }
    {
        self.items.as_slice()
    }

    /// Empties the list and keeps its room.
    #[inline]
    pub fn clear(&mut self)
        ensures { self.new ≡ record self.old { items = [] } }
    {
        self.items.clear();
    }

    /// Appends an item where there is room for it: no memory is taken.
    #[inline]
    pub fn push(&mut self, item: T)
        requires { length self.old.items < self.old.room }
        ensures items { self.new.items ≡ self.old.items ++ item ∷ [] }
        ensures room { self.new.room ≡ self.old.room }
    {
        self.items.push_reserved(item);
    }
}
