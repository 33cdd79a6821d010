ghost use Rattle.std.specs.Prelude.{◌≡◌, ◌<◌, List, [], ◌∷◌, ◌++◌, length, slice_get, Some, IfOk, OnOk, OnErr};
ghost use Rattle.std.specs.Iterator.Adapters.{IterYieldsInOrder};
ghost use Rattle.std.specs.Slice.Iter.{iter_rest};
ghost use Rattle.skk_text.specs.Lists.{is_empty};

use crate::copies::Copies;
use crate::memory::Memory;
use std::alloc::Global;
use std::marker::Model;
use std::slice::Iter;

/// Items in order: what every named list of the workspace is.
#[derive(Debug, Drop)]
pub struct Sequence<T> {
    items: Vec<T>,
}

impl<T> Model for Sequence<T> {
    ghost Value = { List T };

    ghost view = { λ s. s.items.items };
}

impl<T> Sequence<T> {
    /// No items. Takes no memory: the list keeps the allocator for what is pushed later.
    pub fn new(alloc: Global) -> Sequence<T>
        ensures { result ≡ [] }
    {
        Sequence {
            items: Vec::new(alloc),
        }
    }

    /// These items. Takes no memory.
    pub fn of(items: Vec<T>) -> Sequence<T>
        ensures { result ≡ items.items }
    {
        Sequence { items }
    }

    /// How many items there are.
    pub fn len(&self) -> usize
        ensures { result ≡ length self.now }
    {
        self.items.len()
    }

    /// Whether there is no item.
    pub fn is_empty(&self) -> bool
        ensures { result ≡ is_empty self.now }
    {
        self.items.is_empty()
    }

    /// The item at a place, counted from 0.
    pub fn at(&self, place: usize) -> &T
        requires { place < length self.now }
        ensures { slice_get self.now place ≡ Some result.now }
    {
        &self.items[place]
    }

    /// The items, moved out. Takes no memory.
    pub fn into_vec(self) -> Vec<T>
        ensures { result.items ≡ self }
    {
        self.items
    }

    /// The items, one after another.
    pub fn iter(&self) -> Iter<'_, T>
        ensures rest { iter_rest result ≡ self.now }
        ensures len { length (iter_rest result) ≡ length self.now }
        ensures runs { IterYieldsInOrder T }
    {
        self.items.iter()
    }

    /// All items, in order.
    pub fn as_slice(&self) -> &[T]
        ensures { result.now ≡ self.now }
    {
        &self.items
    }
}

impl<T: Drop> Sequence<T> {
    /// Adds an item at the end, or drops it where it is out of memory.
    pub fn push(&mut self, item: T) -> Result<(), Memory>
        ensures ok { OnOk result (self.new ≡ self.old ++ item ∷ []) }
        ensures err { OnErr result (self.new ≡ self.old) }
    {
        self.items.push(item)?;
        Ok(())
    }
}

impl<T: Copies> Copies for Sequence<T> {
    fn copy(&self, alloc: Global) -> Result<Sequence<T>, Memory> {
        copies_of(alloc, &self.items)
    }
}

/// Copies of items, in order.
pub fn copies_of<T: Copies>(alloc: Global, items: &[T]) -> Result<Sequence<T>, Memory>
    ensures { IfOk result (λ copies. copies ≡ items.now) }
{
    let mut copies = Sequence::new(alloc);
    for item in items {
        copies.push(item.copy(alloc)?)?;
    }
    Ok(copies)
}
