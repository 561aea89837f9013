ghost use Rattle.std.specs.Prelude.{◌≡◌, [], ◌++◌, ◌∷◌, ◌==◌, length, IfOk, OnOk, OnErr};

use crate::memory::NoMemory;
use std::alloc::Global;
use std::marker::Model;

/// A list of values, seen as the list alone: two are equal where their elements are.
#[derive(Drop)]
pub struct List<T> {
    items: Vec<T>,
}

impl<T> Model for List<T> {
    ghost use Rattle.std.specs.Prelude.{List as Values};

    ghost Value = { Values T };

    ghost view = { λ a. a.items.items };
}

impl<T> List<T> {
    /// The empty list. Takes no memory.
    pub fn new(alloc: Global) -> List<T>
        ensures { result ≡ [] }
    {
        List {
            items: Vec::new(alloc),
        }
    }

    /// The empty list, with room for so many elements.
    pub fn with_capacity(alloc: Global, capacity: usize) -> Result<List<T>, NoMemory>
        ensures { IfOk result (λ l. l ≡ []) }
    {
        let items = Vec::with_capacity(alloc, capacity)?;
        Ok(List { items })
    }

    /// The number of elements.
    pub fn len(&self) -> usize
        ensures { result ≡ length self.now }
    {
        self.items.len()
    }

    /// Whether there is no element.
    pub fn is_empty(&self) -> bool
        ensures { result ≡ (length self.now == 0) }
    {
        self.items.is_empty()
    }

    /// The elements, in order.
    pub fn as_slice(&self) -> &[T]
        ensures { result.now ≡ self.now }
    {
        self.items.as_slice()
    }

    /// The elements, in order, each of which is then its holder's.
    pub fn into_vec(self) -> Vec<T>
        ensures { result.items ≡ self }
    {
        let List { items } = self;
        items
    }

    /// The allocator that the list grows by.
    pub fn allocator(&self) -> Global {
        *self.items.allocator()
    }
}

impl<T: Drop> List<T> {
    /// Puts a value at the end.
    pub fn push(&mut self, value: T) -> Result<(), NoMemory>
        ensures ok { OnOk result (self.new ≡ self.old ++ value ∷ []) }
        ensures err { OnErr result (self.new ≡ self.old) }
    {
        self.items.push(value)?;
        Ok(())
    }
}
