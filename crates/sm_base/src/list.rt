//! Lists.
ghost use Rattle.std.specs.Prelude.{◌≡◌, ℕ, ◌↔◌, ◌<◌, ◌++◌, ◌∷◌, [], IsTrue, IfOk, OnOk, OnErr, length, take, slice_get, option_copied};

use crate::memory::{Copied, NoMemory};
use std::alloc::Global;
use std::marker::Model;

/// A list of items in order, which contracts see as the list itself.
#[derive(Drop)]
pub struct List<T> {
    vec: Vec<T>,
}

impl<T> Model for List<T> {
    ghost use Rattle.std.specs.Prelude.{List};

    ghost Value = { List T };

    ghost view = { λ l. l.vec.items };
}

impl<T> List<T> {
    /// No items. It takes no memory.
    pub fn empty(alloc: Global) -> List<T>
        ensures { result ≡ [] }
    {
        List {
            vec: Vec::new(alloc),
        }
    }

    /// The items of a vector. It takes no memory.
    pub fn new(vec: Vec<T>) -> List<T>
        ensures { result ≡ vec.items }
    {
        List { vec }
    }

    /// The vector again. It takes no memory.
    pub fn into_vec(self) -> Vec<T>
        ensures { result.items ≡ self }
    {
        let List { vec } = self;
        vec
    }

    pub fn as_slice(&self) -> &[T]
        ensures { result.now ≡ self.now }
    {
        self.vec.as_slice()
    }

    pub fn len(&self) -> usize
        ensures { result ≡ length self.now }
    {
        self.vec.len()
    }

    pub fn is_empty(&self) -> bool
        ensures { IsTrue result ↔ (length self.now ≡ 0) }
    {
        self.vec.is_empty()
    }

    /// The item at a place, counted from 0.
    pub fn get(&self, index: usize) -> Option<&T>
        ensures { option_copied result ≡ slice_get self.now index }
    {
        self.vec.get(index)
    }
}

impl<T: Drop> List<T> {
    /// Adds an item at the end. Without memory the list stays, and the item is dropped.
    pub fn push(&mut self, item: T) -> Result<(), NoMemory>
        ensures ok { OnOk result (self.new ≡ self.old ++ item ∷ []) }
        ensures err { OnErr result (self.new ≡ self.old) }
    {
        self.vec.push(item)?;
        Ok(())
    }
}

/// The copies of the items of a slice, in order.
pub fn copies<T: Copied>(alloc: Global, items: &[T]) -> Result<Vec<T>, NoMemory>
    ensures { IfOk result (λ v. v.items ≡ items.now) }
{
    let mut vec = Vec::with_capacity(alloc, items.len())?;
    for item in items {
        vec.push(item.copy(alloc)?)?;
    }
    Ok(vec)
}

impl<T: Copied> Copied for List<T> {
    fn copy(&self, alloc: Global) -> Result<List<T>, NoMemory> {
        Ok(List::new(copies(alloc, self.as_slice())?))
    }
}
