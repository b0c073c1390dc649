// A list that holds nothing has no vector, so that opening one takes no memory and no allocator.
ghost use Rattle.std.specs.Prelude.{◌≡◌, [], ◌∷◌, ◌++◌, ◌<◌, length, slice_get, slice_set, Some};
ghost use Rattle.std.specs.Prelude.{OnOk, OnErr, IfOk};

use crate::Copied;
use std::alloc::Global;
use std::marker::Model;

/// Want of memory. It is the one answer that needs no cause.
pub use std::alloc::AllocError as NoMemory;

/// A vector that contracts see as the list of its items.
#[derive(Debug, Drop)]
pub struct List<T> {
    held: Option<Vec<T>>,
}

impl<T> Model for List<T> {
    ghost use Rattle.std.specs.Prelude.{List, []};
    ghost use Rattle.std.specs.Coded.{coded_list};
    ghost use Rattle.std.specs.Option.{option_map_or};

    ghost Value = { List T };

    ghost coded = { coded_list T.code };

    ghost view = { λ it. option_map_or (λ v. v.items) it.held [] };
}

impl<T> List<T> {
    /// The empty list. It takes no memory.
    pub fn open() -> List<T>
        ensures { result ≡ [] }
    {
        List { held: None }
    }

    /// The number of items.
    pub fn len(&self) -> usize
        ensures { result ≡ length self.now }
    {
        match &self.held {
            None => 0,
            Some(items) => items.len(),
        }
    }

    /// The item at place `at`, from 0.
    pub fn get(&self, at: usize) -> &T
        requires { at < length self.now }
        ensures { slice_get self.now at ≡ Some result.now }
    {
        &self.as_slice()[at]
    }

    /// All items in order.
    pub fn as_slice(&self) -> &[T]
        ensures { result.now ≡ self.now }
    {
        match &self.held {
            None => &[],
            Some(items) => items.as_slice(),
        }
    }
}

impl<T> List<T> {
    /// The list of the items of a vector, which it takes over. It takes no memory.
    pub fn from_vec(items: Vec<T>) -> List<T>
        ensures { result ≡ items.items }
    {
        List { held: Some(items) }
    }
}

impl<T: Drop> List<T> {
    /// Puts the item last. After want of memory the list is as before.
    pub fn push(&mut self, alloc: Global, item: T) -> Result<(), NoMemory>
        ensures ok { OnOk result (self.new ≡ self.old ++ item ∷ []) }
        ensures err { OnErr result (self.new ≡ self.old) }
    {
        match &mut self.held {
            Some(items) => {
                items.push(item)?;
                Ok(())
            }
            None => {
                let mut items = Vec::new(alloc);
                items.push(item)?;
                self.held = Some(items);
                Ok(())
            }
        }
    }

    /// Writes one place.
    pub fn set(&mut self, at: usize, value: T)
        requires { at < length self.old }
        ensures { self.new ≡ slice_set self.old at value }
    {
        match &mut self.held {
            Some(items) => items[at] = value,
            None => unreachable!(),
        }
    }

    /// Leaves the empty list and keeps its memory for later items.
    pub fn clear(&mut self)
        ensures { self.new ≡ [] }
    {
        if let Some(items) = &mut self.held {
            items.clear();
        }
    }
}

impl<T: Copy> List<T> {
    /// The list of these items. It takes memory once, and just as much as they need.
    pub fn from_slice(alloc: Global, items: &[T]) -> Result<List<T>, NoMemory>
        ensures { IfOk result (λ it. it ≡ items.now) }
    {
        let held = Vec::from_slice(alloc, items)?;
        Ok(List { held: Some(held) })
    }
}

impl<T: Copied + Drop> List<T> {
    /// The same list again. It takes memory for the list once, beside what the items take.
    pub fn copy(&self, alloc: Global) -> Result<List<T>, NoMemory>
        ensures { IfOk result (λ it. it ≡ self.now) }
    {
        let items = self.as_slice();
        let mut held = Vec::with_capacity(alloc, items.len())?;
        for item in items {
            let again = item.copied(alloc)?;
            held.push(again)?;
        }
        Ok(List { held: Some(held) })
    }
}

impl<T: Copied + Drop> Copied for List<T> {
    fn copied(&self, alloc: Global) -> Result<List<T>, NoMemory> {
        self.copy(alloc)
    }
}
