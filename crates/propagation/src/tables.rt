//! Lists and values by number.
ghost use Rattle.std.specs.Prelude.{◌≡◌, ◌==◌, ◌<◌, ◌++◌, ◌∷◌, ℕ, [], length, slice_set};
ghost use Rattle.std.specs.Prelude.{OnOk, IfOk, Some, None, replicate, if◌then◌else◌};
ghost use Rattle.propagation.specs.inside.Engine.{list_at, is_value, is_known};

use ks_base::ListOf;
use std::alloc::{AllocError, Global};
use std::marker::Model;
use std::mem;

/// A choice by its place, and what it says: the value of an unknown, or the section of which something is asked.
#[derive(Clone, Copy)]
pub(crate) struct Entry {
    pub choice: usize,
    pub value: u32,
}

/// A list for each number, empty where nothing was put. A clause sees those up to the greatest number that was used.
#[derive(Drop)]
pub(crate) struct Table<T> {
    lists: Vec<ListOf<T>>,
}

impl<T> Model for Table<T> {
    ghost use Rattle.std.specs.Prelude.{List};

    ghost Value = { List (List T) };

    ghost view = { λ t. t.lists.items };
}

impl<T: Drop> Table<T> {
    /// The table of empty lists.
    pub(crate) fn new(alloc: Global) -> Self
        ensures { result ≡ [] }
    {
        Table {
            lists: Vec::new(alloc),
        }
    }

    /// The first number after those that were used.
    pub(crate) fn len(&self) -> usize
        ensures { result ≡ length self.now }
    {
        self.lists.len()
    }

    /// Makes room for a number.
    fn grow(&mut self, alloc: Global, key: usize) -> Result<(), AllocError>
        ensures room { OnOk result (key < length self.new) }
        ensures lists { OnOk result ((k : ℕ) → list_at self.new k ≡ list_at self.old k) }
    {
        'room: while self.lists.len() <= key {
            self.lists.push(ListOf::new(alloc))?;
        }
        Ok(())
    }

    /// Puts an item at the end of a number's list.
    pub(crate) fn push(&mut self, alloc: Global, key: usize, item: T) -> Result<(), AllocError>
        ensures { OnOk result ((k : ℕ) →
            list_at self.new k ≡ (if k == key then list_at self.old k ++ item ∷ [] else list_at self.old k)) }
    {
        self.grow(alloc, key)?;
        let list = &mut self.lists[key];
        list.push(item)
    }

    /// A number's list.
    pub(crate) fn get(&self, key: usize) -> &[T]
        ensures { result.now ≡ list_at self.now key }
    {
        match self.lists.as_slice().get(key) {
            Some(list) => list.as_slice(),
            None => &[],
        }
    }

    /// Takes a number's list out, which leaves an empty one.
    pub(crate) fn take(&mut self, alloc: Global, key: usize) -> Vec<T>
        ensures items { result.items ≡ list_at self.old key }
        ensures after { self.new ≡ slice_set self.old key [] }
    {
        if key < self.lists.len() {
            mem::replace(&mut self.lists[key], ListOf::new(alloc)).into_vec()
        } else {
            Vec::new(alloc)
        }
    }

    /// Puts a list in the place of a number's list, where that isn't past the table's end.
    pub(crate) fn put(&mut self, key: usize, list: Vec<T>)
        ensures { self.new ≡ slice_set self.old key list.items }
    {
        if key < self.lists.len() {
            self.lists[key] = ListOf::from_vec(list);
        }
    }
}

/// A value for each of the first numbers, or none.
#[derive(Drop)]
pub(crate) struct Known {
    values: Vec<Option<u32>>,
}

impl Model for Known {
    ghost use Rattle.std.specs.Prelude.{List, Option, ℕ};

    ghost Value = { List (Option ℕ) };

    ghost view = { λ k. k.values.items };
}

/// Whether there is a value, and it is this one.
fn is_wanted(value: Option<u32>, wanted: u32) -> bool
    ensures { result ≡ is_value value wanted }
{
    match value {
        Some(value) => value == wanted,
        None => false,
    }
}

impl Known {
    /// Room for a value for each number below one, with no value.
    pub(crate) fn new(alloc: Global, room: usize) -> Result<Self, AllocError>
        ensures { IfOk result (λ known. known ≡ replicate room None) }
    {
        Ok(Known {
            values: vec![in alloc; None; room]?,
        })
    }

    /// Whether a number has this value.
    pub(crate) fn is(&self, key: usize, wanted: u32) -> bool
        ensures { result ≡ is_known self.now key wanted }
    {
        match self.values.as_slice().get(key) {
            Some(value) => is_wanted(*value, wanted),
            None => false,
        }
    }

    /// Gives a number a value, where it is one of the first numbers.
    pub(crate) fn set(&mut self, key: usize, value: u32)
        ensures { self.new ≡ slice_set self.old key (Some value) }
    {
        if key < self.values.len() {
            self.values[key] = Some(value);
        }
    }
}
