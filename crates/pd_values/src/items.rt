//! A list whose contract is the list of its items.
ghost use Rattle.std.specs.Prelude.{◌≡◌, ◌<◌, [], ◌∷◌, ◌++◌, length, IsTrue, IsFalse, OnOk, option_copied, slice_get, slice_set};

use std::alloc::AllocError;
use std::marker::Model;

/// A vector that contracts see as the list of its items.
#[derive(Drop)]
pub struct Items<T: Drop> {
    held: Vec<T>,
}

impl<T: Drop> Model for Items<T> {
    ghost use Rattle.std.specs.Prelude.{List};

    ghost Value = { List T };

    ghost view = { λ v. v.held.items };
}

impl<T: Drop> Items<T> {
    /// The list of these items. It takes no memory.
    pub fn of(held: Vec<T>) -> Items<T>
        ensures { result ≡ held.items }
    {
        Items { held }
    }

    /// The items as a slice.
    pub fn as_slice(&self) -> &[T]
        ensures { result.now ≡ self.now }
    {
        self.held.as_slice()
    }

    /// Whether the list has no item.
    pub fn is_empty(&self) -> bool
        ensures empty { IsTrue result → self.now ≡ [] }
        ensures some { IsFalse result → (0 < length self.now) }
    {
        self.held.is_empty()
    }

    /// The item at a position, counted from 0.
    pub fn get(&self, i: usize) -> Option<&T>
        ensures { option_copied result ≡ slice_get self.now i }
    {
        self.held.get(i)
    }

    /// Puts a value at a position, counted from 0; past the end nothing changes.
    pub fn set(&mut self, i: usize, value: T)
        ensures { self.new ≡ slice_set self.old i value }
    {
        if i < self.held.len() {
            self.held[i] = value;
        }
    }

    /// Puts a value at the end. Where memory runs out it answers `AllocError`.
    pub fn push(&mut self, value: T) -> Result<(), AllocError>
        ensures { OnOk result (self.new ≡ self.old ++ value ∷ []) }
    {
        self.held.push(value)?;
        Ok(())
    }
}
