//! A vector that contracts compare as a list.
ghost use Rattle.std.specs.Prelude.{◌≡◌, ◌<◌, [], ◌∷◌, ◌++◌, length, slice_index_or, slice_set, IfOk, OnOk, OnErr};
ghost use Rattle.std.specs.List.{remove};

use mc_memory::{Refused, from_slice, push};
use std::alloc::Global;
use std::marker::Model;

/// Values, one after another. Two series of the same values are equal, whatever room they have.
#[derive(Drop)]
pub struct Series<T> {
    pub(crate) items: Vec<T>,
}

impl<T> Model for Series<T> {
    ghost use Rattle.std.specs.Prelude.{List};

    ghost Value = { List T };

    ghost view = { λ series. series.items.items };
}

impl<T> Series<T> {
    /// A series without values.
    pub fn new(alloc: Global) -> Series<T>
        ensures { result ≡ [] }
    {
        Series {
            items: Vec::new(alloc),
        }
    }

    /// The values.
    pub fn as_slice(&self) -> &[T]
        ensures { result.now ≡ self.now }
    {
        self.items.as_slice()
    }
}

impl<T: Copy> Series<T> {
    /// A series of the same values as these.
    pub fn copy_of(alloc: Global, values: &[T]) -> Result<Series<T>, Refused>
        ensures { IfOk result (λ series. series ≡ values.now) }
    {
        let items = from_slice(alloc, values)?;
        Ok(Series { items })
    }
}

impl<T: Drop> Series<T> {
    /// Adds a value behind the others.
    pub fn push(&mut self, value: T) -> Result<(), Refused>
        ensures added { OnOk result (self.new ≡ self.old ++ value ∷ []) }
        ensures refused { OnErr result (self.new ≡ self.old) }
    {
        push(&mut self.items, value)
    }

    /// Takes a value out.
    pub fn remove(&mut self, place: usize) -> T
        requires { place < length self.old }
        ensures value { result ≡ slice_index_or self.old place result }
        ensures rest { self.new ≡ remove self.old place }
    {
        self.items.remove(place)
    }

    /// Writes a value, where there is one.
    pub fn set(&mut self, place: usize, value: T)
        ensures { self.new ≡ slice_set self.old place value }
    {
        if place < self.items.len() {
            self.items[place] = value;
        }
    }
}
