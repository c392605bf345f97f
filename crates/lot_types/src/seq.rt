//! Lists.

ghost use Rattle.std.specs.Prelude.{◌≡◌, [], ◌∷◌, ◌++◌, IfNone, IfOk, IfSome, OnOk, OnErr};

use crate::{Duplicate, Memory};
use std::alloc::Global;
use std::marker::Model;

/// A list that keeps its allocator. Contracts see it as the list of its items, so that a copy equals its source.
#[derive(Drop)]
pub struct Seq<T> {
    items: Vec<T>,
}

impl<T> Model for Seq<T> {
    ghost use Rattle.std.specs.Prelude.{List};
    ghost use Rattle.std.specs.Coded.{coded_list};

    ghost Value = { List T };

    ghost coded = { coded_list T.code };

    ghost view = { λ it. it.items.items };
}

impl<T> Seq<T> {
    /// The empty list. It takes no memory.
    pub fn new(alloc: Global) -> Seq<T>
        ensures { result ≡ [] }
    {
        Seq {
            items: Vec::new(alloc),
        }
    }

    /// The empty list with room for `capacity` items, which are pushed without more memory. Want of memory is the one
    /// refusal.
    pub fn with_capacity(alloc: Global, capacity: usize) -> Result<Seq<T>, Memory>
        ensures { IfOk result (λ made. made ≡ []) }
    {
        Ok(Seq {
            items: Vec::with_capacity(alloc, capacity)?,
        })
    }

    /// The list of the items of a vector. It takes no memory.
    pub fn of_vec(items: Vec<T>) -> Seq<T>
        ensures { result ≡ items.items }
    {
        Seq { items }
    }

    /// The vector of its items. It takes no memory.
    pub fn into_vec(self) -> Vec<T>
        ensures { result.items ≡ self }
    {
        self.items
    }

    /// The items in order.
    pub fn items(&self) -> &[T]
        ensures { result.now ≡ self.now }
    {
        self.items.as_slice()
    }

    /// The allocator of its items.
    pub fn allocator(&self) -> Global {
        *self.items.allocator()
    }

    /// Takes the last item away and returns it. `None` exactly where the list is empty.
    pub fn pop(&mut self) -> Option<T>
        ensures none { IfNone result (self.old ≡ []) }
        ensures unchanged { IfNone result (self.new ≡ []) }
        ensures last { IfSome result (λ last. self.old ≡ self.new ++ last ∷ []) }
    {
        self.items.pop()
    }
}

impl<T: Drop> Seq<T> {
    /// Puts an item at the end. Want of memory is the one refusal; the list is then unchanged, and the item is dropped.
    pub fn push(&mut self, x: T) -> Result<(), Memory>
        ensures ok { OnOk result (self.new ≡ self.old ++ x ∷ []) }
        ensures err { OnErr result (self.new ≡ self.old) }
    {
        self.items.push(x)?;
        Ok(())
    }
}

impl<T: Duplicate> Duplicate for Seq<T> {
    fn copy(&self) -> Result<Seq<T>, Memory> {
        let mut made = Seq::with_capacity(*self.items.allocator(), self.items.len())?;
        for x in self.items() {
            made.push(x.copy()?)?;
        }
        Ok(made)
    }
}
