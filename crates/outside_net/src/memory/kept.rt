//! Lists with capacity that was allocated beforehand.
ghost use Rattle.std.specs.Prelude.{◌≡◌, ◌∷◌, ◌-◌, [], IfOk, None, Some};
ghost use Rattle.std.specs.Prelude.{option_and_then, option_copied};
ghost use Rattle.outside_net.specs.Kept.{kept_items, kept_room, keeps};

use std::alloc::{AllocError, Global};

/// A list that grows at its end and does not allocate. After an item that exceeds its capacity, it is unknown.
#[derive(Drop)]
pub(crate) struct BoundedLog<T> {
    items: Vec<T>,
    is_told: bool,
}

impl<T: Drop> BoundedLog<T> {
    /// Returns an empty list without capacity.
    pub(crate) fn new(alloc: Global) -> BoundedLog<T>
        ensures { kept_items result ≡ Some [] }
    {
        BoundedLog {
            items: Vec::new(alloc),
            is_told: true,
        }
    }

    /// Returns an empty list with capacity for `room` items.
    pub(crate) fn with_room(alloc: Global, room: usize) -> Result<BoundedLog<T>, AllocError>
        ensures items { IfOk result (λ kept. kept_items kept ≡ Some []) }
        ensures room { IfOk result (λ kept. kept_room kept ≡ room) }
    {
        Ok(BoundedLog {
            items: Vec::with_capacity(alloc, room)?,
            is_told: true,
        })
    }

    pub(crate) fn keep(&mut self, item: T)
        ensures items { kept_items self.new
            ≡ keeps (kept_items self.old) (kept_room self.old) (item ∷ []) }
        ensures room { kept_room self.new ≡ kept_room self.old - 1 }
    {
        if self.items.len() < self.items.capacity() {
            self.items.push_reserved(item);
        } else {
            self.is_told = false;
        }
    }

    /// Makes the list unknown.
    pub(crate) fn end(&mut self)
        ensures items { kept_items self.new ≡ None }
        ensures room { kept_room self.new ≡ kept_room self.old }
    {
        self.is_told = false;
    }

    /// Appends all items of a list. An unknown one makes this one unknown.
    pub(crate) fn keep_all(&mut self, mut more: BoundedLog<T>)
        ensures items { kept_items self.new
            ≡ option_and_then (keeps (kept_items self.old) (kept_room self.old)) (kept_items more) }
    {
        if more.is_told && more.items.len() <= self.items.capacity() - self.items.len() {
            self.items.append(&mut more.items).unwrap();
        } else {
            self.is_told = false;
        }
    }

    /// Returns the items, if they are known.
    pub(crate) fn items(&self) -> Option<&[T]>
        ensures { option_copied result ≡ kept_items self.now }
    {
        if self.is_told {
            Some(self.items.as_slice())
        } else {
            None
        }
    }
}
