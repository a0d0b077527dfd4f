//! A list of numbers, the state of this lock.
ghost use Rattle.std.specs.Prelude.{◌≡◌, ◌++◌, [], ◌∷◌, vec_len, OnErr, OnOk, length};

use share_lock::Recorded;
use std::alloc::{AllocError, Global};

/// A number, and the handle that added it.
#[derive(Clone, Copy)]
pub struct Number {
    pub by: u32,
    pub value: u64,
}

/// Numbers in the order in which they were added.
#[derive(Drop)]
pub struct Numbers {
    pub items: Vec<Number>,
}

impl Numbers {
    /// Returns an empty list. Does not allocate.
    pub fn new(alloc: Global) -> Numbers
        ensures { result.items.items ≡ [] }
    {
        Numbers {
            items: Vec::new(alloc),
        }
    }

    /// Appends a number.
    pub fn add(&mut self, by: u32, value: u64) -> Result<(), AllocError>
        ensures ok { OnOk result (self.new.items.items
            ≡ self.old.items.items ++ record { by = by; value = value } ∷ []) }
        ensures err { OnErr result (self.new.items.items ≡ self.old.items.items) }
    {
        self.items.push(Number { by, value })?;
        Ok(())
    }
}

impl Recorded for Numbers {
    ghost use Rattle.lock_trials.specs.Made.{by_of, numbers_in};

    type Entry = Number;

    type Settings = ();

    ghost entries = { numbers_in };

    ghost by = { by_of };

    ghost settings = { λ _. tt };

    ghost unset = { tt };

    fn recorded(&self) -> u64 {
        self.items.len() as u64
    }
}
