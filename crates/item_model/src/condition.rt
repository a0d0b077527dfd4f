//! Conditions on one property.

ghost use Rattle.std.specs.Prelude.{◌≡◌, ◌<◌, IfOk, length, map};
ghost use Rattle.item_model.specs.Folding.{folded};

use crate::folds::folds_of;
use crate::texts::copies;
use dmap_tags::Text;
use std::alloc::{AllocError, Global};
use std::marker::Model;

/// The operator of a condition.
#[derive(Clone, Copy, Debug, PartialEq, Eq)]
pub enum Op {
    /// The property matches the pattern.
    Is,
    /// The property does not match the pattern.
    IsNot,
    /// The property is a number below the pattern's.
    Less,
    /// The property is a number above the pattern's.
    More,
}

/// The literal parts of a condition's value, one or more, with a wildcard between each two. The folded parts are
/// stored too.
#[derive(Debug)]
pub struct Pattern {
    pieces: Vec<Text>,
    folds: Vec<Text>,
}

impl Drop for Pattern {
    fn drop(self) {
        let Pattern {
            pieces: _,
            folds: _,
        } = self;
    }
}

impl Model for Pattern {
    ghost use Rattle.std.specs.Prelude.{◌≡◌, ℕ, List, map};
    ghost use Rattle.item_model.specs.Folding.{folded};

    ghost Value = { List (List ℕ) };

    ghost view = { λ a. a.pieces.items };

    ghost invariant = { λ a. a.folds.items ≡ map folded a.pieces.items };
}

/// A condition on the property with the name.
#[derive(Debug, Drop)]
pub struct Cond {
    pub name: Text,
    pub op: Op,
    pub pattern: Pattern,
}

impl Pattern {
    /// Returns the pattern with these parts, without copying them. Returns `AllocError` if the folded parts cannot be
    /// allocated.
    pub fn new(alloc: Global, pieces: Vec<Text>) -> Result<Pattern, AllocError>
        requires { 0 < length pieces.items }
        ensures { IfOk result (λ p. p ≡ pieces.items) }
    {
        let folds = folds_of(alloc, pieces.as_slice())?;
        Ok(Pattern { pieces, folds })
    }

    /// Returns the parts as they were written.
    pub fn pieces(&self) -> &[Text]
        ensures { result.now ≡ self.now }
    {
        self.pieces.as_slice()
    }

    /// Returns the folded parts.
    pub fn folded(&self) -> &[Text]
        ensures { result.now ≡ map folded self.now }
    {
        self.folds.as_slice()
    }

    /// Returns a copy of the pattern.
    pub fn copy(&self) -> Result<Pattern, AllocError>
        ensures { IfOk result (λ c. c ≡ self.now) }
    {
        let alloc = *self.pieces.allocator();
        let pieces = copies(alloc, self.pieces.as_slice())?;
        let folds = copies(alloc, self.folds.as_slice())?;
        Ok(Pattern { pieces, folds })
    }
}

impl Cond {
    /// Returns a copy of the condition.
    pub fn copy(&self) -> Result<Cond, AllocError>
        ensures { IfOk result (λ c. c ≡ self.now) }
    {
        Ok(Cond {
            name: self.name.copy()?,
            op: self.op,
            pattern: self.pattern.copy()?,
        })
    }
}
