//! The state of the parser of queries.

ghost use Rattle.song_query.specs.Limits.{open_parentheses};
ghost use Rattle.std.specs.Prelude.{◌≡◌, ◌≤◌, ◌<◌, [], ◌++◌, ◌∷◌, OnOk, IfOk, string_bytes, length};

use crate::levels::{Level, Levels};
use dmap_tags::Text;
use item_model::{Cond, Op, Pattern, Texts};
use std::alloc::{AllocError, Global};
use std::mem::replace;

/// The position in a query at which the next character is read.
#[derive(Clone, Copy)]
pub enum Place {
    /// A unit is expected.
    Due,
    /// Right after a unit.
    Close,
    /// After a unit and blanks.
    Apart,
    /// After the quote that begins a condition.
    Opened,
    /// In a name.
    Named,
    /// After the first character of an operator of two.
    Begun,
    /// In a value.
    Valued,
    /// After a backslash in a value.
    Slashed,
}

/// Errors of a character.
#[derive(Drop)]
pub enum Refusal {
    /// No query continues with it.
    Byte,
    /// It opens one parenthesis too many.
    Deep,
    Memory,
}

impl From<AllocError> for Refusal {
    ghost use Rattle.std.specs.Prelude.{◌≡◌};
    ghost use Rattle.song_query.specs.declared.parts.Refusal.TheVariants.{Memory};

    ghost from_gives = { λ _ e. e ≡ Memory };

    fn from(_error: AllocError) -> Refusal {
        Refusal::Memory
    }
}

/// The condition that is being parsed.
#[derive(Drop)]
pub struct Partial {
    pub name: String,
    pub op: Op,
    pub pieces: Texts,
    pub piece: String,
}

/// The parser, after some characters of a text.
#[derive(Drop)]
pub struct Reader {
    pub alloc: Global,
    pub place: Place,
    pub partial: Partial,
    pub level: Level,
    pub outer: Levels,
    pub ghost shallow: { length outer ≤ open_parentheses },
}

impl Partial {
    pub fn new(alloc: Global) -> Partial {
        Partial {
            name: String::new(alloc),
            op: Op::Is,
            pieces: Texts::new(alloc),
            piece: String::new(alloc),
        }
    }

    /// Ends a part at a wildcard or at the end of the value, and begins the next, which is empty.
    pub fn end_piece(&mut self, alloc: Global) -> Result<(), AllocError>
        ensures pieces { OnOk result
            (self.new.pieces ≡ self.old.pieces ++ string_bytes self.old.piece ∷ []) }
        ensures piece { OnOk result (string_bytes self.new.piece ≡ []) }
        ensures name { string_bytes self.new.name ≡ string_bytes self.old.name }
        ensures op { self.new.op ≡ self.old.op }
    {
        let piece = Text::of(alloc, self.piece.as_str())?;
        self.pieces.push(piece)?;
        self.piece.clear();
        Ok(())
    }

    /// Returns the condition, and moves its parts out.
    pub fn cond(&mut self, alloc: Global) -> Result<Cond, AllocError>
        requires { 0 < length self.old.pieces }
        ensures { IfOk result (λ c. (c.name ≡ string_bytes self.old.name) × (c.op ≡ self.old.op)
            × (c.pattern ≡ self.old.pieces)) }
    {
        let name = Text::of(alloc, self.name.as_str())?;
        let pieces = replace(&mut self.pieces, Texts::new(alloc));
        Ok(Cond {
            name,
            op: self.op,
            pattern: Pattern::new(alloc, pieces.into_vec())?,
        })
    }
}
