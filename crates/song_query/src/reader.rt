//! Parses a query's text, character by character.

ghost use Rattle.std.specs.Prelude.{◌≡◌, ◌≤◌, ◌<◌, [], ◌∷◌, ◌++◌, Some, OnOk, IfOk, string_bytes};
ghost use Rattle.item_model.specs.Proper.{is_name_byte};
ghost use Rattle.item_model.specs.QuerySeen.{tree_of};
ghost use Rattle.song_query.specs.Grammar.{is_mark};
ghost use Rattle.song_query.specs.Machine.{begun, close, cond_of, due, empty_level, follow, go, here, is_blank, is_end, level_query, operate, shut, start, valued, with_unit};
ghost use Rattle.song_query.specs.Seen.{state_of, Stepped, Taken};

use crate::levels::{Level, Levels};
use crate::limits::OPEN_PARENTHESES;
use crate::parts::{Partial, Place, Reader, Refusal};
use item_model::{Op, Query, Texts};
use std::alloc::{AllocError, Global};
use std::mem::replace;

impl Reader {
    pub fn new(alloc: Global) -> Reader
        ensures { state_of result ≡ start }
    {
        Reader {
            alloc,
            place: Place::Due,
            partial: Partial::new(alloc),
            level: Level::empty(alloc),
            outer: Levels::new(alloc),
        }
    }

    /// Reads one character.
    pub fn take(&mut self, c: char) -> Result<(), Refusal>
        ensures { Taken (state_of self.old) c (state_of self.new) result }
    {
        if c.is_ascii() {
            self.take_ascii(c)
        } else {
            self.take_wide(c)
        }
    }

    fn take_ascii(&mut self, c: char) -> Result<(), Refusal>
        requires { c < 128 }
        ensures { Stepped (go (state_of self.old) c) (state_of self.new) result }
    {
        match self.place {
            Place::Due => self.due(c),
            Place::Close => self.close(c),
            Place::Apart => self.apart(c),
            Place::Opened => self.opened(c),
            Place::Named => self.named(c),
            Place::Begun => self.begun(c),
            Place::Valued => self.valued(c),
            Place::Slashed => self.slashed(c),
        }
    }

    fn due(&mut self, c: char) -> Result<(), Refusal>
        requires { self.old.place ≡ Place.Due }
        ensures { Stepped (go (state_of self.old) c) (state_of self.new) result }
    {
        if is_blank(c) {
            return Ok(());
        }
        if c == '\'' {
            self.place = Place::Opened;
            return Ok(());
        }
        if c == '(' {
            return self.open();
        }
        Err(Refusal::Byte)
    }

    fn close(&mut self, c: char) -> Result<(), Refusal>
        requires { self.old.place ≡ Place.Close }
        ensures { Stepped (go (state_of self.old) c) (state_of self.new) result }
    {
        if is_blank(c) {
            self.place = Place::Apart;
            return Ok(());
        }
        self.follow(c)
    }

    fn apart(&mut self, c: char) -> Result<(), Refusal>
        requires { self.old.place ≡ Place.Apart }
        ensures { Stepped (go (state_of self.old) c) (state_of self.new) result }
    {
        if is_blank(c) {
            return Ok(());
        }
        if c == '\'' {
            self.place = Place::Opened;
            return Ok(());
        }
        if c == '(' {
            return self.open();
        }
        self.follow(c)
    }

    // Opens a parenthesis.
    fn open(&mut self) -> Result<(), Refusal>
        ensures { Stepped (Some (here due empty_level (self.old.level ∷ self.old.outer)))
            (state_of self.new) result }
    {
        if self.outer.len() >= OPEN_PARENTHESES {
            return Err(Refusal::Deep);
        }
        let level = replace(&mut self.level, Level::empty(self.alloc));
        self.outer.push(level)?;
        self.place = Place::Due;
        Ok(())
    }

    // Reads a comma or a closing parenthesis after a unit.
    fn follow(&mut self, c: char) -> Result<(), Refusal>
        ensures { Stepped (follow self.old.level self.old.outer c) (state_of self.new) result }
    {
        if c == ',' {
            self.level.end_member(self.alloc)?;
            self.place = Place::Due;
            return Ok(());
        }
        if c == ')' {
            return self.close_listener();
        }
        Err(Refusal::Byte)
    }

    // Closes a parenthesis.
    fn close_listener(&mut self) -> Result<(), Refusal>
        ensures { Stepped (shut self.old.level self.old.outer) (state_of self.new) result }
    {
        let Some(around) = self.outer.pop() else {
            return Err(Refusal::Byte);
        };
        let inside = replace(&mut self.level, around);
        let query = inside.into_query(self.alloc)?;
        self.level.push_unit(query)?;
        self.place = Place::Close;
        Ok(())
    }

    fn opened(&mut self, c: char) -> Result<(), Refusal>
        requires place { self.old.place ≡ Place.Opened }
        requires ascii { c < 128 }
        ensures { Stepped (go (state_of self.old) c) (state_of self.new) result }
    {
        if !is_of_name(c) {
            return Err(Refusal::Byte);
        }
        self.partial.name.clear();
        self.partial.name.push(c)?;
        self.place = Place::Named;
        Ok(())
    }

    fn named(&mut self, c: char) -> Result<(), Refusal>
        requires place { self.old.place ≡ Place.Named }
        requires ascii { c < 128 }
        ensures { Stepped (go (state_of self.old) c) (state_of self.new) result }
    {
        if is_of_name(c) {
            self.partial.name.push(c)?;
            return Ok(());
        }
        self.operate(c)
    }

    // Reads the first character of the operator. A colon is the whole operator.
    fn operate(&mut self, c: char) -> Result<(), Refusal>
        ensures { Stepped (operate (string_bytes self.old.partial.name) self.old.level
            self.old.outer c) (state_of self.new) result }
    {
        match c {
            ':' => self.begin_value(Op::Is),
            '!' => self.begin_op(Op::IsNot),
            '<' => self.begin_op(Op::Less),
            '>' => self.begin_op(Op::More),
            _ => return Err(Refusal::Byte),
        }
        Ok(())
    }

    // Expects a colon next.
    fn begin_op(&mut self, op: Op)
        ensures { state_of self.new ≡ here
            (begun (string_bytes self.old.partial.name) op) self.old.level self.old.outer }
    {
        self.partial.op = op;
        self.place = Place::Begun;
    }

    fn begun(&mut self, c: char) -> Result<(), Refusal>
        requires { self.old.place ≡ Place.Begun }
        ensures { Stepped (go (state_of self.old) c) (state_of self.new) result }
    {
        if c != ':' {
            return Err(Refusal::Byte);
        }
        self.begin_value(self.partial.op);
        Ok(())
    }

    // Expects the value of the condition next.
    fn begin_value(&mut self, op: Op)
        ensures { state_of self.new ≡ here
            (valued (string_bytes self.old.partial.name) op [] []) self.old.level self.old.outer }
    {
        self.partial.op = op;
        self.partial.pieces = Texts::new(self.alloc);
        self.partial.piece.clear();
        self.place = Place::Valued;
    }

    fn valued(&mut self, c: char) -> Result<(), Refusal>
        requires place { self.old.place ≡ Place.Valued }
        requires ascii { c < 128 }
        ensures { Stepped (go (state_of self.old) c) (state_of self.new) result }
    {
        if c == '\'' {
            self.end_condition()?;
            return Ok(());
        }
        if c == '\\' {
            self.place = Place::Slashed;
            return Ok(());
        }
        if c == '*' {
            self.partial.end_piece(self.alloc)?;
            return Ok(());
        }
        self.partial.piece.push(c)?;
        Ok(())
    }

    fn end_condition(&mut self) -> Result<(), AllocError>
        ensures { OnOk result (state_of self.new
            ≡ here close (with_unit (cond_of
            (string_bytes self.old.partial.name) self.old.partial.op
            (self.old.partial.pieces ++ string_bytes self.old.partial.piece ∷ []))
            self.old.level) self.old.outer) }
    {
        self.partial.end_piece(self.alloc)?;
        let cond = self.partial.cond(self.alloc)?;
        self.level.push_unit(Query::Cond(cond))?;
        self.place = Place::Close;
        Ok(())
    }

    fn slashed(&mut self, c: char) -> Result<(), Refusal>
        requires place { self.old.place ≡ Place.Slashed }
        requires ascii { c < 128 }
        ensures { Stepped (go (state_of self.old) c) (state_of self.new) result }
    {
        if !is_mark(c) {
            self.partial.piece.push('\\')?;
        }
        self.partial.piece.push(c)?;
        self.place = Place::Valued;
        Ok(())
    }

    // A character above ASCII is only allowed in values.
    fn take_wide(&mut self, c: char) -> Result<(), Refusal>
        requires { 128 ≤ c }
        ensures { Taken (state_of self.old) c (state_of self.new) result }
    {
        match self.place {
            Place::Valued => {
                self.partial.piece.push(c)?;
                Ok(())
            }
            Place::Slashed => {
                self.partial.piece.push('\\')?;
                self.partial.piece.push(c)?;
                self.place = Place::Valued;
                Ok(())
            }
            _ => Err(Refusal::Byte),
        }
    }

    /// Returns whether a query may end here.
    pub fn is_end(&self) -> bool
        ensures { result ≡ is_end (state_of self.now) }
    {
        match self.place {
            Place::Close | Place::Apart => self.outer.len() == 0,
            _ => false,
        }
    }

    /// Returns the query of the characters that were read.
    pub fn into_query(self) -> Result<Query, AllocError>
        ensures { IfOk result (λ q. tree_of q ≡ level_query self.level) }
    {
        self.level.into_query(self.alloc)
    }
}

fn is_blank(c: char) -> bool
    ensures { result ≡ is_blank c }
{
    c == ' ' || c == '+'
}

fn is_mark(c: char) -> bool
    ensures { result ≡ is_mark c }
{
    c == '\'' || (c == '\\' || c == '*')
}

// A letter, a digit, a dot, an underscore or a hyphen.
fn is_of_name(c: char) -> bool
    ensures { result ≡ is_name_byte c }
{
    c.is_ascii_alphanumeric() || (c == '.' || (c == '_' || c == '-'))
}
