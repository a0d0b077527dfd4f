//! The levels of a query during parsing: one for each open parenthesis and one for the text.

ghost use Rattle.std.specs.Prelude.{◌≡◌, ◌≢◌, ◌∷◌, [], OnOk, OnErr, IfOk, MatchOption, MatchResult, length};
ghost use Rattle.item_model.specs.QueryTree.{and_of, or_of};
ghost use Rattle.item_model.specs.QuerySeen.{tree_of};
ghost use Rattle.song_query.specs.Grammar.{joined};

use item_model::{Queries, Query};
use std::alloc::{AllocError, Global};
use std::marker::Model;
use std::mem::replace;

/// An `Or` during parsing, with its last member.
#[derive(Drop)]
pub struct Level {
    /// The complete members.
    pub members: Queries,
    /// The units of the member that is being parsed.
    pub units: Queries,
}

/// Levels, the innermost first.
#[derive(Drop)]
pub struct Levels {
    items: Vec<Level>,
}

impl Model for Levels {
    ghost use Rattle.std.specs.Prelude.{List, reverse};
    ghost use Rattle.std.specs.Coded.{codes};
    ghost use Rattle.item_model.specs.QueryCells.{query_coded};
    ghost use Rattle.song_query.specs.declared.levels.Level.{Level};

    ghost Value = { List Level };

    ghost coded = { Prim.hlevel (codes, query_coded) };

    ghost view = { λ a. reverse a.items.items };
}

impl Levels {
    pub fn new(alloc: Global) -> Levels
        ensures { result ≡ [] }
    {
        Levels {
            items: Vec::new(alloc),
        }
    }

    pub fn len(&self) -> usize
        ensures { result ≡ length self.now }
    {
        self.items.len()
    }

    /// Adds a new innermost level. If it fails, the levels are unchanged.
    pub fn push(&mut self, level: Level) -> Result<(), AllocError>
        ensures ok { OnOk result (self.new ≡ level ∷ self.old) }
        ensures err { OnErr result (self.new ≡ self.old) }
    {
        self.items.push(level)?;
        Ok(())
    }

    /// Removes and returns the innermost level.
    pub fn pop(&mut self) -> Option<Level>
        ensures { MatchOption result ((self.old ≡ []) × (self.new ≡ []))
            (λ l. self.old ≡ l ∷ self.new) }
    {
        self.items.pop()
    }
}

impl Level {
    ghost use Rattle.song_query.specs.Machine.{empty_level, level_query, with_member, with_unit};

    pub fn empty(alloc: Global) -> Level
        ensures { result ≡ empty_level }
    {
        Level {
            members: Queries::new(alloc),
            units: Queries::new(alloc),
        }
    }

    pub fn push_unit(&mut self, unit: Query) -> Result<(), AllocError>
        ensures { OnOk result (self.new ≡ with_unit (tree_of unit) self.old) }
    {
        self.units.push(unit)
    }

    /// Completes the last member.
    pub fn end_member(&mut self, alloc: Global) -> Result<(), AllocError>
        ensures { OnOk result (self.new ≡ with_member self.old) }
    {
        let units = replace(&mut self.units, Queries::new(alloc));
        self.members.push(all(units))
    }

    /// Completes the last member and returns the query of the level.
    pub fn into_query(mut self, alloc: Global) -> Result<Query, AllocError>
        ensures { IfOk result (λ q. tree_of q ≡ level_query self) }
    {
        self.end_member(alloc)?;
        Ok(any(self.members))
    }
}

// Returns the `And` of the units, or the only unit.
fn all(units: Queries) -> Query
    ensures { tree_of result ≡ joined and_of units }
{
    match only(units) {
        Ok(query) => query,
        Err(units) => Query::And(units),
    }
}

// Returns the `Or` of the members, or the only member.
fn any(members: Queries) -> Query
    ensures { tree_of result ≡ joined or_of members }
{
    match only(members) {
        Ok(query) => query,
        Err(members) => Query::Or(members),
    }
}

// Returns the query if there is exactly one, and the queries as they are otherwise.
fn only(queries: Queries) -> Result<Query, Queries>
    ensures { MatchResult result (λ q. queries ≡ tree_of q ∷ []) (λ qs. (qs ≡ queries)
        × (length queries ≢ 1)) }
{
    let mut items = queries.into_vec();
    if items.len() != 1 {
        return Err(Queries::of(items));
    }
    match items.pop() {
        Some(query) => Ok(query),
        None => Err(Queries::of(items)),
    }
}
