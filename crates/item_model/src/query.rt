//! Queries.

ghost use Rattle.std.specs.Prelude.{◌≡◌, ◌++◌, ◌∷◌, [], OnOk, OnErr, IfOk, MatchResult, map, length, ◌≢◌};

use crate::condition::Cond;
use std::alloc::{AllocError, Global};
use std::marker::Model;

/// A condition on rows. `And` and `Or` have two or more members.
#[cycle(query)]
#[derive(Debug, Drop)]
pub enum Query {
    Cond(Cond),
    And(Queries),
    Or(Queries),
}

/// The members of a query, in order.
#[cycle(query)]
#[derive(Debug)]
pub struct Queries {
    items: Vec<Query>,
}

impl Drop for Queries {
    #[cycle(letting_go)]
    fn drop(self) {
        let Queries { items: _ } = self;
    }
}

impl Model for Queries {
    ghost use Rattle.std.specs.Prelude.{List, map};
    ghost use Rattle.std.specs.Coded.{coded_list};
    ghost use Rattle.item_model.specs.QueryTree.{QueryTree, queries_of, query_sizes};
    ghost use Rattle.item_model.specs.QueryCells.{query_coded};

    ghost Value = { List QueryTree };

    ghost coded = { coded_list query_coded };

    ghost use Rattle.item_model.specs.QuerySeen.{tree_of};

    ghost view = { λ a. map tree_of a.items.items };

    ghost size = { λ qs. query_sizes (queries_of qs) };

    ghost use Rattle.item_model.specs.QueryFalls.{most_within};
    ghost use Rattle.std.proofs.Common.{arith};

    ghost size_decreases = { λ a h. omega (arith, most_within a.items.items) };
}

impl Queries {
    ghost use Rattle.item_model.specs.QuerySeen.{tree_of};

    /// Returns an empty list. Does not allocate.
    pub fn new(alloc: Global) -> Queries
        ensures { result ≡ [] }
    {
        Queries {
            items: Vec::new(alloc),
        }
    }

    /// Returns the queries of the vector, without copying them.
    pub fn of(items: Vec<Query>) -> Queries
        ensures { result ≡ map tree_of items.items }
    {
        Queries { items }
    }

    pub fn as_slice(&self) -> &[Query]
        ensures { map tree_of result.now ≡ self.now }
    {
        self.items.as_slice()
    }

    /// Returns the queries as a vector. Does not allocate.
    pub fn into_vec(self) -> Vec<Query>
        ensures { map tree_of result.items ≡ self }
    {
        let Queries { items } = self;
        items
    }

    /// Appends a query. If it fails, the queries are unchanged.
    pub fn push(&mut self, query: Query) -> Result<(), AllocError>
        ensures ok { OnOk result (self.new ≡ self.old ++ tree_of query ∷ []) }
        ensures err { OnErr result (self.new ≡ self.old) }
    {
        self.items.push(query)?;
        Ok(())
    }

    /// Returns the query if there is exactly one, and the list as it is otherwise.
    pub fn single(self) -> Result<Query, Queries>
        ensures { MatchResult result (λ query. self ≡ tree_of query ∷ [])
            (λ queries. (queries ≡ self) × (length self ≢ 1)) }
    {
        let Queries { mut items } = self;
        if items.len() != 1 {
            return Err(Queries { items });
        }
        match items.pop() {
            Some(query) => Ok(query),
            None => Err(Queries { items }),
        }
    }

    /// Returns copies of the queries, in order.
    #[cycle(copy)]
    pub fn copy(&self) -> Result<Queries, AllocError>
        ensures { IfOk result (λ c. c ≡ self.now) }
    {
        let items = copies(*self.items.allocator(), self.items.as_slice())?;
        Ok(Queries { items })
    }
}

impl Query {
    /// Returns a copy of the query.
    #[cycle(copy)]
    pub fn copy(&self) -> Result<Query, AllocError>
        ensures { IfOk result (λ c. c ≡ self.now) }
    {
        match self {
            Query::Cond(cond) => Ok(Query::Cond(cond.copy()?)),
            Query::And(queries) => Ok(Query::And(queries.copy()?)),
            Query::Or(queries) => Ok(Query::Or(queries.copy()?)),
        }
    }
}

/// Returns copies of queries, in order.
#[cycle(copy)]
fn copies(alloc: Global, queries: &[Query]) -> Result<Vec<Query>, AllocError>
    ensures { IfOk result (λ v. v.items ≡ queries.now) }
{
    let mut copies = Vec::with_capacity(alloc, queries.len())?;
    for query in queries {
        copies.push(query.copy()?)?;
    }
    Ok(copies)
}
