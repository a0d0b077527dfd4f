//! The queries of the mirrors.

ghost use Rattle.std.specs.Prelude.{◌≡◌, ◌<◌, Some, IfOk, length};
ghost use Rattle.item_model.specs.declared.query.Query.TheVariants.{Cond as CondOf};
ghost use Rattle.item_model.specs.declared.condition.Op.TheVariants.{Is};
ghost use Rattle.rehearsal.specs.Queries.{artist_query, year_query};

use dmap_tags::Text;
use item_model::{Cond, Op, Pattern, Query};
use std::alloc::{AllocError, Global};

// Artists that begin with `a1`.
pub(crate) fn artist_query(alloc: Global) -> Result<Query, AllocError>
    ensures { IfOk result (λ query. Some query ≡ artist_query) }
{
    let pieces = vec![in alloc; Text::of(alloc, "a1")?, Text::of(alloc, "")?]?;
    condition(alloc, "daap.songartist", pieces)
}

// The year 1983.
pub(crate) fn year_query(alloc: Global) -> Result<Query, AllocError>
    ensures { IfOk result (λ query. Some query ≡ year_query) }
{
    let pieces = vec![in alloc; Text::of(alloc, "1983")?]?;
    condition(alloc, "daap.songyear", pieces)
}

fn condition(alloc: Global, name: &str, pieces: Vec<Text>) -> Result<Query, AllocError>
    requires { 0 < length pieces.items }
    ensures { IfOk result (λ query. query
        ≡ CondOf (record { name = name.now; op = Is; pattern = pieces.items })) }
{
    Ok(Query::Cond(Cond {
        name: Text::of(alloc, name)?,
        op: Op::Is,
        pattern: Pattern::new(alloc, pieces)?,
    }))
}
