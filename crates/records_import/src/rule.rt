// Rules: the queries of smart playlists.

ghost use Rattle.std.specs.Prelude.{◌≢◌, Ok, Err, MatchResult};
ghost use Rattle.records_import.specs.Rules.{RuleReads};

use item_model::{Query, QueryError};
use song_query::read;
use std::alloc::Global;

/// Returns the query of a rule's text.
pub fn read_rule(alloc: Global, text: &str) -> Result<Query, QueryError>
    ensures { MatchResult result (λ rule. RuleReads text.now (Ok rule)) (λ e. e ≢ QueryError.Memory
        → RuleReads text.now (Err e)) }
{
    read(alloc, text)
}
