//! Reads the arguments of `follow` that say what it mirrors.

ghost use Rattle.std.specs.Prelude.{◌≡◌, Some, option_copied, IfOk, IfErr};
ghost use Rattle.share_asks.specs.Valid.{MayAsk};
ghost use Rattle.link_commands.specs.LookFaults.{IsLookFault, query_fault, meta_fault};
ghost use Rattle.link_commands.specs.Looks.{AsksMirror, AsksQuery, HasRefusal, meta_or_default};

use crate::follow::FollowFault;
use command_core::Fault;
use dmap_tags::Text;
use item_model::{Meta, MetaError, Query, QueryError, Target};
use mirror_core::Mirror;
use song_query::read;
use std::alloc::Global;

/// Returns an empty mirror of `target`, for the texts of `--query` and `--meta`, if there are any.
pub(crate) fn mirror_for(
    alloc: Global,
    query: Option<&Text>,
    meta: Option<&Text>,
    target: Target,
) -> Result<Mirror, Fault<FollowFault>>
    ensures asks { IfOk result (λ m. AsksMirror (option_copied query.entry)
        (option_copied meta.entry) target m) }
    ensures proper { IfOk result (λ m. MayAsk m.query) }
    ensures refused { IfErr result
        (λ fault. IsLookFault (option_copied query.entry) (option_copied meta.entry) fault) }
{
    let query = match query_of(alloc, query) {
        Ok(query) => query,
        Err(error) => return Err(query_fault(error)),
    };
    match meta_of(alloc, meta) {
        Ok(meta) => Ok(Mirror::new(alloc, target, query, meta)),
        Err(error) => Err(meta_fault(error)),
    }
}

fn query_of(alloc: Global, text: Option<&Text>) -> Result<Option<Query>, QueryError>
    ensures read { IfOk result (λ query. AsksQuery (option_copied text.entry) query) }
    ensures proper { IfOk result MayAsk }
    ensures refused { IfErr result (λ error. HasRefusal (option_copied text.entry) error) }
{
    match text {
        Some(text) => match read(alloc, text.as_str()) {
            Ok(query) => Ok(Some(query)),
            Err(error) => Err(error),
        },
        None => Ok(None),
    }
}

fn query_fault(error: QueryError) -> Fault<FollowFault>
    ensures { result ≡ query_fault error }
{
    match error {
        QueryError::Memory => Fault::Memory,
        refusal => Fault::Own(FollowFault::Query(refusal)),
    }
}

fn meta_of(alloc: Global, text: Option<&Text>) -> Result<Meta, MetaError>
    ensures read { IfOk result (λ meta. meta_or_default (option_copied text.entry) ≡ Some meta) }
    ensures refused { result ≡ Err MetaError.TooMany
        → meta_or_default (option_copied text.entry) ≡ None }
{
    match text {
        Some(text) => Meta::read(alloc, text.as_str()),
        None => Ok(Meta::Default),
    }
}

fn meta_fault(error: MetaError) -> Fault<FollowFault>
    ensures { result ≡ meta_fault error }
{
    match error {
        MetaError::TooMany => Fault::Own(FollowFault::Meta),
        MetaError::Memory => Fault::Memory,
    }
}
