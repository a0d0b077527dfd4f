//! Reads the arguments of `list` that say what it shows.

ghost use Rattle.std.specs.Prelude.{◌≡◌, Some, option_copied, IfOk, IfErr};
ghost use Rattle.share_commands.specs.Looks.{AsksQuery, AsksLook, meta_or_default};
ghost use Rattle.share_commands.specs.LookFaults.{IsQueryFault, IsMetaFault, query_fault, meta_fault};
ghost use Rattle.share_commands.specs.ListShare.{StopsBeforeReading};

use crate::list::ListFault;
use command_core::Fault;
use dmap_tags::Text;
use item_model::{Look, Meta, MetaError, Query, QueryError, Range};
use song_query::read;
use std::alloc::Global;

/// Reads the texts of `--query` and `--meta`, if there are any. Returns a `Look` at all rows.
pub fn look_of(
    alloc: Global,
    query: Option<&Text>,
    meta: Option<&Text>,
) -> Result<Look, Fault<ListFault>>
    ensures read { IfOk result (AsksLook (option_copied query.entry) (option_copied meta.entry)) }
    ensures refused { IfErr result
        (StopsBeforeReading (option_copied query.entry) (option_copied meta.entry)) }
{
    Ok(Look {
        query: query_of(alloc, query)?,
        meta: meta_of(alloc, meta)?,
        base: 0,
        range: Range::All,
    })
}

fn query_of(alloc: Global, text: Option<&Text>) -> Result<Option<Query>, Fault<ListFault>>
    ensures read { IfOk result (λ query. AsksQuery (option_copied text.entry) query) }
    ensures refused { IfErr result (λ fault. IsQueryFault (option_copied text.entry) fault) }
{
    let Some(text) = text else {
        return Ok(None);
    };
    match read(alloc, text.as_str()) {
        Ok(query) => Ok(Some(query)),
        Err(error) => Err(query_fault(error)),
    }
}

fn query_fault(error: QueryError) -> Fault<ListFault>
    ensures { result ≡ query_fault error }
{
    match error {
        QueryError::Memory => Fault::Memory,
        refusal => Fault::Own(ListFault::Query(refusal)),
    }
}

fn meta_of(alloc: Global, text: Option<&Text>) -> Result<Meta, Fault<ListFault>>
    ensures read { IfOk result (λ meta. meta_or_default (option_copied text.entry) ≡ Some meta) }
    ensures refused { IfErr result (λ fault. IsMetaFault (option_copied text.entry) fault) }
{
    let Some(text) = text else {
        return Ok(Meta::Default);
    };
    match Meta::read(alloc, text.as_str()) {
        Ok(meta) => Ok(meta),
        Err(error) => Err(meta_fault(error)),
    }
}

fn meta_fault(error: MetaError) -> Fault<ListFault>
    ensures { result ≡ meta_fault error }
{
    match error {
        MetaError::TooMany => Fault::Own(ListFault::Meta),
        MetaError::Memory => Fault::Memory,
    }
}
