//! The operation of a request.

ghost use Rattle.std.specs.Prelude.{◌≡◌, [], codes, Some, IfOk, option_map, string_bytes};
ghost use Rattle.http_front.specs.Parameters.{nonempty_value};
ghost use Rattle.http_front.specs.ParametersRead.{Gives, ReadsQuery};
ghost use Rattle.http_front.specs.Routes.{all_routes};
ghost use Rattle.http_front.specs.Wants.{LogoutWant, UpdateWant, DatabasesWant, ListsWant, RowsWant, ValuesWant, filter_or, AskedRows, RowsInRange, ResourceWant, Wants};

use crate::parameters::{Flaw, meta, nonempty_value, number, query_in, range};
use crate::routes::{Resource, Route, resource_of, verb_of, verb_text};
use item_model::{Browse, Look, Query, Range, Target};
use matchit::Router;
use records_import::{RecordError, read_batch};
use share_asks::{AskError, Role, Want};
use std::alloc::{AllocError, Global};

/// The parts of a complete request.
#[derive(Clone, Copy)]
pub struct Request<'b> {
    pub method: &'b [u8],
    pub path: &'b [u8],
    pub query: &'b [u8],
    pub body: &'b [u8],
}

/// Returns the operation of a request to a reader of the role.
pub fn read_want(
    alloc: Global,
    router: &Router<Route>,
    role: Role,
    request: &Request<'_>,
) -> Result<Want, AllocError>
    requires { router.now ≡ all_routes }
    ensures { IfOk result (λ want. Wants role request.now.method.now request.now.path.now
        request.now.query.now request.now.body.now want) }
{
    let Some(resource) = resource_of(router, role, request.path) else {
        return Ok(Want::Bad(AskError::Path));
    };
    let verb = verb_of(resource);
    if request.method != verb_text(verb).as_bytes() {
        return Ok(Want::Bad(AskError::Method { allow: verb }));
    }
    match resource_want(alloc, resource, request.query, request.body) {
        Ok(want) => Ok(want),
        Err(Flaw::Bad(error)) => Ok(Want::Bad(error)),
        Err(Flaw::Memory) => Err(AllocError),
    }
}

fn resource_want(alloc: Global, resource: Resource, query: &[u8], body: &[u8]) -> Result<Want, Flaw>
    ensures { Gives (ResourceWant resource query.now body.now) result }
{
    match resource {
        Resource::ServerInfo => Ok(Want::ServerInfo),
        Resource::Codes => Ok(Want::Codes),
        Resource::Login => Ok(Want::Login),
        Resource::Logout => logout(alloc, query),
        Resource::Update => update(alloc, query),
        Resource::Databases => databases(alloc, query),
        Resource::Lists => lists(alloc, query),
        Resource::Rows(target) => rows(alloc, target, query),
        Resource::Values(browse) => values(alloc, browse, query),
        Resource::Edit => edit(alloc, body),
        Resource::Stop => Ok(Want::Stop),
    }
}

fn logout(alloc: Global, query: &[u8]) -> Result<Want, Flaw>
    ensures { Gives (LogoutWant query.now) result }
{
    match number(alloc, query, "session-id") {
        Ok(session) => Ok(Want::Logout { session }),
        Err(flaw) => Err(flaw),
    }
}

fn update(alloc: Global, query: &[u8]) -> Result<Want, Flaw>
    ensures { Gives (UpdateWant query.now) result }
{
    let session = match number(alloc, query, "session-id") {
        Ok(session) => session,
        Err(flaw) => return Err(flaw),
    };
    match number(alloc, query, "revision-number") {
        Ok(revision) => Ok(Want::Update { session, revision }),
        Err(flaw) => Err(flaw),
    }
}

fn databases(alloc: Global, query: &[u8]) -> Result<Want, Flaw>
    ensures { Gives (DatabasesWant query.now) result }
{
    match number(alloc, query, "session-id") {
        Ok(session) => Ok(Want::Databases { session }),
        Err(flaw) => Err(flaw),
    }
}

fn lists(alloc: Global, query: &[u8]) -> Result<Want, Flaw>
    ensures { Gives (ListsWant query.now) result }
{
    match number(alloc, query, "session-id") {
        Ok(session) => Ok(Want::Lists { session }),
        Err(flaw) => Err(flaw),
    }
}

fn rows(alloc: Global, target: Target, query: &[u8]) -> Result<Want, Flaw>
    ensures { Gives (RowsWant target query.now) result }
{
    let session = match number(alloc, query, "session-id") {
        Ok(session) => session,
        Err(flaw) => return Err(flaw),
    };
    let base = match number(alloc, query, "delta") {
        Ok(base) => base,
        Err(flaw) => return Err(flaw),
    };
    let meta = match meta(alloc, query) {
        Ok(meta) => meta,
        Err(flaw) => return Err(flaw),
    };
    let look = Look {
        query: None,
        meta,
        base,
        range: Range::All,
    };
    asked_rows(alloc, query, session, target, look)
}

// Adds the query to a look, and then the range.
fn asked_rows(
    alloc: Global,
    query: &[u8],
    session: u32,
    target: Target,
    look: Look,
) -> Result<Want, Flaw>
    ensures { Gives (AskedRows query.now session target look) result }
{
    match asked(alloc, query) {
        Ok(asked) => rows_in_range(alloc, query, session, target, look_for(asked, look)),
        Err(flaw) => Err(flaw),
    }
}

// Returns the look at the rows that a query asks for.
fn look_for(query: Option<Query>, look: Look) -> Look
    ensures { result ≡ record look { query = query } }
{
    Look { query, ..look }
}

fn asked(alloc: Global, query: &[u8]) -> Result<Option<Query>, Flaw>
    ensures { ReadsQuery (nonempty_value (codes "query") query.now) result }
{
    let text = nonempty_value(alloc, query, "query")?;
    query_in(alloc, text.as_deref())
}

// Adds the range to a look.
fn rows_in_range(
    alloc: Global,
    query: &[u8],
    session: u32,
    target: Target,
    look: Look,
) -> Result<Want, Flaw>
    ensures { Gives (RowsInRange query.now session target look) result }
{
    match range(alloc, query) {
        Ok(range) => Ok(Want::Rows {
            session,
            target,
            look: Look { range, ..look },
        }),
        Err(flaw) => Err(flaw),
    }
}

fn values(alloc: Global, browse: Browse, query: &[u8]) -> Result<Want, Flaw>
    ensures { Gives (ValuesWant browse query.now) result }
{
    let session = match number(alloc, query, "session-id") {
        Ok(session) => session,
        Err(flaw) => return Err(flaw),
    };
    let text = filter_or_query(alloc, query)?;
    match query_in(alloc, text.as_deref()) {
        Ok(query) => Ok(Want::Values {
            session,
            browse,
            query,
        }),
        Err(flaw) => Err(flaw),
    }
}

// Returns the filter if it is present, otherwise the query.
fn filter_or_query(alloc: Global, query: &[u8]) -> Result<Option<String>, AllocError>
    ensures { IfOk result (λ text. option_map string_bytes text
        ≡ filter_or (nonempty_value (codes "filter") query.now)
        (nonempty_value (codes "query") query.now)) }
{
    match nonempty_value(alloc, query, "filter")? {
        Some(filter) => Ok(Some(filter)),
        None => nonempty_value(alloc, query, "query"),
    }
}

fn edit(alloc: Global, body: &[u8]) -> Result<Want, Flaw>
    ensures { Gives (ResourceWant Resource.Edit [] body.now) result }
{
    match read_batch(alloc, body) {
        Ok(batch) => Ok(Want::Edit { body: Ok(batch) }),
        Err(RecordError::Memory) => Err(Flaw::Memory),
        Err(error) => Ok(Want::Edit { body: Err(error) }),
    }
}
