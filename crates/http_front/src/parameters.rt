//! Parameters by name.

ghost use Rattle.std.specs.Prelude.{◌≡◌, ◌≢◌, List, ℕ, codes, Some, None, Ok, Err, IfOk, string_bytes, option_map, MatchOption};
ghost use Rattle.std.specs.Str.{bytes_eq};
ghost use Rattle.form_urlencoded.specs.Form.{raw_pairs};
ghost use Rattle.item_model.specs.Names.{meta_of};
ghost use Rattle.song_query.specs.Answers.{Answers};
ghost use Rattle.http_front.specs.Numbers.{number_in, range_in};
ghost use Rattle.http_front.specs.Parameters.{text_of, first_named, unless_empty, nonempty_value, meta_in};
ghost use Rattle.http_front.specs.ParametersRead.{ReadsAs, ReadsQuery};

use crate::numbers::{range_of, small_number};
use dmap_tags::Text;
use form_urlencoded::{decode, raw_pairs};
use item_model::{Meta, MetaError, Query, QueryError, Range};
use share_asks::AskError;
use std::alloc::{AllocError, Global};

/// Errors of parameters.
#[derive(Drop)]
pub enum Flaw {
    Bad(AskError),
    Memory,
}

impl From<AllocError> for Flaw {
    ghost use Rattle.http_front.specs.declared.parameters.Flaw.TheVariants.{Memory};

    ghost from_gives = { λ _ e. e ≡ Memory };

    fn from(_error: AllocError) -> Flaw {
        Flaw::Memory
    }
}

/// Returns the number of a parameter, or 0 if it is absent.
pub fn number(alloc: Global, query: &[u8], name: &str) -> Result<u32, Flaw>
    ensures { ReadsAs name.now (number_in (nonempty_value name.now query.now)) result }
{
    let Some(text) = nonempty_value(alloc, query, name)? else {
        return Ok(0);
    };
    match small_number(text.as_bytes()) {
        Some(number) => Ok(number),
        None => Err(bad(alloc, name)),
    }
}

pub fn meta(alloc: Global, query: &[u8]) -> Result<Meta, Flaw>
    ensures { ReadsAs (codes "meta") (meta_in (nonempty_value (codes "meta") query.now)) result }
{
    let Some(text) = nonempty_value(alloc, query, "meta")? else {
        return Ok(Meta::Default);
    };
    match Meta::read(alloc, text.as_str()) {
        Ok(meta) => Ok(meta),
        Err(MetaError::TooMany) => Err(bad(alloc, "meta")),
        Err(MetaError::Memory) => Err(Flaw::Memory),
    }
}

pub fn range(alloc: Global, query: &[u8]) -> Result<Range, Flaw>
    ensures { ReadsAs (codes "index") (range_in (nonempty_value (codes "index") query.now)) result }
{
    let Some(text) = nonempty_value(alloc, query, "index")? else {
        return Ok(Range::All);
    };
    match range_of(text.as_bytes()) {
        Some(range) => Ok(range),
        None => Err(bad(alloc, "index")),
    }
}

/// Returns the query in a text, or `None` without a text.
pub fn query_in(alloc: Global, text: Option<&str>) -> Result<Option<Query>, Flaw>
    ensures { ReadsQuery (option_map (λ t. t.now) text.entry) result }
{
    let Some(text) = text else {
        return Ok(None);
    };
    match song_query::read(alloc, text) {
        Ok(query) => Ok(Some(query)),
        Err(QueryError::Memory) => Err(Flaw::Memory),
        Err(error) => Err(Flaw::Bad(AskError::Query { error })),
    }
}

/// Returns the value of the first parameter called `name`, unless it is empty.
#[tactic(auto, unfolding(crate::specs::Parameters::nonempty_value))]
pub fn nonempty_value(alloc: Global, query: &[u8], name: &str) -> Result<Option<String>, AllocError>
    ensures { IfOk result (λ text. option_map string_bytes text
        ≡ nonempty_value name.now query.now) }
{
    let Some(text) = first_named(alloc, query, name)? else {
        return Ok(None);
    };
    if text.is_empty() {
        return Ok(None);
    }
    Ok(Some(text))
}

fn first_named(alloc: Global, query: &[u8], name: &str) -> Result<Option<String>, AllocError>
    ensures { IfOk result (λ text. option_map string_bytes text
        ≡ first_named name.now (raw_pairs query.now)) }
{
    for (key, value) in raw_pairs(query) {
        if is_named(alloc, key, name)? {
            return Ok(Some(text_of(alloc, value)?));
        }
    }
    Ok(None)
}

fn is_named(alloc: Global, key: &[u8], name: &str) -> Result<bool, AllocError>
    ensures { IfOk result (λ is. is ≡ bytes_eq (text_of key.now) name.now) }
{
    let text = text_of(alloc, key)?;
    Ok(text.as_bytes() == name.as_bytes())
}

fn text_of(alloc: Global, raw: &[u8]) -> Result<String, AllocError>
    ensures { IfOk result (λ text. string_bytes text ≡ text_of raw.now) }
{
    let text = decode(alloc, raw)?;
    text.into_owned(alloc)
}

// Returns the error for the parameter called `name`.
fn bad(alloc: Global, name: &str) -> Flaw
    ensures { ReadsAs {A = ℕ} name.now None (Err result) }
{
    match Text::of(alloc, name) {
        Ok(name) => Flaw::Bad(AskError::Parameter { name }),
        Err(_) => Flaw::Memory,
    }
}
