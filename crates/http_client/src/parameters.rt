//! The parameters of a client's request, as a form.

ghost use Rattle.std.specs.Prelude.{◌≡◌, ◌≢◌, [], ◌++◌, codes, decimal, Some, IfOk, OnOk, string_bytes};
ghost use Rattle.form_urlencoded.specs.Form.{append_pair};
ghost use Rattle.item_model.specs.declared.request.Range.TheVariants.{All};
ghost use Rattle.share_asks.specs.Valid.{MayAsk};
ghost use Rattle.http_client.specs.Requests.{CanSend};
ghost use Rattle.http_client.specs.Targets.{look_parameters, meta_value, parameters_of, query_value, range_value, unless_zero, with_parameters, with_value, IsText, IsTextOf};

use form_urlencoded::Serializer;
use item_model::{Look, Meta, Query, Range};
use itoa::Buffer;
use share_asks::Want;
use song_query::print;
use std::alloc::{AllocError, Global};

/// Returns the parameters of an operation, encoded.
pub fn form_of(alloc: Global, want: &Want) -> Result<String, AllocError>
    requires { CanSend want.now }
    ensures form { IfOk result (λ form. string_bytes form
        ≡ with_parameters [] (parameters_of want.now)) }
    ensures utf8 { OnOk result (IsTextOf want.now) }
{
    let mut form = Serializer::new(String::new(alloc));
    push_parameters(alloc, &mut form, want)?;
    Ok(form.finish())
}

fn push_parameters(
    alloc: Global,
    form: &mut Serializer<Global>,
    want: &Want,
) -> Result<(), AllocError>
    requires { CanSend want.now }
    ensures form { OnOk result (form.new
        ≡ record form.old { form = with_parameters form.old.form (parameters_of want.now) }) }
    ensures utf8 { OnOk result (IsTextOf want.now) }
{
    match want {
        Want::Logout { session } | Want::Databases { session } | Want::Lists { session } => {
            push_session(form, *session)
        }
        Want::Update { session, revision } => {
            push_session(form, *session)?;
            push_number(form, "revision-number", *revision)
        }
        Want::Rows { session, look, .. } => {
            push_session(form, *session)?;
            push_look(alloc, form, look)
        }
        Want::Values { session, query, .. } => {
            push_session(form, *session)?;
            push_query(alloc, form, "filter", query)
        }
        Want::ServerInfo
        | Want::Codes
        | Want::Login
        | Want::Edit { .. }
        | Want::Stop
        | Want::Bad(_) => Ok(()),
    }
}

fn push_session(form: &mut Serializer<Global>, session: u32) -> Result<(), AllocError>
    ensures { OnOk result (form.new
        ≡ record form.old {
          form = append_pair form.old.form (codes "session-id")
              (decimal session);
        }) }
{
    push_number(form, "session-id", session)
}

// Appends the parameters of a look, without those at their default.
fn push_look(alloc: Global, form: &mut Serializer<Global>, look: &Look) -> Result<(), AllocError>
    requires { MayAsk look.now.query }
    ensures form { OnOk result (form.new
        ≡ record form.old { form = with_parameters form.old.form (look_parameters look.now) }) }
    ensures utf8 { OnOk result (IsText look.now.query) }
{
    push_base(form, look.base)?;
    push_meta(alloc, form, &look.meta)?;
    push_query(alloc, form, "query", &look.query)?;
    push_range(alloc, form, look.range)
}

fn push_base(form: &mut Serializer<Global>, base: u32) -> Result<(), AllocError>
    ensures { OnOk result (form.new
        ≡ record form.old { form = with_value form.old.form (codes "delta") (unless_zero base) }) }
{
    if base == 0 {
        return Ok(());
    }
    push_number(form, "delta", base)
}

fn push_meta(alloc: Global, form: &mut Serializer<Global>, meta: &Meta) -> Result<(), AllocError>
    ensures { OnOk result (form.new
        ≡ record form.old {
          form = with_value form.old.form (codes "meta")
              (meta_value meta.now);
        }) }
{
    match meta {
        Meta::Default => Ok(()),
        Meta::All => form.append_pair("meta", "all"),
        Meta::Names(_) => {
            let text = meta.print(alloc)?;
            form.append_pair("meta", text.as_str())
        }
    }
}

fn push_query(
    alloc: Global,
    form: &mut Serializer<Global>,
    name: &str,
    query: &Option<Query>,
) -> Result<(), AllocError>
    requires { MayAsk query.now }
    ensures form { OnOk result (form.new
        ≡ record form.old { form = with_value form.old.form name.now (query_value query.now) }) }
    ensures utf8 { OnOk result (IsText query.now) }
{
    let Some(query) = query else {
        return Ok(());
    };
    let text = print(alloc, query)?;
    form.append_pair(name, text.as_str())
}

fn push_range(alloc: Global, form: &mut Serializer<Global>, range: Range) -> Result<(), AllocError>
    ensures { OnOk result (form.new
        ≡ record form.old { form = with_value form.old.form (codes "index") (range_value range) }) }
{
    if let Range::All = range {
        return Ok(());
    }
    let text = range_text(alloc, range)?;
    form.append_pair("index", text.as_str())
}

fn range_text(alloc: Global, range: Range) -> Result<String, AllocError>
    requires { range ≢ All }
    ensures { IfOk result (λ text. Some (string_bytes text) ≡ range_value range) }
{
    match range {
        Range::All => unreachable!(),
        Range::One { at } => String::from_str(alloc, Buffer::new().format(at)),
        Range::From { at } => hyphened(alloc, Buffer::new().format(at), ""),
        Range::Span { from, to } => {
            hyphened(alloc, Buffer::new().format(from), Buffer::new().format(to))
        }
        Range::Last { count } => hyphened(alloc, "", Buffer::new().format(count)),
    }
}

fn hyphened(alloc: Global, before: &str, behind: &str) -> Result<String, AllocError>
    ensures { IfOk result (λ text. string_bytes text ≡ before.now ++ (codes "-" ++ behind.now)) }
{
    let mut text = String::from_str(alloc, before)?;
    text.push_str("-")?;
    text.push_str(behind)?;
    Ok(text)
}

fn push_number(form: &mut Serializer<Global>, name: &str, number: u32) -> Result<(), AllocError>
    ensures { OnOk result (form.new
        ≡ record form.old { form = append_pair form.old.form name.now (decimal number) }) }
{
    form.append_pair(name, Buffer::new().format(number))
}
