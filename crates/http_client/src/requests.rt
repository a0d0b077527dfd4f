//! The text of a client's request.

ghost use Rattle.std.specs.Prelude.{◌≡◌, [], ◌∷◌, ◌++◌, None, IfOk, IfErr, OnOk, codes};
ghost use Rattle.http_front.specs.Readings.{IsReading, reading};
ghost use Rattle.http_front.specs.ReplyHeads.{field};
ghost use Rattle.http_front.specs.Routes.{verb_text};
ghost use Rattle.http_client.specs.Requests.{CanSend, HasListNumber, HasNumbers, HasPlaces, IsRead, IsSent, fields_and_body, length_line, message_text, request_text, sent_body, verb_for};
ghost use Rattle.http_client.specs.Targets.{behind_path, form_text, path_to, rows_path, target_of, values_path, IsTextOf};

use crate::parameters::form_of;
use dmap_tags::Bytes;
use item_model::{Browse, Range, Target};
use itoa::Buffer;
use records_import::write_batch;
use share_asks::{Ask, Verb, Want};
use std::alloc::{AllocError, Global};

/// Returns the bytes of the request `ask` to `host`. Within the limits of a reader they read back as `ask`.
/// Returns `AllocError` if allocation fails.
pub fn request(alloc: Global, ask: &Ask, host: &str) -> Result<Bytes, AllocError>
    requires { CanSend ask.now.want }
    ensures text { IfOk result (λ b. b ≡ request_text ask.now.want host.now) }
    ensures reads { IfOk result (λ b. IsSent ask.now host.now
        → IsReading ask.now.role b (reading (ask.now ∷ []) [] None)) }
{
    know_numbers(&ask.want);
    text_of(alloc, &ask.want, host)
}

/// Returns the bytes of a POST request for `path`, with `body` as its body.
#[tactic(auto, unfolding(crate::specs::Requests::message_text))]
pub fn post(alloc: Global, path: &str, host: &str, body: &[u8]) -> Result<Bytes, AllocError>
    ensures { IfOk result (λ b. b ≡ message_text Verb.Post path.now host.now body.now) }
{
    let mut text = Vec::new(alloc);
    push_method(&mut text, Verb::Post)?;
    text.extend_from_slice(path.as_bytes())?;
    push_rest(&mut text, Verb::Post, host, body)?;
    Ok(Bytes::from(text))
}

fn text_of(alloc: Global, want: &Want, host: &str) -> Result<Bytes, AllocError>
    requires { CanSend want.now }
    ensures text { IfOk result (λ b. b ≡ request_text want.now host.now) }
    ensures utf8 { OnOk result (IsTextOf want.now) }
    ensures read { OnOk result (IsRead want.now) }
{
    let form = form_of(alloc, want)?;
    let body = body_of(alloc, want)?;
    message_of(alloc, want, host, form.as_bytes(), body.as_slice())
}

// Returns the request `want`, whose parameters are `form`.
#[tactic(auto, unfolding(crate::specs::Requests::request_text, crate::specs::Requests::message_text))]
fn message_of(
    alloc: Global,
    want: &Want,
    host: &str,
    form: &[u8],
    body: &[u8],
) -> Result<Bytes, AllocError>
    requires form { form.now ≡ form_text want.now }
    requires body { body.now ≡ sent_body want.now }
    ensures { IfOk result (λ b. b ≡ request_text want.now host.now) }
{
    let mut text = Vec::new(alloc);
    push_method(&mut text, verb_for(want))?;
    push_target(&mut text, want, form)?;
    push_rest(&mut text, verb_for(want), host, body)?;
    Ok(Bytes::from(text))
}

// States that the numbers of `want` are in the ranges of their types. Does nothing when it runs.
fn know_numbers(want: &Want)
    ensures { HasNumbers want.now }
{
    match want {
        Want::Logout { session } | Want::Databases { session } | Want::Lists { session } => {
            let _session = *session;
        }
        Want::Update { session, revision } => {
            let _numbers = (*session, *revision);
        }
        Want::Rows {
            session,
            target,
            look,
        } => {
            let _session = *session;
            let _base = look.base;
            know_target(*target);
            know_range(look.range);
        }
        Want::Values { session, .. } => {
            let _session = *session;
        }
        _ => {}
    }
}

fn know_target(target: Target)
    ensures { HasListNumber target }
{
    if let Target::Container(list) = target {
        let _list = list;
    }
}

fn know_range(range: Range)
    ensures { HasPlaces range }
{
    match range {
        Range::All => {}
        Range::One { at } | Range::From { at } => {
            let _at = at;
        }
        Range::Span { from, to } => {
            let _places = (from, to);
        }
        Range::Last { count } => {
            let _count = count;
        }
    }
}

#[tactic(auto, unfolding(crate::specs::Requests::sent_body))]
fn body_of(alloc: Global, want: &Want) -> Result<Bytes, AllocError>
    requires { CanSend want.now }
    ensures body { IfOk result (λ body. body ≡ sent_body want.now) }
    ensures read { OnOk result (IsRead want.now) }
{
    match want {
        Want::Edit { body: Ok(batch) } => write_batch(alloc, batch),
        _ => Ok(Bytes::from(Vec::new(alloc))),
    }
}

fn verb_for(want: &Want) -> Verb
    ensures { result ≡ verb_for want.now }
{
    match want {
        Want::Edit { .. } | Want::Stop => Verb::Post,
        _ => Verb::Get,
    }
}

fn verb_text(verb: Verb) -> &'static str
    ensures { result.now ≡ verb_text verb }
{
    match verb {
        Verb::Get => "GET",
        Verb::Post => "POST",
    }
}

fn push_method(text: &mut Vec<u8>, verb: Verb) -> Result<(), AllocError>
    ensures { OnOk result (text.new.items ≡ text.old.items ++ (verb_text verb ++ codes " ")) }
{
    text.extend_from_slice(verb_text(verb).as_bytes())?;
    text.extend_from_slice(b" ")
}

// Appends what follows the target.
fn push_rest(text: &mut Vec<u8>, verb: Verb, host: &str, body: &[u8]) -> Result<(), AllocError>
    ensures { OnOk result (text.new.items
        ≡ text.old.items ++ (codes " HTTP/1.1\r\n" ++ fields_and_body verb host.now body.now)) }
{
    text.extend_from_slice(b" HTTP/1.1\r\n")?;
    push_field(text, b"Host", host.as_bytes())?;
    push_field(text, b"Client-DAAP-Version", b"3.0")?;
    push_length(text, verb, body.len())?;
    text.extend_from_slice(b"\r\n")?;
    text.extend_from_slice(body)
}

#[tactic(auto, unfolding(crate::specs::Targets::target_of))]
fn push_target(text: &mut Vec<u8>, want: &Want, form: &[u8]) -> Result<(), AllocError>
    requires { form.now ≡ form_text want.now }
    ensures { OnOk result (text.new.items ≡ text.old.items ++ target_of want.now) }
{
    push_path(text, want)?;
    push_form(text, form)
}

fn push_form(text: &mut Vec<u8>, form: &[u8]) -> Result<(), AllocError>
    ensures { OnOk result (text.new.items ≡ text.old.items ++ behind_path form.now) }
{
    if form.is_empty() {
        return Ok(());
    }
    text.extend_from_slice(b"?")?;
    text.extend_from_slice(form)
}

fn push_path(text: &mut Vec<u8>, want: &Want) -> Result<(), AllocError>
    ensures { OnOk result (text.new.items ≡ text.old.items ++ path_to want.now) }
{
    match fixed_path(want) {
        Ok(path) => text.extend_from_slice(path.as_bytes()),
        Err(target) => push_rows_path(text, target),
    }
}

// Returns the path of `want`, or the target of its rows, whose path may name a list.
fn fixed_path(want: &Want) -> Result<&'static str, Target>
    ensures fixed { IfOk result (λ path. path.now ≡ path_to want.now) }
    ensures rows { IfErr result (λ target. rows_path target ≡ path_to want.now) }
{
    match want {
        Want::ServerInfo => Ok("/server-info"),
        Want::Codes => Ok("/content-codes"),
        Want::Login => Ok("/login"),
        Want::Logout { .. } => Ok("/logout"),
        Want::Update { .. } => Ok("/update"),
        Want::Databases { .. } => Ok("/databases"),
        Want::Rows { target, .. } => Err(*target),
        Want::Lists { .. } => Ok("/databases/1/containers"),
        Want::Values { browse, .. } => Ok(values_path(*browse)),
        Want::Edit { .. } => Ok("/edit"),
        Want::Stop => Ok("/stop"),
        Want::Bad(_) => Ok(""),
    }
}

fn push_rows_path(text: &mut Vec<u8>, target: Target) -> Result<(), AllocError>
    ensures { OnOk result (text.new.items ≡ text.old.items ++ rows_path target) }
{
    match target {
        Target::Items => text.extend_from_slice(b"/databases/1/items"),
        Target::Container(list) => push_list_path(text, list),
    }
}

fn push_list_path(text: &mut Vec<u8>, list: u32) -> Result<(), AllocError>
    ensures { OnOk result (text.new.items ≡ text.old.items ++ rows_path (Target.Container list)) }
{
    text.extend_from_slice(b"/databases/1/containers/")?;
    text.extend_from_slice(Buffer::new().format(list).as_bytes())?;
    text.extend_from_slice(b"/items")
}

fn values_path(browse: Browse) -> &'static str
    ensures { result.now ≡ values_path browse }
{
    match browse {
        Browse::Artists => "/databases/1/browse/artists",
        Browse::Albums => "/databases/1/browse/albums",
        Browse::Genres => "/databases/1/browse/genres",
        Browse::Composers => "/databases/1/browse/composers",
    }
}

// Appends the length of the body, if the method sends one.
fn push_length(text: &mut Vec<u8>, verb: Verb, len: usize) -> Result<(), AllocError>
    ensures { OnOk result (text.new.items ≡ text.old.items ++ length_line verb len) }
{
    match verb {
        Verb::Get => Ok(()),
        Verb::Post => push_field(
            text,
            b"Content-Length",
            Buffer::new().format(len).as_bytes(),
        ),
    }
}

fn push_field(text: &mut Vec<u8>, name: &[u8], value: &[u8]) -> Result<(), AllocError>
    ensures { OnOk result (text.new.items ≡ text.old.items ++ field name.now value.now) }
{
    text.extend_from_slice(name)?;
    text.extend_from_slice(b": ")?;
    text.extend_from_slice(value)?;
    text.extend_from_slice(b"\r\n")
}
