//! Writes tags as JSON.

ghost use Rattle.std.specs.Prelude.{◌≡◌, ◌≢◌, ◌⊎◌, ◌↔◌, ◌∷◌, ◌&&◌, nat_le, flat_map, true, false, None, List, ℕ, IfOk, IfErr, OnOk, Err};
ghost use Rattle.std.specs.Str.{is_utf8};
ghost use Rattle.serde.specs.Event.{Logs, text as text_event};
ghost use Rattle.serde_json.specs.Events.{SendsValue, SendsItems};
ghost use Rattle.serde_json.specs.Data.{string, array};
ghost use Rattle.serde_json.specs.Written.{compact_text};
ghost use Rattle.dmap_tags.specs.Codes.{Four};
ghost use Rattle.dmap_tags.specs.Seen.{tree_with};
ghost use Rattle.dmap_tags.specs.Tree.{levels, levels_in, trees_of};
ghost use Rattle.code_table.specs.Fits.{fits};
ghost use Rattle.dmap_show.specs.Readable.{IsTag, AreTags, IsCode, AreBytes, HasValue};
ghost use Rattle.dmap_show.specs.Shown.{hex, shown_code, word_of};
ghost use Rattle.dmap_json.specs.TagObject.{json_of, json_held, json_items};
ghost use Rattle.dmap_json.specs.Reads.{Reads};

use crate::error::JsonError;
use crate::hex::{code_text, hex_text};
use code_table::CodeTable;
use dmap_tags::{Bytes, Code, Tag, Text, Value};
use serde::{Described, Serialize, Serializer};
use serde_json::Number;
use std::alloc::Global;

/// The most levels of a tag that is written.
const MOST_LEVELS: u64 = 32;

/// Returns the tag as JSON without blanks: an object of its code, its kind and its value. `from_json` reads the tag
/// back.
///
/// # Errors
/// Returns `Unfit` if the tag does not fit `table` at the top or has more than 32 levels, and `Memory` if an allocation
/// fails.
pub fn to_json(alloc: Global, tag: &Tag, table: &CodeTable) -> Result<Text, JsonError>
    ensures text { IfOk result (λ text. text ≡ compact_text (json_of tag.now)) }
    ensures reads_back { IfOk result (λ text. Reads table.now text tag.now) }
    ensures unfit { (result ≡ Err JsonError.Unfit)
        ↔ ((nat_le (levels tag.now) 32 && fits table.now None tag.now) ≡ false) }
    ensures refused { IfErr result (λ e. (e ≡ JsonError.Unfit) ⊎ (e ≡ JsonError.Memory)) }
{
    if !has_levels(tag, MOST_LEVELS) || !table.fits(None, tag) {
        return Err(JsonError::Unfit);
    }
    written(alloc, tag)
}

/// Returns the text of a tag.
fn written(alloc: Global, tag: &Tag) -> Result<Text, JsonError>
    ensures text { IfOk result (λ text. text ≡ compact_text (json_of tag.now)) }
    ensures tag { OnOk result (IsTag tag.now) }
    ensures refused { IfErr result (λ e. e ≡ JsonError.Memory) }
{
    // No proof says that the kit's writer returns UTF-8, so other bytes become `Memory`.
    match Text::from_utf8(json_bytes(alloc, tag)?) {
        Ok(text) => Ok(text),
        Err(_) => Err(JsonError::Memory),
    }
}

/// Returns the bytes of that text.
fn json_bytes(alloc: Global, tag: &Tag) -> Result<Vec<u8>, JsonError>
    ensures text { IfOk result (λ bytes. bytes.items ≡ compact_text (json_of tag.now)) }
    ensures tag { OnOk result (IsTag tag.now) }
    ensures refused { IfErr result (λ e. e ≡ JsonError.Memory) }
{
    match serde_json::to_vec(alloc, &SentTag { alloc, tag }) {
        Ok(bytes) => Ok(bytes),
        Err(_) => Err(JsonError::Memory),
    }
}

/// Returns whether the tag has at most `most` levels.
#[cycle(levels)]
fn has_levels(tag: &Tag, most: u64) -> bool
    ensures { result ≡ nat_le (levels tag.now) most }
{
    match &tag.value {
        Value::List(tags) => most > 0 && all_have_levels(tags.as_slice(), most - 1),
        Value::U8(_) | Value::I8(_) | Value::U16(_) | Value::I16(_) => most > 0,
        Value::U32(_) | Value::I32(_) | Value::U64(_) | Value::I64(_) => most > 0,
        Value::Text(_) | Value::Date(_) | Value::Version(_) | Value::Opaque(_) => most > 0,
    }
}

#[cycle(levels)]
#[tactic(auto, using(dmap_tags::proofs::Sizes::member_falls, crate::proofs::Levels::max_within, crate::proofs::Levels::max_beyond))]
fn all_have_levels(tags: &[Tag], most: u64) -> bool
    ensures { result ≡ nat_le (levels_in (trees_of tags.now)) most }
{
    for tag in tags {
        if !has_levels(tag, most) {
            return false;
        }
    }
    true
}

/// A tag to be serialized.
#[derive(Drop)]
struct SentTag<'a> {
    alloc: Global,
    tag: &'a Tag,
}

impl Described for SentTag<'_> {
    ghost writes = { λ w old new. SendsValue (json_of w.tag.now) old new × IsTag w.tag.now };
}

impl Serialize for SentTag<'_> {
    fn serialize<S: Serializer>(&self, out: &mut S) -> Result<(), S::Error> {
        send_tag(self.alloc, self.tag, out)
    }
}

#[cycle(send)]
fn send_tag<S: Serializer>(alloc: Global, tag: &Tag, out: &mut S) -> Result<(), S::Error>
    ensures sent { OnOk result (SendsValue (json_of tag.now) (S.written out.old)
        (S.written out.new)) }
    ensures held { OnOk result (IsTag tag.now) }
{
    out.begin_map(Some(3))?;
    out.key("code")?;
    send_code(alloc, tag.code, out)?;
    out.key("kind")?;
    out.str(word(&tag.value))?;
    out.key("value")?;
    send_value(alloc, tag.code, &tag.value, out)?;
    out.end_map()
}

#[cycle(send)]
fn send_value<S: Serializer>(
    alloc: Global,
    code: Code,
    value: &Value,
    out: &mut S,
) -> Result<(), S::Error>
    ensures sent { OnOk result (SendsValue (json_held (tree_with code value.now))
        (S.written out.old) (S.written out.new)) }
    ensures held { OnOk result (IsCode code → IsTag (tree_with code value.now)) }
{
    match value {
        Value::List(tags) => {
            let tags = tags.as_slice();
            out.begin_seq(Some(tags.len()))?;
            send_tags(alloc, tags, out)
        }
        Value::Text(text) => out.str(str_of(text)),
        Value::Opaque(bytes) => send_bytes(alloc, bytes, out),
        Value::U8(n) => Number::from(*n).serialize(out),
        Value::I8(n) => Number::from(*n).serialize(out),
        Value::U16(n) => Number::from(*n).serialize(out),
        Value::I16(n) => Number::from(*n).serialize(out),
        Value::U32(n) => Number::from(*n).serialize(out),
        Value::I32(n) => Number::from(*n).serialize(out),
        Value::U64(n) => Number::from(*n).serialize(out),
        Value::I64(n) => Number::from(*n).serialize(out),
        Value::Date(n) => Number::from(*n).serialize(out),
        Value::Version(n) => Number::from(*n).serialize(out),
    }
}

/// Sends the members of a list, and its end.
#[cycle(send)]
#[tactic(auto, using(dmap_tags::proofs::Sizes::member_falls))]
fn send_tags<S: Serializer>(alloc: Global, tags: &[Tag], out: &mut S) -> Result<(), S::Error>
    ensures sent { OnOk result (SendsItems (json_items (trees_of tags.now)) (S.written out.old)
        (S.written out.new)) }
    ensures held { OnOk result (AreTags (trees_of tags.now)) }
{
    for tag in tags {
        send_tag(alloc, tag, out)?;
    }
    out.end_seq()
}

fn str_of(text: &Text) -> &str
    ensures value { result.now ≡ text.now }
    ensures held { is_utf8 text.now ≡ true }
{
    text.as_str()
}

/// Returns the name of a value's kind.
fn word(value: &Value) -> &'static str
    ensures { (c : Four) → result.now ≡ word_of (tree_with c value.now) }
{
    match value {
        Value::U8(_) => "u8",
        Value::I8(_) => "i8",
        Value::U16(_) => "u16",
        Value::I16(_) => "i16",
        Value::U32(_) => "u32",
        Value::I32(_) => "i32",
        Value::U64(_) => "u64",
        Value::I64(_) => "i64",
        Value::Text(_) => "text",
        Value::Date(_) => "date",
        Value::Version(_) => "version",
        Value::List(_) => "list",
        Value::Opaque(_) => "opaque",
    }
}

/// Sends a content code as a text.
fn send_code<S: Serializer>(alloc: Global, code: Code, out: &mut S) -> Result<(), S::Error>
    ensures sent { OnOk result (Logs (S.written out.old) (S.written out.new)
        (text_event (shown_code code))) }
    ensures held { OnOk result (IsCode code) }
{
    match code_text(alloc, code) {
        Ok(text) => out.str(text.as_str()),
        Err(_) => Err(out.custom("out of memory")),
    }
}

/// Sends bytes as a text of hex digits.
fn send_bytes<S: Serializer>(alloc: Global, bytes: &Bytes, out: &mut S) -> Result<(), S::Error>
    ensures sent { OnOk result (Logs (S.written out.old) (S.written out.new)
        (text_event (flat_map hex bytes.now))) }
    ensures held { OnOk result (AreBytes bytes.now) }
{
    match hex_text(alloc, bytes.as_slice()) {
        Ok(text) => out.str(text.as_str()),
        Err(_) => Err(out.custom("out of memory")),
    }
}
