//! Pushes a tag: its head, and then its payload, tag by tag if it is a list.

ghost use Rattle.std.specs.Prelude.{◌≡◌, ◌≤◌, ◌++◌, [], true, length, OnOk};
ghost use Rattle.std.specs.Int.{w32, to_be_bytes};
ghost use Rattle.dmap_tags.specs.Codes.{code_bytes};
ghost use Rattle.dmap_tags.specs.Spelling.{payload, spelling, spellings, longest, is_spellable, are_spellable};
ghost use Rattle.dmap_tags.specs.Tree.{trees_of, list, tree_code};
ghost use Rattle.listing_plan.specs.Limits.{row_limit};
ghost use Rattle.listing_plan.specs.Pages.{Pushes};
ghost use Rattle.listing_plan.specs.declared.tags.Payload.TheVariants.{Bytes, Members};

use crate::page::Page;
use dmap_tags::{Code, Tag, Value, encoded_len};
use outside_net::{Failed, Sink, put_all};

/// How many bytes the longest number has.
const NUMBER_BYTES: usize = 8;

/// What the payload of a tag is made of.
#[derive(Clone, Copy)]
enum Payload<'a> {
    Bytes(&'a [u8]),
    Members(&'a [Tag]),
}

/// Returns the encoded length of a tag that can be encoded.
pub(crate) fn tag_len(tag: &Tag) -> u64
    requires { is_spellable tag.now ≡ true }
    ensures { result ≡ length (spelling tag.now) }
{
    match encoded_len(tag) {
        Some(len) => len,
        None => unreachable!(),
    }
}

/// Returns the length of the value of such a tag.
pub(crate) fn value_len(tag: &Tag) -> u32
    requires { is_spellable tag.now ≡ true }
    ensures { result ≡ length (payload tag.now) }
{
    (tag_len(tag) - 8) as u32
}

/// Pushes a tag whose value has `len` bytes. It measures each tag in it again, so its cost grows with the bytes and with
/// the depth.
#[cycle(push_tag)]
pub(crate) fn push_measured<W: Sink, const N: usize>(
    page: &mut Page<N>,
    sink: &mut W,
    tag: &Tag,
    len: u32,
) -> Result<(), Failed>
    requires wide { row_limit ≤ N }
    requires spellable { is_spellable tag.now ≡ true }
    requires counted { len ≡ length (payload tag.now) }
    ensures pushes { Pushes (spelling tag.now) result (W.taken sink.old)
        (W.taken sink.new) page.old page.new (W.faults sink.old) (W.faults sink.new) }
    ensures beside { W.beside_taken sink.new ≡ W.beside_taken sink.old }
{
    push_head(page, sink, tag.code, len)?;
    push_payload(page, sink, tag)
}

#[cycle(push_tag)]
fn push_payload<W: Sink, const N: usize>(
    page: &mut Page<N>,
    sink: &mut W,
    tag: &Tag,
) -> Result<(), Failed>
    requires wide { row_limit ≤ N }
    requires spellable { is_spellable tag.now ≡ true }
    ensures pushes { Pushes (payload tag.now) result (W.taken sink.old)
        (W.taken sink.new) page.old page.new (W.faults sink.old) (W.faults sink.new) }
    ensures beside { W.beside_taken sink.new ≡ W.beside_taken sink.old }
{
    let mut room = [0; NUMBER_BYTES];
    match payload_of(tag, &mut room) {
        Payload::Bytes(bytes) => push_bytes(page, sink, bytes),
        Payload::Members(tags) => push_tags(page, sink, tags),
    }
}

/// Returns what the payload of a tag is made of. It puts the bytes of a number into `room`.
fn payload_of<'a>(tag: &'a Tag, room: &'a mut [u8; NUMBER_BYTES]) -> Payload<'a>
    ensures bytes { (bytes : _) → result ≡ Bytes bytes → bytes.now ≡ payload tag.now }
    ensures members { (tags : _) → result ≡ Members tags
        → tag.now ≡ list (tree_code tag.now) (trees_of tags.now) }
{
    match &tag.value {
        Value::U8(n) => Payload::Bytes(copied_to(room, &n.to_be_bytes())),
        Value::I8(n) => Payload::Bytes(copied_to(room, &n.to_be_bytes())),
        Value::U16(n) => Payload::Bytes(copied_to(room, &n.to_be_bytes())),
        Value::I16(n) => Payload::Bytes(copied_to(room, &n.to_be_bytes())),
        Value::U32(n) | Value::Date(n) | Value::Version(n) => {
            Payload::Bytes(copied_to(room, &n.to_be_bytes()))
        }
        Value::I32(n) => Payload::Bytes(copied_to(room, &n.to_be_bytes())),
        Value::U64(n) => Payload::Bytes(copied_to(room, &n.to_be_bytes())),
        Value::I64(n) => Payload::Bytes(copied_to(room, &n.to_be_bytes())),
        Value::Text(text) => Payload::Bytes(text.as_str().as_bytes()),
        Value::List(tags) => Payload::Members(tags.as_slice()),
        Value::Opaque(bytes) => Payload::Bytes(bytes.as_slice()),
    }
}

/// Copies bytes to the front of `room`, and returns the copy.
fn copied_to<'a>(room: &'a mut [u8; NUMBER_BYTES], bytes: &[u8]) -> &'a [u8]
    requires { length bytes.now ≤ 8 }
    ensures { result.now ≡ bytes.now }
{
    let (front, _) = room.split_at_mut(bytes.len());
    front.copy_from_slice(bytes);
    front
}

/// Pushes the members of a list.
#[cycle(push_tag)]
#[tactic(auto, using(dmap_tags::proofs::Sizes::member_falls, dmap_tags::proofs::Lengths::spellable_at))]
fn push_tags<W: Sink, const N: usize>(
    page: &mut Page<N>,
    sink: &mut W,
    tags: &[Tag],
) -> Result<(), Failed>
    requires wide { row_limit ≤ N }
    requires spellable { are_spellable (trees_of tags.now) ≡ true }
    ensures pushes { Pushes (spellings (trees_of tags.now)) result (W.taken sink.old)
        (W.taken sink.new) page.old page.new (W.faults sink.old) (W.faults sink.new) }
    ensures beside { W.beside_taken sink.new ≡ W.beside_taken sink.old }
{
    for tag in tags {
        push_measured(page, sink, tag, value_len(tag))?;
    }
    Ok(())
}

/// Pushes a code and the length of the payload that follows.
pub(crate) fn push_head<W: Sink, const N: usize>(
    page: &mut Page<N>,
    sink: &mut W,
    of: Code,
    len: u32,
) -> Result<(), Failed>
    requires { row_limit ≤ N }
    ensures pushes { Pushes (code_bytes of ++ to_be_bytes w32 len) result (W.taken sink.old)
        (W.taken sink.new) page.old page.new (W.faults sink.old) (W.faults sink.new) }
    ensures beside { W.beside_taken sink.new ≡ W.beside_taken sink.old }
{
    page.make_room(sink, 8)?;
    page.put_head(of, len);
    Ok(())
}

/// Pushes bytes: onto the page, or straight to the sink if they are more than a page holds.
fn push_bytes<W: Sink, const N: usize>(
    page: &mut Page<N>,
    sink: &mut W,
    bytes: &[u8],
) -> Result<(), Failed>
    ensures pushes { Pushes bytes.now result (W.taken sink.old) (W.taken sink.new) page.old page.new
        (W.faults sink.old) (W.faults sink.new) }
    ensures beside { W.beside_taken sink.new ≡ W.beside_taken sink.old }
{
    if N < bytes.len() {
        return push_past(page, sink, bytes);
    }
    page.make_room(sink, bytes.len())?;
    page.put(bytes);
    Ok(())
}

/// Pushes bytes straight to the sink, after those that stand on the page.
fn push_past<W: Sink, const N: usize>(
    page: &mut Page<N>,
    sink: &mut W,
    bytes: &[u8],
) -> Result<(), Failed>
    ensures pushes { Pushes bytes.now result (W.taken sink.old) (W.taken sink.new) page.old page.new
        (W.faults sink.old) (W.faults sink.new) }
    ensures beside { W.beside_taken sink.new ≡ W.beside_taken sink.old }
{
    page.flush(sink)?;
    put_all(sink, bytes)
}
