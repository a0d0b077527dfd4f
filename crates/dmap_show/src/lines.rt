//! The lines of tags and of events, and the codes in them.

ghost use Rattle.std.specs.Prelude.{◌≡◌, ◌++◌, List, IfOk, OnOk, OnErr, true};
ghost use Rattle.code_table.specs.declared.row.CodeRow.{CodeRow};
ghost use Rattle.std.specs.Str.{is_utf8};
ghost use Rattle.dmap_tags.specs.Begins.{Begins};
ghost use Rattle.dmap_tags.specs.Seen.{tree_with};
ghost use Rattle.dmap_tags.specs.Tree.{trees_of};
ghost use Rattle.dmap_show.specs.Readable.{IsTag, AreTags, AreShallow, Shows};
ghost use Rattle.dmap_show.specs.Shown.{shown_code, shown_tag, shown_tags};
ghost use Rattle.dmap_show.specs.Events.{shown_event};

use crate::adding::push_code;
use crate::values::{push_front, push_line};
use dmap_stream::Event;
use dmap_tags::{Code, Tag, Text, Value};
use std::alloc::{AllocError, Global};

/// Returns the lines of tags at the top level. `read_show` reads the tags back under a table that they fit.
#[tactic(auto, using(crate::proofs::Utf8::nothing_is_utf8))]
pub fn show(alloc: Global, tags: &[Tag]) -> Result<Text, AllocError>
    ensures shown { IfOk result (λ text. text ≡ shown_tags 0 (trees_of tags.now)) }
    ensures tags { OnOk result (AreTags (trees_of tags.now)) }
    ensures reads_back { (rows : List CodeRow) → AreShallow rows tags.now
        → IfOk result (λ text. Shows rows text tags.now) }
{
    let mut lines = Vec::new(alloc);
    push_tags(0, tags, &mut lines)?;
    match Text::from_utf8(lines) {
        Ok(text) => Ok(text),
        Err(_) => unreachable!(),
    }
}

/// Appends the line of an event to `out`: nothing for a `Close`. `level` is the number of open lists around the tag,
/// 0 at the top.
pub fn show_event(event: &Event, level: u32, out: &mut Vec<u8>) -> Result<(), AllocError>
    ensures shown { OnOk result (out.new.items ≡ out.old.items ++ shown_event level event.now) }
    ensures unchanged { OnErr result (out.new.items ≡ out.old.items) }
{
    let before = out.len();
    if let Err(error) = push_event(u64::from(level), event, out) {
        out.truncate(before);
        return Err(error);
    }
    Ok(())
}

/// Appends a content code to `out`, as a line has it.
pub fn show_code(code: Code, out: &mut Vec<u8>) -> Result<(), AllocError>
    ensures shown { OnOk result (out.new.items ≡ out.old.items ++ shown_code code) }
    ensures unchanged { OnErr result (out.new.items ≡ out.old.items) }
{
    let before = out.len();
    if let Err(error) = push_code(code, out) {
        out.truncate(before);
        return Err(error);
    }
    Ok(())
}

fn push_event(level: u64, event: &Event, out: &mut Vec<u8>) -> Result<(), AllocError>
    ensures shown { OnOk result (out.new.items ≡ out.old.items ++ shown_event level event.now) }
    ensures front { OnErr result (Begins out.old.items out.new.items) }
{
    match event {
        Event::Open { code, .. } => push_front(level, *code, " list\n", out),
        Event::Leaf { code, value, .. } => push_tag(level, *code, value, out),
        Event::Close { .. } => Ok(()),
    }
}

/// Appends the lines of a tag and of all tags in it. No tag is deeper than 64 bits count: its indentation would not fit
/// in memory either.
#[cycle(push_tag)]
fn push_tag(level: u64, code: Code, value: &Value, out: &mut Vec<u8>) -> Result<(), AllocError>
    ensures shown { OnOk result (out.new.items
        ≡ out.old.items ++ shown_tag level (tree_with code value.now)) }
    ensures held { OnOk result (IsTag (tree_with code value.now)) }
    ensures text { is_utf8 out.old.items ≡ true → OnOk result (is_utf8 out.new.items ≡ true) }
    ensures front { OnErr result (Begins out.old.items out.new.items) }
{
    push_line(level, code, value, out)?;
    match value {
        Value::List(tags) => {
            let below = level.checked_add(1).ok_or(AllocError)?;
            push_tags(below, tags.as_slice(), out)
        }
        // Only a list has members.
        _ => Ok(()),
    }
}

/// Appends the lines of tags in order.
#[cycle(push_tag)]
#[tactic(auto, using(dmap_tags::proofs::Sizes::member_falls, dmap_tags::proofs::Fronts::begins_more))]
fn push_tags(level: u64, tags: &[Tag], out: &mut Vec<u8>) -> Result<(), AllocError>
    ensures shown { OnOk result (out.new.items
        ≡ out.old.items ++ shown_tags level (trees_of tags.now)) }
    ensures held { OnOk result (AreTags (trees_of tags.now)) }
    ensures text { is_utf8 out.old.items ≡ true → OnOk result (is_utf8 out.new.items ≡ true) }
    ensures front { OnErr result (Begins out.old.items out.new.items) }
{
    for tag in tags {
        push_tag(level, tag.code, &tag.value, out)?;
    }
    Ok(())
}
