//! Reads tags from JSON.

ghost use Rattle.std.specs.Prelude.{◌≡◌, ◌≤◌, ◌+◌, length, IfOk, IfErr, OnOk, MatchResult, Some};
ghost use Rattle.serde_json.specs.View.{view, items_view};
ghost use Rattle.dmap_tags.specs.Tree.{Tree, trees_of};
ghost use Rattle.dmap_json.specs.Reads.{Reads};
ghost use Rattle.dmap_json.specs.Faults.{Explains};
ghost use Rattle.dmap_json.specs.Places.{places, below, all_below};
ghost use Rattle.dmap_json.specs.Walk.{IsHead, IsRead, AreRead, Stops};
ghost use Rattle.serde_json.specs.Data.{Data};
ghost use Rattle.dmap_tags.specs.Codes.{Four};
ghost use Rattle.std.specs.Prelude.{Option};

use crate::error::JsonError;
use crate::head::{Head, Held, read_head};
use code_table::CodeTable;
use dmap_tags::{Code, Tag, Tags, Value};
use serde_json::Value as Json;
use std::alloc::Global;

/// The most levels of a tag that is read.
const MOST_LEVELS: u64 = 32;

/// Returns the tag whose JSON value a text has. Blanks, escapes and the order of keys are free, and of equal keys the
/// last counts.
///
/// # Errors
/// Returns `Syntax` if the text is not JSON, `Shape` with the index of the first JSON value that has to be a tag's
/// object and is not, and `Memory` if an allocation fails.
pub fn from_json(alloc: Global, text: &str, table: &CodeTable) -> Result<Tag, JsonError>
    ensures read { IfOk result (λ tag. Reads table.now text.now tag) }
    ensures complete { (t : Tree) → Reads table.now text.now t
        → MatchResult result (λ tag. tag ≡ t) (λ e. e ≡ JsonError.Memory) }
    ensures refused { IfErr result (λ e. Explains table.now text.now e) }
{
    match Json::from_str(alloc, text) {
        Ok(json) => read_tag(alloc, table, None, 1, &json, &mut 0),
        Err(error) if error.is_memory() => Err(JsonError::Memory),
        Err(_) => Err(JsonError::Syntax),
    }
}

/// Returns the tag of an object at `level`, from 1 at the top. `count` counts the values that have to be objects.
#[cycle(read)]
fn read_tag(
    alloc: Global,
    table: &CodeTable,
    parent: Option<Code>,
    level: u64,
    json: &Json,
    count: &mut u64,
) -> Result<Tag, JsonError>
    requires { level ≤ 33 }
    ensures read { IfOk result (λ t. IsRead table.now parent level (view json.now) t) }
    ensures counted { OnOk result
        (count.new ≡ count.old + length (places level parent (view json.now))) }
    ensures refused { IfErr result
        (λ e. Stops table.now count.old (places level parent (view json.now)) e) }
{
    let index = *count;
    *count = index.checked_add(1).ok_or(JsonError::Memory)?;
    if level > MOST_LEVELS {
        return Err(JsonError::Shape { index });
    }
    match read_head(alloc, table, parent, json)? {
        Some(head) => read_held(alloc, table, head, level, count),
        None => Err(JsonError::Shape { index }),
    }
}

/// Returns the tag with these parts, and with the tags in its list.
#[cycle(read)]
fn read_held(
    alloc: Global,
    table: &CodeTable,
    head: Head<'_>,
    level: u64,
    count: &mut u64,
) -> Result<Tag, JsonError>
    requires { level ≤ 32 }
    ensures read { (parent : Option Four) (d : Data) → IsHead table.now parent d head.entry
        → IfOk result (λ t. IsRead table.now parent level d t) }
    ensures counted { (parent : Option Four) (d : Data) → IsHead table.now parent d head.entry
        → OnOk result (count.new ≡ count.old + length (below level d)) }
    ensures refused { (parent : Option Four) (d : Data) → IsHead table.now parent d head.entry
        → IfErr result (λ e. Stops table.now count.old (below level d) e) }
{
    let Head { code, held } = head;
    match held {
        Held::Leaf(value) => Ok(Tag { code, value }),
        Held::List(members) => {
            let tags = read_tags(alloc, table, code, level + 1, members, count)?;
            Ok(Tag {
                code,
                value: Value::List(Tags::of(tags)),
            })
        }
    }
}

/// Returns the tags of a list's objects, which are at `level`.
#[cycle(read)]
fn read_tags(
    alloc: Global,
    table: &CodeTable,
    parent: Code,
    level: u64,
    members: &[Json],
    count: &mut u64,
) -> Result<Vec<Tag>, JsonError>
    requires { level ≤ 33 }
    ensures read { IfOk result (λ tags. AreRead table.now parent level (items_view members.now)
        (trees_of tags.items)) }
    ensures counted { OnOk result
        (count.new ≡ count.old + length (all_below level parent (items_view members.now))) }
    ensures refused { IfErr result
        (λ e. Stops table.now count.old (all_below level parent (items_view members.now)) e) }
{
    let mut tags = Vec::with_capacity(alloc, members.len())?;
    for member in members {
        tags.push(read_tag(alloc, table, Some(parent), level, member, count)?)?;
    }
    Ok(tags)
}
