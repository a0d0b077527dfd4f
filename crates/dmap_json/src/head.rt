//! The parts of a tag's object, without the members of a list.

ghost use Rattle.std.specs.Prelude.{◌≡◌, true, IfOk, MatchOption};
ghost use Rattle.serde_json.specs.Data.{array, Items};
ghost use Rattle.serde_json.specs.View.{view};
ghost use Rattle.dmap_tags.specs.Kinds.{is_list};
ghost use Rattle.dmap_tags.specs.Seen.{tree_with};
ghost use Rattle.dmap_tags.specs.declared.tree.Value.{Value as TagValue};
ghost use Rattle.code_table.specs.Fits.{fits};
ghost use Rattle.code_table.specs.Rows.{kind_in};
ghost use Rattle.dmap_json.specs.Walk.{IsHead, IsListHead, IsLeafHead, HasNoObject};
ghost use Rattle.dmap_json.specs.Parts.{IsValueOf};

use crate::hex::code_from;
use crate::object::object_from;
use crate::parts::{kind_from, value_from};
use code_table::CodeTable;
use dmap_tags::{Code, Kind, Tag, Value};
use serde_json::Value as Json;
use std::alloc::{AllocError, Global};

/// A tag's code, and its value or the JSON values of its members.
#[derive(Drop)]
pub(crate) struct Head<'a> {
    pub(crate) code: Code,
    pub(crate) held: Held<'a>,
}

#[derive(Drop)]
pub(crate) enum Held<'a> {
    Leaf(Value),
    List(&'a [Json]),
}

/// Returns the parts of a tag's object, or `None` if `json` is not one that fits the table there. `parent` is the
/// code of the list around it, `None` at the top.
pub(crate) fn read_head<'a>(
    alloc: Global,
    table: &CodeTable,
    parent: Option<Code>,
    json: &'a Json,
) -> Result<Option<Head<'a>>, AllocError>
    ensures { IfOk result (λ r. MatchOption r (HasNoObject table.now parent (view json.now))
        (λ head. IsHead table.now parent (view json.now) head)) }
{
    let Some(object) = object_from(json) else {
        return Ok(None);
    };
    let Some(code) = code_from(object.code) else {
        return Ok(None);
    };
    let Some(kind) = kind_from(object.kind) else {
        return Ok(None);
    };
    if kind == Kind::List {
        return Ok(list_head(table, parent, code, object.value));
    }
    leaf_head(alloc, table, parent, code, kind, object.value)
}

/// Returns the parts of a list's object.
fn list_head<'a>(
    table: &CodeTable,
    parent: Option<Code>,
    code: Code,
    value: &'a Json,
) -> Option<Head<'a>>
    ensures { MatchOption result
        ((is_list (kind_in table.now parent code) ≡ true) → (ds : Items) → view value.now ≡ array ds → ⊥)
        (λ head. (is_list (kind_in table.now parent code) ≡ true) × IsListHead code (view value.now) head) }
{
    let members = value.as_array()?;
    if table.kind_of(parent, code) == Kind::List {
        Some(Head {
            code,
            held: Held::List(members.as_slice()),
        })
    } else {
        None
    }
}

/// Returns the parts of another tag's object.
fn leaf_head<'a>(
    alloc: Global,
    table: &CodeTable,
    parent: Option<Code>,
    code: Code,
    kind: Kind,
    value: &'a Json,
) -> Result<Option<Head<'a>>, AllocError>
    ensures { IfOk result (λ r. MatchOption r
        ((v : TagValue) → IsValueOf kind (view value.now) v → fits table.now parent (tree_with code v) ≡ true → ⊥)
        (λ head. IsLeafHead table.now parent code kind (view value.now) head)) }
{
    let Some(value) = value_from(alloc, kind, value)? else {
        return Ok(None);
    };
    let tag = Tag { code, value };
    if !table.fits(parent, &tag) {
        return Ok(None);
    }
    let Tag { code, value } = tag;
    Ok(Some(Head {
        code,
        held: Held::Leaf(value),
    }))
}
