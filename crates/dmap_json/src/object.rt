//! The members of a tag's object.

ghost use Rattle.std.specs.Prelude.{◌≡◌, ℕ, List, MatchOption};
ghost use Rattle.serde_json.specs.Data.{Data};
ghost use Rattle.serde_json.specs.View.{view};
ghost use Rattle.dmap_json.specs.TagObject.{tag_object};

use serde_json::Value as Json;

/// The members of a tag's object. It has exactly the keys `code`, `kind` and `value`, the first two with strings.
#[derive(Clone, Copy)]
pub(crate) struct TagObject<'a> {
    pub(crate) code: &'a str,
    pub(crate) kind: &'a str,
    pub(crate) value: &'a Json,
}

/// Returns the members of `json`, or `None` if it does not have exactly those of a tag's object.
pub(crate) fn object_from(json: &Json) -> Option<TagObject<'_>>
    ensures { MatchOption result ((code kind : List ℕ) (value : Data)
        → view json.now ≡ tag_object code kind value → ⊥)
        (λ o. view json.now ≡ tag_object o.code.now o.kind.now (view o.value.now)) }
{
    let mut members = json.as_object()?.iter();
    let (first, code) = members.next()?;
    let (second, kind) = members.next()?;
    let (third, value) = members.next()?;
    if first.as_str() != "code" || second.as_str() != "kind" || third.as_str() != "value" {
        return None;
    }
    match members.next() {
        None => Some(TagObject {
            code: code.as_str()?,
            kind: kind.as_str()?,
            value,
        }),
        Some(_) => None,
    }
}
