//! Tags, and listings of all their entries.

ghost use Rattle.std.specs.Prelude.{◌≡◌, ◌≤◌, ◌++◌, ◌∷◌, [], true, false, length, IfOk, OnOk};
ghost use Rattle.dmap_tags.specs.Tree.{leaf, list, trees_of, U8, U32, Text as Words};
ghost use Rattle.share_history.specs.Bodies.{start_tags};
ghost use Rattle.share_history.specs.Databases.{whole_body, entry_tag};
ghost use Rattle.share_replies.specs.Replies.{Tagged};
ghost use Rattle.share_core.specs.Contents.{IsContent};
ghost use Rattle.share_core.specs.Short.{AreShort, entries_limit};

use crate::answer::ReplyContent;
use crate::contents::tagged;
use dmap_tags::{Code, Tag, Tags, Text, Value};
use std::alloc::{AllocError, Global};

pub(crate) fn number(of: Code, n: u32) -> Tag
    ensures { result ≡ leaf of (U32 n) }
{
    Tag {
        code: of,
        value: Value::U32(n),
    }
}

pub(crate) fn small_number(of: Code, n: u8) -> Tag
    ensures { result ≡ leaf of (U8 n) }
{
    Tag {
        code: of,
        value: Value::U8(n),
    }
}

pub(crate) fn push_number(tags: &mut Tags, of: Code, n: u32) -> Result<(), AllocError>
    ensures { OnOk result (tags.new ≡ tags.old ++ leaf of (U32 n) ∷ []) }
{
    tags.push(number(of, n))
}

pub(crate) fn text(alloc: Global, of: Code, words: &str) -> Result<Tag, AllocError>
    ensures { IfOk result (λ tag. tag ≡ leaf of (Words words.now)) }
{
    Ok(Tag {
        code: of,
        value: Value::Text(Text::of(alloc, words)?),
    })
}

pub(crate) fn list(of: Code, members: Tags) -> Tag
    ensures { result ≡ list of (trees_of members) }
{
    Tag {
        code: of,
        value: Value::List(members),
    }
}

fn start(alloc: Global, revision: u32, count: u32) -> Result<Tags, AllocError>
    ensures { IfOk result (λ tags. tags ≡ start_tags false revision count count) }
{
    let mut tags = Tags::new(alloc);
    tags.push(number(Code(*b"mstt"), 200))?;
    tags.push(small_number(Code(*b"muty"), 0))?;
    tags.push(number(Code(*b"musr"), revision))?;
    tags.push(number(Code(*b"mtco"), count))?;
    tags.push(number(Code(*b"mrco"), count))?;
    Ok(tags)
}

/// Returns the reply that lists all the entries.
pub(crate) fn whole(
    alloc: Global,
    of: Code,
    entries_of: Code,
    revision: u32,
    entries: Tags,
) -> Result<ReplyContent, AllocError>
    requires few { length entries ≤ entries_limit }
    requires short { AreShort entries }
    ensures { IfOk result (λ content. IsContent
        (200, Tagged (whole_body of entries_of revision entries)) content) }
{
    let count = entries.as_slice().len() as u32;
    let mut tags = start(alloc, revision, count)?;
    tags.push(list(entries_of, entries))?;
    Ok(tagged(list(of, tags)))
}
