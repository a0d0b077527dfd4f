//! Replies without rows.

ghost use Rattle.std.specs.Prelude.{◌≡◌, ◌≤◌, length, IfOk};
ghost use Rattle.dmap_tags.specs.Codes.{code};
ghost use Rattle.dmap_tags.specs.Tree.{leaf, Version};
ghost use Rattle.code_table.specs.Standard.{standard_rows};
ghost use Rattle.code_table.specs.Reply.{table_reply};
ghost use Rattle.item_model.specs.Limits.{text_limit};
ghost use Rattle.share_replies.specs.Replies.{Tagged};
ghost use Rattle.share_replies.specs.SmallBodies.{server_info_body, login_body, revision_body};
ghost use Rattle.share_core.specs.Contents.{IsContent};

use crate::answer::ReplyContent;
use crate::contents::tagged;
use crate::tags::{list, number, small_number, text};
use code_table::CodeTable;
use dmap_tags::{Code, Tag, Tags, Text, Value};
use std::alloc::{AllocError, Global};

fn version(of: Code, n: u32) -> Tag
    ensures { result ≡ leaf of (Version n) }
{
    Tag {
        code: of,
        value: Value::Version(n),
    }
}

/// Returns the reply that describes the share.
#[tactic(auto, using(crate::proofs::Spellable::server_info_spellable))]
pub(crate) fn server_info(alloc: Global, name: &Text) -> Result<ReplyContent, AllocError>
    requires { length name.now ≤ text_limit }
    ensures { IfOk result (λ content. IsContent (200, Tagged (server_info_body name.now)) content) }
{
    let name = text(alloc, Code(*b"minm"), name.as_str())?;
    let tags = Vec::from_array(
        alloc,
        [
            number(Code(*b"mstt"), 200),
            version(Code(*b"mpro"), 0x0002_0000),
            version(Code(*b"apro"), 0x0003_0000),
            name,
            small_number(Code(*b"mslr"), 1),
            small_number(Code(*b"msau"), 0),
            number(Code(*b"mstm"), 1800),
            small_number(Code(*b"msup"), 1),
            small_number(Code(*b"msix"), 1),
            small_number(Code(*b"msbr"), 1),
            small_number(Code(*b"msqy"), 1),
            number(Code(*b"msdc"), 1),
        ],
    )?;
    Ok(tagged(list(Code(*b"msrv"), Tags::of(tags))))
}

/// Returns the reply with the table of content codes.
pub(crate) fn codes(alloc: Global) -> Result<ReplyContent, AllocError>
    ensures { IfOk result (λ content. IsContent (200, Tagged (table_reply standard_rows)) content) }
{
    let table = CodeTable::standard(alloc)?;
    Ok(tagged(table.reply()?))
}

/// Returns the reply to a login, with the id of the new session.
pub(crate) fn login_reply(alloc: Global, session: u32) -> Result<ReplyContent, AllocError>
    ensures { IfOk result (λ content. IsContent (200, Tagged (login_body session)) content) }
{
    let mut tags = Tags::new(alloc);
    tags.push(number(Code(*b"mstt"), 200))?;
    tags.push(number(Code(*b"mlid"), session))?;
    Ok(tagged(list(Code(*b"mlog"), tags)))
}

/// Returns the reply to an update, with a revision.
pub(crate) fn revision_reply(alloc: Global, revision: u32) -> Result<ReplyContent, AllocError>
    ensures { IfOk result (λ content. IsContent (200, Tagged (revision_body revision)) content) }
{
    let mut tags = Tags::new(alloc);
    tags.push(number(Code(*b"mstt"), 200))?;
    tags.push(number(Code(*b"musr"), revision))?;
    Ok(tagged(list(Code(*b"mupd"), tags)))
}
