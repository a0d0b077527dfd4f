//! The forms of a reply.

ghost use Rattle.std.specs.Prelude.{◌≡◌, true};
ghost use Rattle.dmap_tags.specs.Spelling.{is_spellable};
ghost use Rattle.share_replies.specs.Replies.{Nothing, Allowed, Line, Tagged};
ghost use Rattle.share_core.specs.Contents.{IsContent};

use crate::answer::ReplyContent;
use dmap_tags::{Bytes, Tag};
use listing_plan::Plan;
use share_asks::{BodyForm, Verb};

/// A status without a body.
pub(crate) fn nothing(status: u16) -> ReplyContent
    ensures { IsContent (status, Nothing) result }
{
    ReplyContent {
        status,
        form: BodyForm::NoBody,
        plan: Plan::Empty,
    }
}

/// 405 with the one method that is allowed.
pub(crate) fn allowed(verb: Verb) -> ReplyContent
    ensures { IsContent (405, Allowed verb) result }
{
    ReplyContent {
        status: 405,
        form: BodyForm::Allow(verb),
        plan: Plan::Empty,
    }
}

/// 400 with a line that states what is wrong.
pub(crate) fn line(text: Vec<u8>) -> ReplyContent
    ensures { IsContent (400, Line text.items) result }
{
    ReplyContent {
        status: 400,
        form: BodyForm::Plain,
        plan: Plan::Plain(Bytes::from(text)),
    }
}

/// 200 with a tag as the body.
pub(crate) fn tagged(tag: Tag) -> ReplyContent
    requires { is_spellable tag ≡ true }
    ensures { IsContent (200, Tagged tag) result }
{
    ReplyContent {
        status: 200,
        form: BodyForm::Dmap,
        plan: Plan::Tagged(tag),
    }
}
