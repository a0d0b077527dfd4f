//! Lists and their members.

ghost use Rattle.std.specs.Prelude.{◌≡◌, ◌++◌, unwrap_or, option_map};
ghost use Rattle.share_history.specs.Histories.{all_edits};
ghost use Rattle.share_history.specs.LastSaid.{last_said, says_list, says_member, list_at, member_at};
ghost use Rattle.reference_share.specs.PlaylistSeen.{playlist_of};

use crate::revisions::edits_of;
use dmap_tags::Text;
use item_model::{Edit, Entry, Query};

/// An existing list: a playlist whose members are put, or a smart playlist of the items that match a rule.
#[derive(Clone, Copy)]
pub enum PlaylistRef<'a> {
    Plain { name: &'a Text },
    Ruled { name: &'a Text, rule: &'a Query },
}

// Returns what the edit says of list `id`, or `found` if it says nothing.
fn list_after<'a>(
    found: Option<PlaylistRef<'a>>,
    edit: &'a Edit,
    id: u32,
) -> Option<PlaylistRef<'a>>
    ensures { option_map playlist_of result
        ≡ unwrap_or (says_list id edit.now) (option_map playlist_of found.entry) }
{
    match edit {
        Edit::PutList { list, name } => {
            if *list == id {
                return Some(PlaylistRef::Plain { name });
            }
            found
        }
        Edit::PutRule { list, name, rule } => {
            if *list == id {
                return Some(PlaylistRef::Ruled { name, rule });
            }
            found
        }
        Edit::DropList { list } => {
            if *list == id {
                return None;
            }
            found
        }
        _ => found,
    }
}

// Returns what the last of `edits` that names list `id` says, or `found`.
fn list_in<'a>(
    mut found: Option<PlaylistRef<'a>>,
    edits: &'a [Edit],
    id: u32,
) -> Option<PlaylistRef<'a>>
    ensures { option_map playlist_of result
        ≡ unwrap_or (last_said (says_list id) edits.now) (option_map playlist_of found.entry) }
{
    for edit in edits {
        found = list_after(found, edit, id);
    }
    found
}

/// Returns the list `id`. Container 1 is not a list of a history.
#[tactic(auto, using(crate::proofs::SaidFacts::said_entries_left))]
pub fn list(history: &[Entry], id: u32) -> Option<PlaylistRef<'_>>
    ensures { option_map playlist_of result ≡ list_at (all_edits history.now) id }
{
    let mut found = None;
    for entry in history {
        found = list_in(found, edits_of(entry), id);
    }
    found
}

// Returns the list `id` after the history and `edits`.
#[tactic(auto, using(crate::proofs::SaidFacts::said_more_edits))]
pub(crate) fn list_with<'a>(
    history: &'a [Entry],
    edits: &'a [Edit],
    id: u32,
) -> Option<PlaylistRef<'a>>
    ensures { option_map playlist_of result ≡ list_at (all_edits history.now ++ edits.now) id }
{
    list_in(list(history, id), edits, id)
}

// Returns what the edit says of the member, or `found` if it says nothing.
fn member_after(found: Option<u32>, edit: &Edit, list: u32, member: u32) -> Option<u32>
    ensures { result ≡ unwrap_or (says_member list member edit.now) found }
{
    match edit {
        Edit::PutList { list: changed, .. }
        | Edit::PutRule { list: changed, .. }
        | Edit::DropList { list: changed } => {
            if *changed == list {
                return None;
            }
            found
        }
        Edit::PutMember {
            list: changed,
            member: key,
            item,
        } => {
            if *changed == list && *key == member {
                return Some(*item);
            }
            found
        }
        Edit::DropMember {
            list: changed,
            member: key,
        } => {
            if *changed == list && *key == member {
                return None;
            }
            found
        }
        _ => found,
    }
}

// Returns what the last of `edits` that names the member says, or `found`.
fn member_in(mut found: Option<u32>, edits: &[Edit], list: u32, member: u32) -> Option<u32>
    ensures { result ≡ unwrap_or (last_said (says_member list member) edits.now) found }
{
    for edit in edits {
        found = member_after(found, edit, list, member);
    }
    found
}

/// Returns the id of a member's item.
#[tactic(auto, using(crate::proofs::SaidFacts::said_entries_left))]
pub fn member(history: &[Entry], list: u32, member: u32) -> Option<u32>
    ensures { result ≡ member_at (all_edits history.now) list member }
{
    let mut found = None;
    for entry in history {
        found = member_in(found, edits_of(entry), list, member);
    }
    found
}
