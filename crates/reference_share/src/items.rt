//! Items and the library.

ghost use Rattle.std.specs.Prelude.{◌≡◌, unwrap_or, option_copied};
ghost use Rattle.share_history.specs.Histories.{all_edits};
ghost use Rattle.share_history.specs.LastSaid.{last_said, says_item, item_at};

use crate::revisions::edits_of;
use item_model::{Edit, Entry, Row};

// Returns what the edit says of item `id`, or `found` if it says nothing.
fn item_after<'a>(found: Option<&'a Row>, edit: &'a Edit, id: u32) -> Option<&'a Row>
    ensures { option_copied result ≡ unwrap_or (says_item id edit.now) (option_copied found.entry) }
{
    match edit {
        Edit::PutItem { row } => {
            if row.row().id == id {
                return Some(row.row());
            }
            found
        }
        Edit::DropItem { id: dropped } => {
            if *dropped == id {
                return None;
            }
            found
        }
        _ => found,
    }
}

// Returns what the last of `edits` that names item `id` says, or `found`.
fn item_in<'a>(mut found: Option<&'a Row>, edits: &'a [Edit], id: u32) -> Option<&'a Row>
    ensures { option_copied result
        ≡ unwrap_or (last_said (says_item id) edits.now) (option_copied found.entry) }
{
    for edit in edits {
        found = item_after(found, edit, id);
    }
    found
}

/// Returns the item `id`.
#[tactic(auto, using(crate::proofs::SaidFacts::said_entries_left))]
pub fn item(history: &[Entry], id: u32) -> Option<&Row>
    ensures { option_copied result ≡ item_at (all_edits history.now) id }
{
    let mut found = None;
    for entry in history {
        found = item_in(found, edits_of(entry), id);
    }
    found
}
