//! What a batch makes of the rows under the ids that it names.

ghost use Rattle.std.specs.Prelude.{◌≡◌, ◌==◌, ℕ, Some, IfOk, OnOk, if◌then◌else◌};
ghost use Rattle.std.specs.Option.{option_or};
ghost use Rattle.share_history.specs.Keyed.{at, IsAscending};
ghost use Rattle.share_history.specs.LastSaid.{last_said, says_item};

use item_model::{Edit, SharedRow};
use std::alloc::{AllocError, Global};
use std::collections::BTreeMap;

// Under an id the row that it gets, or none.
type Changes = BTreeMap<u32, Option<SharedRow>>;

// What edits say of each id that they put or drop as an item, ascending by id: the last one decides.
pub(crate) fn changes_of(
    alloc: Global,
    edits: &[Edit],
) -> Result<Vec<(u32, Option<SharedRow>)>, AllocError>
    ensures ascending { IfOk result (λ changes. IsAscending changes.items) }
    ensures said { IfOk result (λ changes. (id : ℕ)
        → at id changes.items ≡ last_said (says_item id) edits.now) }
{
    let mut changes = BTreeMap::new(alloc);
    for edit in edits {
        note(&mut changes, edit)?;
    }
    listed(alloc, changes)
}

// Lets an edit decide what is said of its id.
fn note(changes: &mut Changes, edit: &Edit) -> Result<(), AllocError>
    ensures { OnOk result ((id : ℕ)
        → at id changes.new.entries
        ≡ option_or (says_item id edit.now) (at id changes.old.entries)) }
{
    match edit {
        Edit::PutItem { row } => note_row(changes, row),
        Edit::DropItem { id } => set(changes, *id, None),
        _ => Ok(()),
    }
}

fn note_row(changes: &mut Changes, row: &SharedRow) -> Result<(), AllocError>
    ensures { OnOk result ((id : ℕ)
        → at id changes.new.entries
        ≡ (if row.now.id == id then Some (Some row.now) else at id changes.old.entries)) }
{
    let shared = row.share()?;
    set(changes, row.row().id, Some(shared))
}

fn set(changes: &mut Changes, id: u32, row: Option<SharedRow>) -> Result<(), AllocError>
    ensures { OnOk result ((q : ℕ)
        → at q changes.new.entries ≡ (if id == q then Some row else at q changes.old.entries)) }
{
    match changes.insert(id, row) {
        Ok(_) => Ok(()),
        Err(_) => Err(AllocError),
    }
}

fn listed(alloc: Global, changes: Changes) -> Result<Vec<(u32, Option<SharedRow>)>, AllocError>
    ensures same { IfOk result (λ list. list.items ≡ changes.entries) }
    ensures ascending { IfOk result (λ list. IsAscending list.items) }
{
    let mut list = Vec::new(alloc);
    for change in changes {
        list.push(change)?;
    }
    Ok(list)
}
