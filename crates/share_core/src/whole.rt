//! The rows of a batch are whole because their type guarantees it.

ghost use Rattle.std.specs.List.{AllByRecursion};
ghost use Rattle.share_history.specs.Whole.{PutsWhole};

use item_model::Edit;

fn row_is_whole(edit: &Edit)
    ensures { PutsWhole edit.now }
{
    if let Edit::PutItem { row } = edit {
        row.row().item.is_whole();
    }
}

/// States that each row that the edits put is whole. The call changes nothing.
pub(crate) fn rows_are_whole(edits: &[Edit])
    ensures { AllByRecursion PutsWhole edits.now }
{
    for edit in edits {
        row_is_whole(edit);
    }
}
