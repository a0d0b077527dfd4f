//! What an edit names.

ghost use Rattle.std.specs.Prelude.{◌≡◌, option_to_list};
ghost use Rattle.share_history.specs.Named.{lists_in};

use item_model::Edit;

/// Returns the id of the list that an edit puts or drops.
pub fn list_of(edit: &Edit) -> Option<u32>
    ensures { option_to_list result ≡ lists_in edit.now }
{
    match edit {
        Edit::PutList { list, .. } | Edit::PutRule { list, .. } | Edit::DropList { list } => {
            Some(*list)
        }
        _ => None,
    }
}
