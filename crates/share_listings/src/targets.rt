//! Which targets exist.

ghost use Rattle.std.specs.Prelude.{◌≡◌, List};
ghost use Rattle.item_model.specs.declared.changes.Edit.{Edit};
ghost use Rattle.playlist_store.specs.Stands.{StandsFor};
ghost use Rattle.share_history.specs.Histories.{edits};
ghost use Rattle.share_history.specs.Rows.{is_there};

use item_model::Target;
use playlist_store::PlaylistStore;
use share_history::BASE_LIST;

/// Returns whether the target of a listing exists.
pub fn is_there(lists: &PlaylistStore, target: Target) -> bool
    ensures { (bs : List (List Edit)) → StandsFor bs lists.now
        → result ≡ is_there (edits bs) target }
{
    match target {
        Target::Container(list) if list != BASE_LIST => lists.head(list).is_some(),
        _ => true,
    }
}
