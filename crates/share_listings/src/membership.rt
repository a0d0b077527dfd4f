//! Which items the members of a target are: all of the library, or those of a list.

ghost use Rattle.std.specs.Prelude.{◌≡◌, ◌≤◌, List, true, IfOk};
ghost use Rattle.std.specs.Option.{option_and_then};
ghost use Rattle.item_model.specs.declared.changes.Edit.{Edit};
ghost use Rattle.item_model.specs.declared.request.Target.{Target};
ghost use Rattle.item_model.specs.declared.request.Target.TheVariants.{Items};
ghost use Rattle.item_store.specs.Stands as item_stands;
ghost use Rattle.item_store.specs.Stands.{floor_of};
ghost use Rattle.playlist_store.specs.Stands.{StandsFor};
ghost use Rattle.item_store.specs.Store.{Store};
ghost use Rattle.share_history.specs.Histories.{edits, up_to};
ghost use Rattle.share_history.specs.Kept.{is_kept, touched};
ghost use Rattle.share_history.specs.LastSaid.{item_at};
ghost use Rattle.share_history.specs.Rows.{in_target};
ghost use Rattle.share_listings.specs.Changes.{TellsSince};
ghost use Rattle.share_listings.specs.Memberships.{IsBeside, IsMembership, Tells, TellsFew};

use item_model::Target;
use item_store::ItemStore;
use playlist_store::PlaylistStore;
use share_history::BASE_LIST;
use std::alloc::AllocError;

/// What the members of a target are, and which store has them.
#[derive(Clone, Copy)]
pub(crate) enum Membership<'a> {
    /// All items of the library, each under its id.
    Library,
    /// The members of a list, each under its key.
    Members { lists: &'a PlaylistStore, list: u32 },
}

/// Returns the membership of a target.
pub(crate) fn membership_of(target: Target, lists: &PlaylistStore) -> Membership<'_>
    ensures { (bs : List (List Edit)) → StandsFor bs lists.now
        → IsMembership lists.now.keep bs target result }
{
    match target {
        Target::Container(list) if list != BASE_LIST => Membership::Members { lists, list },
        _ => Membership::Library,
    }
}

/// Returns the id of the item that a key has.
pub(crate) fn item_under(items: &ItemStore, membership: Membership<'_>, key: u32) -> Option<u32>
    requires { IsBeside membership }
    ensures { (bs : List (List Edit)) (target : Target) → Tells bs items.now target membership.entry
        → option_and_then (item_at (edits bs)) result ≡ in_target (edits bs) target key }
{
    match membership {
        Membership::Library => Some(key),
        Membership::Members { lists, list } => lists.member_at(list, key, items.revision()),
    }
}

/// Returns the id of the item that a key had at a kept base.
pub(crate) fn item_then(membership: Membership<'_>, key: u32, base: u32) -> Option<u32>
    requires { IsBeside membership }
    ensures { (bs : List (List Edit)) (items : Store) (target : Target)
        → TellsSince bs items target membership.entry base
        → option_and_then (item_at (edits (up_to bs base))) result ≡ in_target (edits (up_to bs base)) target key }
{
    match membership {
        Membership::Library => Some(key),
        Membership::Members { lists, list } => lists.member_at(list, key, base),
    }
}

/// Returns whether the stores have what changed since a base.
pub(crate) fn is_kept(items: &ItemStore, membership: Membership<'_>, base: u32) -> bool
    requires few { (target : Target) × TellsFew items.now target membership }
    ensures kept { (bs : List (List Edit)) (target : Target)
        → Tells bs items.now target membership.entry
        → result ≡ is_kept items.now.keep bs target base }
    ensures from { result ≡ true → floor_of items.now.keep items.now.revision ≤ base }
    ensures to { result ≡ true → base ≤ items.now.revision }
{
    match membership {
        Membership::Library => is_in_window(items, base),
        Membership::Members { lists, list } => lists.kept(list, base),
    }
}

/// Returns whether the store has what changed of the items since a base.
fn is_in_window(items: &ItemStore, base: u32) -> bool
    ensures kept { (bs : List (List Edit)) → item_stands.StandsFor bs items.now
        → result ≡ is_kept items.now.keep bs Items base }
    ensures from { result ≡ true → floor_of items.now.keep items.now.revision ≤ base }
    ensures to { result ≡ true → base ≤ items.now.revision }
{
    items.floor() <= base && base <= items.revision()
}

/// Returns the keys that batches after a base touched, in ascending order.
pub(crate) fn touched_keys(
    items: &ItemStore,
    membership: Membership<'_>,
    base: u32,
) -> Result<Vec<u32>, AllocError>
    requires few { (target : Target) × TellsFew items.now target membership }
    requires from { floor_of items.now.keep items.now.revision ≤ base }
    requires to { base ≤ items.now.revision }
    ensures { IfOk result (λ keys. (bs : List (List Edit)) (target : Target)
        → Tells bs items.now target membership.entry → keys.items ≡ touched bs target base) }
{
    match membership {
        Membership::Library => items.changed_since(base),
        Membership::Members { lists, list } => lists.changed_since(list, base, items),
    }
}
