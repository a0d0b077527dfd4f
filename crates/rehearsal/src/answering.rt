//! One request of a mirror: the store's listing for its look, applied to the mirror.

ghost use Rattle.std.specs.Prelude.{◌≡◌, ◌≤◌, List, IfOk};
ghost use Rattle.code_table.specs.Standard.{standard_rows};
ghost use Rattle.item_model.specs.declared.changes.Edit.{Edit};
ghost use Rattle.item_model.specs.declared.request.Meta.TheVariants.{Default};
ghost use Rattle.item_model.specs.declared.request.Range.TheVariants.{All};
ghost use Rattle.item_model.specs.declared.request.Target.TheVariants.{Items};
ghost use Rattle.mirror_core.specs.Bodies.{IsListing};
ghost use Rattle.share_history.specs.Bodies.{body_tree};
ghost use Rattle.share_history.specs.Kept.{is_kept};
ghost use Rattle.share_history.specs.Listings.{Listing, listing};
ghost use Rattle.share_history.specs.Mirror.{mirror_after, mirror_look};
ghost use Rattle.rehearsal.specs.Shares.{IsShare, MayAsk};

use crate::carried::carry_plan;
use code_table::CodeTable;
use dmap_tags::Tag;
use item_model::Look;
use item_store::ItemStore;
use mirror_core::{Mirror, MirrorError};
use share_listings::items_listing;
use std::alloc::{AllocError, Global};

// Brings a mirror up to date with the store. Returns whether the response was a delta.
pub(crate) fn update_mirror(
    alloc: Global,
    table: &CodeTable,
    store: &ItemStore,
    mirror: &mut Mirror,
) -> Result<bool, AllocError>
    requires table { table.now ≡ standard_rows }
    requires asks { (bs : List (List Edit)) × IsShare bs store.now × MayAsk bs mirror.old }
    ensures delta { IfOk result (λ is_delta. (bs : List (List Edit)) → IsShare bs store.now
        → MayAsk bs mirror.old
        → is_delta ≡ is_kept store.now.keep bs Items mirror.old.held.revision) }
    ensures held { IfOk result (λ _. (bs : List (List Edit)) → IsShare bs store.now
        → MayAsk bs mirror.old
        → mirror.new ≡ record {
          target = mirror.old.target;
          query = mirror.old.query;
          meta = mirror.old.meta;
          held = mirror_after mirror.old.held (listing store.now.keep bs Items (mirror_look mirror.old.query mirror.old.meta mirror.old.held.revision));
        }) }
{
    let look = mirror.look()?;
    let body = body_for(alloc, table, store, look)?;
    take(mirror, &body)
}

// Returns the body of the response to a look, as the mirror reads it.
fn body_for(
    alloc: Global,
    table: &CodeTable,
    store: &ItemStore,
    look: Look,
) -> Result<Tag, AllocError>
    requires table { table.now ≡ standard_rows }
    requires share { (bs : List (List Edit)) × IsShare bs store.now }
    requires meta { look.meta ≡ Default }
    requires whole { look.range ≡ All }
    ensures { IfOk result (λ body. (bs : List (List Edit)) → IsShare bs store.now
        → body ≡ body_tree Items (listing store.now.keep bs Items look)) }
{
    let plan = items_listing(alloc, store, look)?;
    carry_plan(alloc, table, &plan)
}

// Applies a body that is a listing and not an older one. Returns whether it was a delta.
fn take(mirror: &mut Mirror, body: &Tag) -> Result<bool, AllocError>
    requires { (l : Listing) × IsListing mirror.old.target mirror.old.held.revision l body.now
        × (mirror.old.held.revision ≤ l.revision) }
    ensures delta { IfOk result (λ is_delta. (l : Listing)
        → IsListing mirror.old.target mirror.old.held.revision l body.now → is_delta ≡ l.is_delta) }
    ensures held { IfOk result (λ _. (l : Listing)
        → IsListing mirror.old.target mirror.old.held.revision l body.now
        → mirror.new ≡ record { target = mirror.old.target; query = mirror.old.query; meta = mirror.old.meta; held = mirror_after mirror.old.held l }) }
{
    match mirror.apply(body) {
        Ok(applied) => Ok(applied.delta),
        Err(MirrorError::Memory) => Err(AllocError),
        Err(MirrorError::NotListing { .. }) => unreachable!(),
        Err(MirrorError::Backwards { .. }) => unreachable!(),
    }
}
