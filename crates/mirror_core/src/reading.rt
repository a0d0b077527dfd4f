//! Reading a body.

ghost use Rattle.std.specs.Prelude.{◌≡◌, ◌≢◌, ◌≤◌, ◌<◌, ℕ, IfOk, MatchResult, Ok, Err, Option};
ghost use Rattle.share_history.specs.Listings.{Listing};
ghost use Rattle.mirror_core.specs.Bodies.{IsListing, IsNoListing};
ghost use Rattle.mirror_core.specs.Reading.{untold, placed, read_from, read_tag, listing_of};
ghost use Rattle.mirror_core.specs.ToldSeen.{told_of};
ghost use Rattle.mirror_core.specs.declared.told.Due.TheVariants.{Status};

use crate::mirror::MirrorError;
use crate::steps::passed;
use crate::tags::members_in;
use crate::told::{Due, ToldRef};
use dmap_tags::Tag;
use item_model::Target;
use share_history::body_code;

/// Reads a body as a listing of `target`, for a mirror at revision `base`, or 0 if it holds nothing. Does not
/// allocate.
///
/// # Errors
///
/// Returns `NotListing` if the body is not a listing of the target, and `Backwards` if it is older than `base`.
pub fn told_by(target: Target, base: u32, body: &Tag) -> Result<ToldRef<'_>, MirrorError>
    ensures told { IfOk result (λ told. IsListing target base
        (listing_of target (told_of told)) body.now × (base ≤ told.revision)) }
    ensures no_listing { (index : Option ℕ) → (result ≡ Err (MirrorError.NotListing index))
        → IsNoListing target base body.now index }
    ensures backwards { (held told : ℕ) → (result ≡ Err (MirrorError.Backwards held told))
        → (listing : Listing) × IsListing target base listing body.now × (held ≡ base)
        × (told ≡ listing.revision) × (told < held) }
    ensures no_memory { result ≢ Err MirrorError.Memory }
{
    let told = match read(target, base, body) {
        Ok(told) => told,
        Err(index) => return Err(MirrorError::NotListing { index }),
    };
    if told.revision < base {
        return Err(MirrorError::Backwards {
            held: base,
            told: told.revision,
        });
    }
    Ok(told)
}

// Reads a body, or returns the index of the first member that cannot continue a listing, `None` for another tag.
fn read(target: Target, base: u32, body: &Tag) -> Result<ToldRef<'_>, Option<u64>>
    ensures { MatchResult result (λ told. read_tag target base body.now ≡ Ok (told_of told))
        (λ index. read_tag target base body.now ≡ Err index) }
{
    match members_in(body_code(target), body) {
        Some(members) => read_members(target, base, members),
        None => Err(None),
    }
}

fn read_members<'a>(
    target: Target,
    base: u32,
    members: &'a [Tag],
) -> Result<ToldRef<'a>, Option<u64>>
    ensures { MatchResult result
        (λ told. placed (read_from target base Status untold 0 members.now) ≡ Ok (told_of told))
        (λ index. placed (read_from target base Status untold 0 members.now) ≡ Err index) }
{
    let mut reached = (Due::Status, ToldRef::new());
    let mut place = 0;
    for member in members {
        let Some(next) = passed(target, base, reached.0, reached.1, member) else {
            return Err(Some(place));
        };
        reached = next;
        place += 1;
    }
    if reached.0 == Due::Nothing {
        Ok(reached.1)
    } else {
        Err(Some(place))
    }
}
