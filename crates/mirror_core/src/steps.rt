//! Reading one member of a listing.

ghost use Rattle.std.specs.Prelude.{◌≡◌, ℕ, option_map};
ghost use Rattle.mirror_core.specs.Reading.{step, passed, after_rows};
ghost use Rattle.mirror_core.specs.ToldSeen.{told_of, reached_of};

use crate::tags::{are_keys, are_rows, is_listings, mark_in, members_in, number_in};
use crate::told::{Due, ToldRef};
use dmap_tags::{Code, Tag};
use item_model::Target;

// Returns the state after a member, or `None` if no listing continues with it.
pub(crate) fn passed<'a>(
    target: Target,
    base: u32,
    due: Due,
    told: ToldRef<'a>,
    member: &'a Tag,
) -> Option<(Due, ToldRef<'a>)>
    ensures { option_map reached_of result
        ≡ passed target base due (told_of told.entry) member.now }
{
    if is_listings(member) {
        step(target, base, due, told, member)
    } else {
        Some((due, told))
    }
}

fn step<'a>(
    target: Target,
    base: u32,
    due: Due,
    told: ToldRef<'a>,
    member: &'a Tag,
) -> Option<(Due, ToldRef<'a>)>
    ensures { option_map reached_of result ≡ step target base due (told_of told.entry) member.now }
{
    match due {
        Due::Status => status(told, member),
        Due::Kind => kind(base, told, member),
        Due::Revision => revision(told, member),
        Due::Total => total(told, member),
        Due::Listed => listed(told, member),
        Due::Rows => rows(target, told, member),
        Due::Gone => gone(target, told, member),
        Due::Nothing => None,
    }
}

fn status<'a>(told: ToldRef<'a>, member: &Tag) -> Option<(Due, ToldRef<'a>)>
    ensures { (target : Target) (base : ℕ)
        → option_map reached_of result
        ≡ step target base Due.Status (told_of told.entry) member.now }
{
    match number_in(Code(*b"mstt"), member) {
        Some(200) => Some((Due::Kind, told)),
        _ => None,
    }
}

// A delta needs held rows to change.
fn kind<'a>(base: u32, told: ToldRef<'a>, member: &Tag) -> Option<(Due, ToldRef<'a>)>
    ensures { (target : Target) → option_map reached_of result
        ≡ step target base Due.Kind (told_of told.entry) member.now }
{
    match mark_in(member) {
        Some(is_delta) => {
            if is_delta && base == 0 {
                return None;
            }
            Some((Due::Revision, ToldRef { is_delta, ..told }))
        }
        None => None,
    }
}

fn revision<'a>(told: ToldRef<'a>, member: &Tag) -> Option<(Due, ToldRef<'a>)>
    ensures { (target : Target) (base : ℕ)
        → option_map reached_of result
        ≡ step target base Due.Revision (told_of told.entry) member.now }
{
    match number_in(Code(*b"musr"), member) {
        Some(revision) => Some((Due::Total, ToldRef { revision, ..told })),
        None => None,
    }
}

fn total<'a>(told: ToldRef<'a>, member: &Tag) -> Option<(Due, ToldRef<'a>)>
    ensures { (target : Target) (base : ℕ)
        → option_map reached_of result
        ≡ step target base Due.Total (told_of told.entry) member.now }
{
    match number_in(Code(*b"mtco"), member) {
        Some(total) => Some((Due::Listed, ToldRef { total, ..told })),
        None => None,
    }
}

// The stated number of listed rows is not checked.
fn listed<'a>(told: ToldRef<'a>, member: &Tag) -> Option<(Due, ToldRef<'a>)>
    ensures { (target : Target) (base : ℕ)
        → option_map reached_of result
        ≡ step target base Due.Listed (told_of told.entry) member.now }
{
    match number_in(Code(*b"mrco"), member) {
        Some(_) => Some((Due::Rows, told)),
        None => None,
    }
}

fn rows<'a>(target: Target, told: ToldRef<'a>, member: &'a Tag) -> Option<(Due, ToldRef<'a>)>
    ensures { (base : ℕ) → option_map reached_of result
        ≡ step target base Due.Rows (told_of told.entry) member.now }
{
    match members_in(Code(*b"mlcl"), member) {
        Some(rows) => {
            if are_rows(target, rows) {
                Some((after_rows(told.is_delta), ToldRef { rows, ..told }))
            } else {
                None
            }
        }
        None => None,
    }
}

fn after_rows(is_delta: bool) -> Due
    ensures { result ≡ after_rows is_delta }
{
    if is_delta { Due::Gone } else { Due::Nothing }
}

fn gone<'a>(target: Target, told: ToldRef<'a>, member: &'a Tag) -> Option<(Due, ToldRef<'a>)>
    ensures { (base : ℕ) → option_map reached_of result
        ≡ step target base Due.Gone (told_of told.entry) member.now }
{
    match members_in(Code(*b"mudl"), member) {
        Some(gone) => {
            if are_keys(target, gone) {
                Some((Due::Nothing, ToldRef { gone, ..told }))
            } else {
                None
            }
        }
        None => None,
    }
}
