//! Which rows match a query.

ghost use Rattle.std.specs.Prelude.{◌≡◌, ◌+◌, ◌*◌, ◌-◌, ◌^◌, ℕ, List, map, true, Decides, Some, None, nat_lt, if◌then◌else◌};
ghost use Rattle.song_query.specs.Glob.{glob, Glob};
ghost use Rattle.std.specs.Char.{is_ascii_digit};
ghost use Rattle.item_model.specs.Folding.{IsSearchedFor};
ghost use Rattle.item_model.specs.Folds.{IsSought};
ghost use Rattle.item_model.specs.declared.item.PropValue.TheVariants.{Number, Text as Words};
ghost use Rattle.item_model.specs.QueryTree.{queries_of};
ghost use Rattle.item_model.specs.QuerySeen.{tree_of};
ghost use Rattle.song_query.specs.Holds.{absent, all_hold, holds, is_met, meets, named_value, number_asked, number_of, some_hold};

use crate::globs::is_glob;
use crate::searched::Searched;
use crate::steps::Steps;
use dmap_tags::{Kind, Text};
use item_model::{Cond, Op, Pattern, Property, Query, Sought};
use std::sync::ledger::Ledger;

/// The name of a row's id in queries.
const ITEM_ID: &str = "dmap.itemid";

/// Returns whether the row that `row` represents matches the query, and adds 1 to `steps`. Does not allocate. No offset of
/// a text is tried twice against a pattern.
pub fn matches<R: Searched, L: Ledger>(query: &Query, row: &R, steps: &mut Steps<L>) -> bool
    ensures meaning { result ≡ holds (tree_of query.now) (R.represents row.now) }
    ensures globs { (pieces : List (List ℕ)) (text : List ℕ)
        → Decides (glob pieces text) (Glob pieces text) }
    ensures cost { steps.new ≡ steps.old + 1 }
{
    steps.tick();
    does_hold(query, row)
}

#[cycle(holding)]
fn does_hold<R: Searched>(query: &Query, row: &R) -> bool
    ensures { result ≡ holds (tree_of query.now) (R.represents row.now) }
{
    match query {
        Query::Cond(cond) => does_meet(cond, row),
        Query::And(members) => do_all_hold(members.as_slice(), row),
        Query::Or(members) => does_one_hold(members.as_slice(), row),
    }
}

#[cycle(holding)]
#[tactic(auto, using(crate::proofs::Sizes::member_falls))]
fn do_all_hold<R: Searched>(members: &[Query], row: &R) -> bool
    ensures { result ≡ all_hold (queries_of (map tree_of members.now)) (R.represents row.now) }
{
    for member in members {
        if !does_hold(member, row) {
            return false;
        }
    }
    true
}

#[cycle(holding)]
#[tactic(auto, using(crate::proofs::Sizes::member_falls))]
fn does_one_hold<R: Searched>(members: &[Query], row: &R) -> bool
    ensures { result ≡ some_hold (queries_of (map tree_of members.now)) (R.represents row.now) }
{
    for member in members {
        if does_hold(member, row) {
            return true;
        }
    }
    false
}

fn does_meet<R: Searched>(cond: &Cond, row: &R) -> bool
    ensures { result ≡ meets cond.now (R.represents row.now) }
{
    match sought(cond.name.as_str(), row) {
        Sought::Number(n) => is_met_by_number(cond.op, &cond.pattern, n),
        Sought::Text(text) => is_met_by_text(cond.op, &cond.pattern, text),
    }
}

// Returns the value of the row that a condition with this name compares.
fn sought<'a, R: Searched>(name: &str, row: &'a R) -> Sought<'a>
    ensures { IsSought (named_value name.now (R.represents row.now)) result }
{
    if name == ITEM_ID {
        return Sought::Number(u64::from(row.id()));
    }
    let Some(property) = Property::by_name(name) else {
        return Sought::Text("");
    };
    match row.sought(property) {
        Some(sought) => sought,
        None => absent(property.kind()),
    }
}

// Returns the value of a property of this kind that a row lacks.
#[tactic(auto, using(crate::proofs::Folded::nothing_searched))]
fn absent<'a>(kind: Kind) -> Sought<'a>
    ensures { IsSought (absent kind) result }
{
    match kind {
        Kind::Text => Sought::Text(""),
        _ => Sought::Number(0),
    }
}

#[tactic(auto, unfolding(crate::specs::Holds::matches_value, crate::specs::Holds::is_less, crate::specs::Holds::is_more))]
fn is_met_by_number(op: Op, pattern: &Pattern, n: u64) -> bool
    ensures { result ≡ is_met op pattern.now (Number n) }
{
    let Some(asked) = number_asked(pattern.pieces()) else {
        return matches!(op, Op::IsNot);
    };
    match op {
        Op::Is => n == asked,
        Op::IsNot => n != asked,
        Op::Less => n < asked,
        Op::More => n > asked,
    }
}

// The result is the same for each text for which `searched` may be searched.
#[tactic(auto, unfolding(crate::specs::Holds::matches_value, crate::specs::Holds::is_less, crate::specs::Holds::is_more))]
fn is_met_by_text(op: Op, pattern: &Pattern, searched: &str) -> bool
    ensures { (text : List ℕ) → IsSearchedFor text searched.now
        → result ≡ is_met op pattern.now (Words text) }
{
    match op {
        Op::Is => is_glob(pattern, searched),
        Op::IsNot => !is_glob(pattern, searched),
        Op::Less | Op::More => false,
    }
}

// Returns the number in a pattern without a wildcard.
fn number_asked(pieces: &[Text]) -> Option<u64>
    ensures { result ≡ number_asked pieces.now }
{
    match pieces {
        [digits] => number(digits.as_str().as_bytes()),
        _ => None,
    }
}

// Returns the number of one or more decimal digits.
fn number(digits: &[u8]) -> Option<u64>
    ensures { result ≡ number_of digits.now }
{
    if digits.is_empty() {
        return None;
    }
    let mut n = 0u64;
    for digit in digits {
        if !digit.is_ascii_digit() {
            return None;
        }
        match with_digit(n, *digit) {
            Some(more) => n = more,
            None => return None,
        }
    }
    Some(n)
}

// Returns the number followed by one more digit.
fn with_digit(n: u64, digit: u8) -> Option<u64>
    requires { is_ascii_digit digit ≡ true }
    ensures { result ≡ (if nat_lt (n * 10 + (digit - 48)) (2 ^ 64) then Some (n * 10 + (digit - 48))
        else None) }
{
    n.checked_mul(10)?.checked_add(u64::from(digit - b'0'))
}
