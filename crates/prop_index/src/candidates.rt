//! Which text a query needs.

ghost use Rattle.std.specs.Prelude.{◌≡◌, option_map, option_and_then, map};
ghost use Rattle.item_model.specs.QuerySeen.{tree_of};
ghost use Rattle.item_model.specs.QueryTree.{queries_of};
ghost use Rattle.item_model.specs.Properties.{property_named};
ghost use Rattle.prop_index.specs.Candidates.{browse_of, first_text, is_positive, needed_text, only_piece, text_asked, text_of_condition};

use dmap_tags::Text;
use item_model::{Browse, Cond, Op, Property, Query};

fn browse_of(property: Property) -> Option<Browse>
    ensures { result ≡ browse_of property }
{
    match property {
        Property::Asar => Some(Browse::Artists),
        Property::Asal => Some(Browse::Albums),
        Property::Asgn => Some(Browse::Genres),
        Property::Ascp => Some(Browse::Composers),
        _ => None,
    }
}

fn browse_named(name: &str) -> Option<Browse>
    ensures { result ≡ option_and_then browse_of (property_named name.now) }
{
    match Property::by_name(name) {
        Some(property) => browse_of(property),
        None => None,
    }
}

// The one piece of a pattern without a wildcard.
fn only_piece(pieces: &[Text]) -> &str
    ensures { result.now ≡ only_piece pieces.now }
{
    match pieces {
        [piece] => piece.as_str(),
        _ => "",
    }
}

fn is_positive(op: Op) -> bool
    ensures { result ≡ is_positive op }
{
    match op {
        Op::Is => true,
        Op::IsNot | Op::Less | Op::More => false,
    }
}

// The text that a condition asks for, and where.
fn text_asked(cond: &Cond) -> Option<(Browse, &str)>
    ensures { option_map (λ asked. (asked.0, asked.1.now)) result ≡ text_asked cond.now }
{
    let piece = only_piece(cond.pattern.pieces());
    if !is_positive(cond.op) || piece.is_empty() {
        return None;
    }
    match browse_named(cond.name.as_str()) {
        Some(browse) => Some((browse, piece)),
        None => None,
    }
}

fn text_of_condition(query: &Query) -> Option<(Browse, &str)>
    ensures { option_map (λ asked. (asked.0, asked.1.now)) result
        ≡ text_of_condition (tree_of query.now) }
{
    match query {
        Query::Cond(cond) => text_asked(cond),
        Query::And(_) | Query::Or(_) => None,
    }
}

fn first_text(members: &[Query]) -> Option<(Browse, &str)>
    ensures { option_map (λ asked. (asked.0, asked.1.now)) result
        ≡ first_text (queries_of (map tree_of members.now)) }
{
    for member in members {
        if let Some(asked) = text_of_condition(member) {
            return Some(asked);
        }
    }
    None
}

/// The text without which the query is not met, and where.
pub(crate) fn needed_text(query: &Query) -> Option<(Browse, &str)>
    ensures { option_map (λ asked. (asked.0, asked.1.now)) result
        ≡ needed_text (tree_of query.now) }
{
    match query {
        Query::Cond(cond) => text_asked(cond),
        Query::And(members) => first_text(members.as_slice()),
        Query::Or(_) => None,
    }
}
