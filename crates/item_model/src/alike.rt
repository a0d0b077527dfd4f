//! Compares the tags that list two rows.

ghost use Rattle.std.specs.Prelude.{◌≡◌, ℕ, Option};
ghost use Rattle.dmap_tags.specs.SameTags.{is_same_tag, are_same_tags};
ghost use Rattle.item_model.specs.Items.{value_of};
ghost use Rattle.item_model.specs.Projection.{listed_row};
ghost use Rattle.item_model.specs.Alike.{is_equal_value, have_equal_value, shown_trees};

use crate::item::{Item, PropValue, Row};
use crate::property::Property;

/// Returns whether the `mlit` tags of two rows with these properties are equal, if both rows are listed under the same
/// key. Does not allocate.
#[tactic(auto, using(crate::proofs::AlikeFacts::rows_alike))]
pub fn is_shown_alike(old: &Row, new: &Row, properties: &[Property]) -> bool
    ensures { (member : Option ℕ)
        → result ≡ is_same_tag (listed_row old.now member properties.now)
        (listed_row new.now member properties.now) }
{
    old.id == new.id && have_alike(&old.item, &new.item, properties)
}

// Returns whether the items have equal values of each property.
#[tactic(auto, using(crate::proofs::AlikeFacts::alike_at))]
fn have_alike(old: &Item, new: &Item, properties: &[Property]) -> bool
    ensures { result ≡ are_same_tags (shown_trees old.now properties.now)
        (shown_trees new.now properties.now) }
{
    for property in properties {
        if !have_equal_value(old, new, *property) {
            return false;
        }
    }
    true
}

fn have_equal_value(old: &Item, new: &Item, property: Property) -> bool
    ensures { result ≡ have_equal_value (value_of property old.now) (value_of property new.now) }
{
    let Some(was) = old.get(property) else {
        return new.get(property).is_none();
    };
    let Some(is) = new.get(property) else {
        return false;
    };
    is_equal_value(was, is)
}

fn is_equal_value(was: &PropValue, is: &PropValue) -> bool
    ensures { result ≡ is_equal_value was.now is.now }
{
    match was {
        PropValue::Number(n) => match is {
            PropValue::Number(m) => *n == *m,
            PropValue::Text(_) => false,
        },
        PropValue::Text(text) => match is {
            PropValue::Number(_) => false,
            PropValue::Text(other) => text.as_str() == other.as_str(),
        },
    }
}
