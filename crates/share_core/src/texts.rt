//! The texts by which items are browsed.

ghost use Rattle.std.specs.Prelude.{◌≡◌, ◌≤◌, length};
ghost use Rattle.item_model.specs.Limits.{text_limit};
ghost use Rattle.share_history.specs.BrowseListings.{is_filled};
ghost use Rattle.prop_index.specs.Forms.{browse_text};
ghost use Rattle.share_core.specs.Short.{HasShortTexts};

use item_model::{Browse, PropValue, Row};
use share_history::browsed;

pub(crate) fn is_filled(text: &str) -> bool
    ensures { result ≡ is_filled text.now }
{
    !text.is_empty()
}

/// Returns the text of an item, empty if it has none.
#[tactic(auto, using(crate::proofs::ItemTexts::short_value))]
pub(crate) fn text_of(row: &Row, browse: Browse) -> &str
    ensures text { result.now ≡ browse_text browse row.now }
    ensures short { length (browse_text browse row.now) ≤ text_limit }
{
    match row.item.get(browsed(browse)) {
        Some(PropValue::Text(text)) => text.as_str(),
        _ => "",
    }
}

/// States that the texts of an item are short, as its type guarantees. The call changes nothing.
pub(crate) fn texts_are_short(row: &Row)
    ensures { HasShortTexts row.now }
{
    let _artist = text_of(row, Browse::Artists);
    let _album = text_of(row, Browse::Albums);
    let _genre = text_of(row, Browse::Genres);
    let _composer = text_of(row, Browse::Composers);
}
