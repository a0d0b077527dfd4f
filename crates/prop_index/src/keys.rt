//! The texts by which an item is found.

ghost use Rattle.std.specs.Prelude.{◌≡◌, ◌≤◌, length, IfOk, IfSome, IsUtf8, true, string_bytes, option_copied, option_map, []};
ghost use Rattle.item_model.specs.Items.{value_of};
ghost use Rattle.item_model.specs.Folding.{folded};
ghost use Rattle.item_model.specs.Folds.{IsKeptFor};
ghost use Rattle.item_model.specs.Limits.{text_limit};
ghost use Rattle.share_history.specs.BrowseListings.{browsed};
ghost use Rattle.prop_index.specs.Forms.{Form, in_form, key_of, is_textual};

use crate::lowered::Lowered;
use item_model::{Browse, PropValue, Row};
use share_history::browsed;
use std::alloc::{AllocError, Global};
use std::string::String;

/// A text with its letters folded as queries fold them.
#[derive(Drop)]
pub(crate) enum AnyCase<'a> {
    /// The item keeps it.
    Kept(&'a str),
    /// The item keeps nothing, since its text with lowered ASCII letters is the same.
    Lowered(Lowered),
}

/// The text of a property as it is spelled, and folded. It is empty if a row does not have the property.
#[derive(Drop)]
pub(crate) struct Forms<'a> {
    pub spelled: &'a str,
    pub any_case: AnyCase<'a>,
}

/// The text folded as queries compare it. One of ASCII is lowered, which is the same and costs less.
#[tactic(auto, using(item_model::proofs::FoldLaws::folded_ascii))]
pub(crate) fn folded(alloc: Global, text: &str) -> Result<String, AllocError>
    ensures key { IfOk result (λ bytes. string_bytes bytes ≡ folded text.now) }
    ensures utf8 { IsUtf8 text.now }
{
    if !text.is_ascii() {
        return item_model::folded(alloc, text);
    }
    let mut lowered = String::from_str(alloc, text)?;
    lowered.make_ascii_lowercase();
    Ok(lowered)
}

fn text_of(row: &Row, browse: Browse) -> Option<&str>
    ensures value { value_of (browsed browse) row.now.item
        ≡ option_map PropValue.Text (option_copied result) }
    ensures short { IfSome result (λ text. length text.now ≤ text_limit) }
{
    match row.item.get(browsed(browse)) {
        Some(PropValue::Text(text)) => Some(text.as_str()),
        _ => None,
    }
}

impl<'a> AnyCase<'a> {
    ghost use Rattle.prop_index.specs.Keys.{text_held};

    fn of(text: &'a str, kept: Option<&'a str>) -> AnyCase<'a>
        requires short { length text.now ≤ text_limit }
        requires kept { IsKeptFor text.now (option_copied kept) }
        ensures { text_held result ≡ folded text.now }
    {
        match kept {
            Some(fold) => AnyCase::Kept(fold),
            None => AnyCase::Lowered(Lowered::of(text)),
        }
    }

    pub(crate) fn as_str(&self) -> &str
        ensures { result.now ≡ text_held self.now }
    {
        match self {
            AnyCase::Kept(text) => text,
            AnyCase::Lowered(text) => text.as_str(),
        }
    }
}

impl<'a> Forms<'a> {
    ghost use Rattle.prop_index.specs.Keys.{form_in, key_or_none, IsTextAt};

    /// The row's text of the property. It does not allocate.
    pub(crate) fn of(row: Option<&'a Row>, browse: Browse) -> Forms<'a>
        ensures keys { (form : Form)
            → form_in result form ≡ key_or_none form browse (option_copied row.entry) }
        ensures text { IsTextAt browse (option_copied row.entry) }
    {
        match row {
            Some(row) => Forms::of_row(row, browse),
            None => Forms::none(),
        }
    }

    fn of_row(row: &'a Row, browse: Browse) -> Forms<'a>
        ensures keys { (form : Form) → form_in result form ≡ key_of form browse row.now }
        ensures text { is_textual (value_of (browsed browse) row.now.item) ≡ true }
    {
        match text_of(row, browse) {
            Some(text) => Forms::of_text(text, row.item.kept_fold(browsed(browse))),
            None => Forms::none(),
        }
    }

    fn of_text(text: &'a str, kept: Option<&'a str>) -> Forms<'a>
        requires short { length text.now ≤ text_limit }
        requires kept { IsKeptFor text.now (option_copied kept) }
        ensures { (form : Form) → form_in result form ≡ in_form form text.now }
    {
        Forms {
            spelled: text,
            any_case: AnyCase::of(text, kept),
        }
    }

    fn none() -> Forms<'a>
        ensures { (form : Form) → form_in result form ≡ [] }
    {
        Forms {
            spelled: "",
            any_case: AnyCase::Kept(""),
        }
    }
}
