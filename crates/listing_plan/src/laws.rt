//! Theorems about all listings. Each function has an empty body; its contract is the theorem.

ghost use Rattle.std.specs.Prelude.{◌≡◌};
ghost use Rattle.listing_plan.specs.Limits.{rows_limit, page_limit, short_page_limit};
ghost use Rattle.listing_plan.specs.Laws.{RowsAreShort, ListingsAreShort};

use crate::page::{PAGE_BYTES, SHORT_PAGE_BYTES};
use crate::plan::MAX_ROWS;

/// The tag of a row can be encoded and has few bytes.
#[tactic(auto, using(crate::proofs::Short::rows_are_short))]
pub fn a_row_is_short()
    ensures { RowsAreShort }
{}

/// A mirror that reads tags of up to 1 GiB can read every listing.
#[tactic(auto, using(crate::proofs::Bodies::listings_are_short))]
pub fn a_listing_is_short()
    ensures { ListingsAreShort }
{}

/// The constants of this crate are the numbers of the definitions.
pub fn the_constants()
    ensures rows { MAX_ROWS ≡ rows_limit }
    ensures page { PAGE_BYTES ≡ page_limit }
    ensures short_page { SHORT_PAGE_BYTES ≡ short_page_limit }
{}
