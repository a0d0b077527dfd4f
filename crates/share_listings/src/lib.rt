//! Plans the listings with which a share answers looks: the change since a kept base, or else all rows, cut to the range
//! of the look. Each evaluation of a query is counted in the steps of the caller.
#![tactic(auto)]

mod answers;
mod asked;
mod changed;
mod library;
mod membership;
mod plans;
mod ranges;
mod sheet_row;
mod sheets;
mod targets;
mod uncounted;
mod whole;

pub use answers::{full_listing, listing};
pub use targets::is_there;
pub use uncounted::{full_items, full_target, items_listing};
