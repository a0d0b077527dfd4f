//! Plans of replies: what a reply will write, made at one revision of a share and written later. A plan owns what it
//! writes and knows its length before the first byte. Contracts see a plan of rows as the listing that it writes.
#![tactic(auto)]

mod body;
pub mod laws;
mod lengths;
mod listed;
mod page;
mod plan;
mod row;
mod rows;
mod runs;
mod sheet_row;
mod sheets;
mod tags;

pub use plan::{MAX_ROWS, Plan, RowPlan};
pub use row::PlanRow;
