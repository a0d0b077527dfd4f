//! The rows of a library on sheets that several owners share. Each sheet has up to 64 rows, and keeps the encoded tags
//! of their properties in one buffer. Contracts see the rows in ascending order of their ids.
#![tactic(auto)]

mod cells;
mod columns;
mod held;
mod merging;
mod sheet;
mod sheets;
mod tags;
mod turning;

pub use cells::RowTags;
pub use held::index_of;
pub use sheet::Sheet;
pub use sheets::RowSheets;
