//! The table of content codes: the kind of each code's values, and its name in `/content-codes`.
//! Contracts see a table as the list of its rows. The kind of a code is the kind in its row (`specs/Rows.antt`).
#![tactic(auto)]

mod code_number;
mod fitting;
mod reply;
mod row;
mod standard;
mod table;

pub use reply::CodeError;
pub use row::CodeRow;
pub use table::CodeTable;
