//! The lines that report errors of records, queries and parameters. The command line prints them, and a share
//! sends them in the body of a 400 reply. Contracts see each as a list of bytes (`specs/`).
#![tactic(auto)]

mod numbers;
mod parameters;
mod queries;
mod records;

pub use numbers::push_number;
pub use parameters::parameter_line;
pub use queries::query_line;
pub use records::records_line;
