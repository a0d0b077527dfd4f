//! Tags as JSON: an object of the content code, the name of the kind and the value (`specs/TagObject.antt`), and the
//! tag read back from any text of that JSON value.
#![tactic(auto)]

mod error;
mod head;
mod hex;
pub mod laws;
mod object;
mod parts;
mod reading;
mod writing;

pub use error::JsonError;
pub use reading::from_json;
pub use writing::to_json;
