//! DMAP tags: a tag is a content code with a value or with further tags, and has one encoding in bytes.
//! Contracts see a tag as a plain tree (`specs/Tree.antt`), and its bytes by `specs/Spelling.antt`.
#![tactic(auto)]

mod content_code;
mod kinds;
mod payload;
mod spelling;
mod tree;
mod typed;

pub use content_code::Code;
pub use kinds::Kind;
pub use payload::{Bytes, Text};
pub use spelling::{TagError, encode_into, encoded_len};
pub use tree::{Tag, Tags, Value};
pub use typed::{is_text, leaf, leaf_from};
