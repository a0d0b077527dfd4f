//! Items and their properties, queries, edits and the parameters of a request, as plain data, and the tag that
//! lists an item. Contracts see an item as its list of properties and values, a query as a tree, and the
//! tag of an item as the list of the requested properties that the item has.
#![tactic(auto)]

mod alike;
mod changes;
mod condition;
mod folds;
mod item;
pub mod laws;
mod names;
mod projection;
mod properties;
mod property;
mod query;
mod refusal;
mod request;
mod shared;
mod shown;
mod texts;

pub use alike::is_shown_alike;
pub use changes::{Batch, Edit, Edits, Entries, Entry};
pub use condition::{Cond, Op, Pattern};
pub use folds::{Sought, folded};
pub use item::{Item, ItemError, PropValue, Row, TEXT_BYTES};
pub use names::{MetaError, first_part};
pub use projection::project;
pub use properties::Properties;
pub use property::{DEFAULT_PROJECTION, PROPERTIES, Property};
pub use query::{Queries, Query};
pub use refusal::{QueryError, QueryWhy, RecordWhy};
pub use request::{Browse, Look, META_NAMES, Meta, Range, Target};
pub use shared::SharedRow;
pub use shown::ShownProperties;
pub use texts::Texts;
