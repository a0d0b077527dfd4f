//! The parameters of a request.

ghost use Rattle.std.specs.Prelude.{◌≡◌, IfOk};

use crate::properties::Properties;
use crate::query::Query;
use std::alloc::AllocError;

/// The maximum number of names in the `meta` parameter.
pub const META_NAMES: usize = 256;

/// Which properties a listing shows.
#[derive(Debug, Drop)]
pub enum Meta {
    /// The default projection.
    Default,
    All,
    /// The named properties, in this order.
    Names(Properties),
}

/// What is listed: the items of the library, or the members of a container.
#[derive(Clone, Copy, Debug, PartialEq, Eq)]
pub enum Target {
    Items,
    Container(u32),
}

/// Which rows of a full listing are shown, by their indices from 0.
#[derive(Clone, Copy, Debug, PartialEq, Eq)]
pub enum Range {
    All,
    One { at: u32 },
    From { at: u32 },
    /// The rows from one index to another, both included.
    Span { from: u32, to: u32 },
    /// The last rows.
    Last { count: u32 },
}

/// The parameters of a listing. `base` is a revision, 0 for a full listing.
#[derive(Debug, Drop)]
pub struct Look {
    pub query: Option<Query>,
    pub meta: Meta,
    pub base: u32,
    pub range: Range,
}

/// The property whose values are browsed.
#[derive(Clone, Copy, Debug, PartialEq, Eq)]
pub enum Browse {
    Artists,
    Albums,
    Genres,
    Composers,
}

impl Meta {
    /// Returns a copy.
    pub fn copy(&self) -> Result<Meta, AllocError>
        ensures { IfOk result (λ c. c ≡ self.now) }
    {
        match self {
            Meta::Default => Ok(Meta::Default),
            Meta::All => Ok(Meta::All),
            Meta::Names(properties) => Ok(Meta::Names(properties.copy()?)),
        }
    }
}

impl Look {
    /// Returns a copy.
    pub fn copy(&self) -> Result<Look, AllocError>
        ensures { IfOk result (λ c. c ≡ self.now) }
    {
        let query = match &self.query {
            Some(query) => Some(query.copy()?),
            None => None,
        };
        Ok(Look {
            query,
            meta: self.meta.copy()?,
            base: self.base,
            range: self.range,
        })
    }
}
