//! Parsed requests and their operations.

use dmap_tags::Text;
use item_model::{Batch, Browse, Look, Query, QueryError, Target};
use records_import::RecordError;

/// What a connection may request, by the address at which it arrived.
#[derive(Clone, Copy, PartialEq, Eq)]
pub enum Role {
    /// Everything that a player requests.
    Listen,
    /// The same, and edits and the stop.
    Edit,
}

/// The method of a request.
#[derive(Clone, Copy, Debug, PartialEq, Eq)]
pub enum Verb {
    Get,
    Post,
}

/// The error of a complete request.
#[derive(Debug, Drop)]
pub enum AskError {
    /// The path is not one of the role.
    Path,
    /// The path has another method, `allow`, and no other.
    Method { allow: Verb },
    /// The first refused parameter, which is not a query.
    Parameter { name: Text },
    /// The first refused parameter, which is a query.
    Query { error: QueryError },
}

/// The operation of a request. A session is the id of a login, or 0 if the request has none; a revision is 0 if the
/// request has none.
#[derive(Debug, Drop)]
pub enum Want {
    ServerInfo,
    /// The table of content codes.
    Codes,
    Login,
    Logout {
        session: u32,
    },
    /// The revision, as soon as it differs from `revision`.
    Update {
        session: u32,
        revision: u32,
    },
    Databases {
        session: u32,
    },
    /// The listing of the items or of a container.
    Rows {
        session: u32,
        target: Target,
        look: Look,
    },
    /// The listing of the containers.
    Lists {
        session: u32,
    },
    /// The values of a property of the matching items.
    Values {
        session: u32,
        browse: Browse,
        query: Option<Query>,
    },
    /// Edits, as the records of the body are read.
    Edit {
        body: Result<Batch, RecordError>,
    },
    Stop,
    /// A request whose reply reports this error.
    Bad(AskError),
}

/// A complete request.
#[derive(Drop)]
pub struct Ask {
    /// The role of the reader that made it.
    pub role: Role,
    /// Whether the connection closes after the reply.
    pub close: bool,
    pub want: Want,
}
