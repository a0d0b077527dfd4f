//! The report of a connection.

ghost use Rattle.std.specs.Prelude.{◌≡◌};

use std::marker::Model;

/// A request that was served.
#[derive(Clone, Copy, PartialEq, Eq)]
pub struct Served {
    /// The session that was answered, 0 if none.
    pub session: u32,
    /// The session's last-answered length before, 0 if it had none.
    pub seen: u64,
    /// The history length after the answer.
    pub point: u64,
    /// The status; 500 if allocating the answer failed.
    pub status: u16,
    /// Whether the answer added an entry, which is then the last one at `point`.
    pub added: bool,
}

/// How a connection ended.
#[derive(Clone, Copy, PartialEq, Eq)]
pub enum LinkEnd {
    /// The input ended between two requests, or a request closed the connection.
    Closed,
    /// The input ended inside a request, `at` bytes after the start of the input.
    Cut { at: u64 },
    /// The bytes are malformed.
    Refused { status: u16 },
    /// The limit of requests on one connection, or of its worker, was reached.
    Spent,
    /// The share was stopped.
    Stopped,
    /// A read, a write or a probe failed.
    LinkFault,
    /// An edit was added and may not have been kept. It got no reply, and the same turn stopped the share.
    FileFault,
    /// An allocation failed.
    Memory,
}

/// The requests that were served, in order.
pub struct ServedRequests {
    items: Vec<Served>,
}

impl Drop for ServedRequests {
    fn drop(self) {
        let ServedRequests { items: _ } = self;
    }
}

impl Model for ServedRequests {
    ghost use Rattle.std.specs.Prelude.{List};
    ghost use Rattle.share_server.specs.declared.report.Served.{Served};

    ghost Value = { List Served };

    ghost view = { λ a. a.items.items };
}

impl ServedRequests {
    /// Returns the report of these requests.
    pub fn of(items: Vec<Served>) -> ServedRequests
        ensures { result ≡ items.items }
    {
        ServedRequests { items }
    }

    pub fn as_slice(&self) -> &[Served]
        ensures { result.now ≡ self.now }
    {
        self.items.as_slice()
    }

    pub fn into_vec(self) -> Vec<Served>
        ensures { result.items ≡ self }
    {
        let ServedRequests { items } = self;
        items
    }
}

/// The report of a connection.
#[derive(Drop)]
pub struct LinkReport {
    /// The number of the handle that served it.
    pub number: u32,
    pub served: ServedRequests,
    pub end: LinkEnd,
}
