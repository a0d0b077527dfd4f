//! The lines of a script.

use dmap_tags::Bytes;
use share_asks::Role;

/// A line of a script: what it does to connection `number`.
#[derive(Drop)]
pub enum Delivery {
    /// Opens the connection, in this role.
    Open { number: u32, role: Role },
    /// Delivers bytes over it.
    Text { number: u32, bytes: Bytes },
    /// Ends its input.
    Close { number: u32 },
}
