//! The settings of `relay`.

use dmap_tags::Text;

/// The settings of `relay`.
#[derive(Drop)]
pub struct Relaying {
    /// The address of the share that is followed.
    pub upstream: Text,
    /// The address that players connect to.
    pub listen: Text,
    /// How many listings are read.
    pub rounds: u32,
    /// The name that players show.
    pub name: Text,
    /// The delta window of the relay's share, in revisions.
    pub keep: u32,
    /// How many connections of players are served at once.
    pub workers: u32,
}
