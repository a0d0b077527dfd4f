//! The settings of `serve`.

use dmap_tags::Text;

/// The settings of `serve`.
#[derive(Drop)]
pub struct Serving {
    /// The address that players connect to.
    pub listen: Text,
    /// The address that editors connect to.
    pub edit: Text,
    /// The name that players show.
    pub name: Text,
    /// The delta window of the share, in revisions.
    pub keep: u32,
    /// How many connections of players are served at once.
    pub workers: u32,
    /// How many connections of editors are served at once: one if a file keeps the edits.
    pub editors: u32,
    /// The name of the file that keeps the edits, if there is one.
    pub file: Option<Text>,
}
