//! What is known of a run of the program that ended.

/// A run that ended with `status`. The causes are those that the system gave.
#[derive(Drop)]
pub struct Run {
    pub status: u8,
    /// The first bytes of what the run wrote last.
    pub last: Vec<u8>,
    /// Why standard input or output failed.
    pub stream: Option<String>,
    /// Why the network failed.
    pub network: Option<String>,
    /// Why the file of `--file` failed.
    pub file: Option<String>,
}
