//! A worker of a share.

use share_asks::Role;
use share_core::Share;
use share_lock::Pass;
use share_server::LinkReport;

/// How a worker ended.
#[derive(Clone, Copy, PartialEq, Eq)]
pub enum WorkerEnd {
    /// It has not ended. Only a worker that has not begun has this end.
    Running,
    /// The share was stopped.
    Stopped,
    /// No further connection will come at its listener.
    NoMoreLinks,
    /// It served 65,536 connections, or 262,144 requests on all of them.
    Spent,
    /// Its listener could not wait for a connection.
    AcceptFault,
    /// An edit was added and could not be kept. The history has the edit, and the stop after it.
    FileFault,
    /// The allocation for the report of one more connection failed.
    Memory,
}

/// Serves the connections that come at its listener, one after another, with its own handle of the share's lock.
#[derive(Drop)]
pub struct Worker<D> {
    pub pass: Pass<Share>,
    pub listener: D,
    /// Which requests are allowed on each of its connections.
    pub role: Role,
    /// The reports of its connections, in the order in which these came.
    pub reports: Vec<LinkReport>,
    pub end: WorkerEnd,
}
