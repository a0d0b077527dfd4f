//! What a share that was served leaves.

ghost use Rattle.std.specs.Prelude.{◌≡◌, [], map};

use item_model::Entries;
use share_core::Share;
use share_server::LinkReport;
use std::alloc::Global;
use std::marker::Model;

/// The status of the program, the history of the share, if it was put under its lock, and a report of each connection.
#[derive(Drop)]
pub struct Outcome {
    pub status: u8,
    pub history: Option<Entries>,
    pub links: LinkReports,
}

impl Outcome {
    ghost use Rattle.share_crew.specs.Outcomes.{LeavesShare};

    /// Returns the outcome of a run that served `share`. Does not allocate.
    pub fn of_share(status: u8, share: Share, links: LinkReports) -> Outcome
        ensures status { result.status ≡ status }
        ensures left { LeavesShare share.history links result }
    {
        Outcome {
            status,
            history: Some(Entries::of(share.into_history())),
            links,
        }
    }
}

/// The reports of connections, worker by worker, for each worker in the order in which it accepted them.
pub struct LinkReports {
    workers: Vec<Vec<LinkReport>>,
}

impl Drop for LinkReports {
    fn drop(self) {
        let LinkReports { workers: _ } = self;
    }
}

impl Model for LinkReports {
    ghost use Rattle.std.specs.Prelude.{List, map};
    ghost use Rattle.share_server.specs.declared.report.LinkReport.{LinkReport};

    ghost Value = { List (List LinkReport) };

    ghost view = { λ a. map (λ links. links.items) a.workers.items };
}

impl LinkReports {
    /// Returns reports of no worker. Does not allocate.
    pub fn none(alloc: Global) -> LinkReports
        ensures { result ≡ [] }
    {
        LinkReports {
            workers: Vec::new(alloc),
        }
    }

    /// Returns the reports of `workers`.
    pub fn of(workers: Vec<Vec<LinkReport>>) -> LinkReports
        ensures { result ≡ map (λ links. links.items) workers.items }
    {
        LinkReports { workers }
    }

    pub fn as_slice(&self) -> &[Vec<LinkReport>]
        ensures { map (λ links. links.items) result.now ≡ self.now }
    {
        self.workers.as_slice()
    }

    pub fn into_vec(self) -> Vec<Vec<LinkReport>>
        ensures { map (λ links. links.items) result.items ≡ self }
    {
        let LinkReports { workers } = self;
        workers
    }
}
