//! What a run of the program leaves.

ghost use Rattle.std.specs.Prelude.{◌≡◌, []};
ghost use Rattle.serve_command.specs.Outcomes.{outcome_of};
ghost use Rattle.command_runs.specs.Left.{core_of, crew_of, serve_outcome_of};

use item_model::Entries;
use serve_command::LinkReports;
use std::alloc::Global;

/// The status of the program, the history of the share, if one was opened, and the reports of the connections that were
/// served, worker by worker.
#[derive(Drop)]
pub struct Outcome {
    pub status: u8,
    pub history: Option<Entries>,
    pub links: LinkReports,
}

/// Returns the outcome of a command that served no connection.
pub fn without_links(alloc: Global, ended: command_core::Outcome) -> Outcome
    ensures ended { core_of result ≡ ended }
    ensures unlinked { result.links ≡ [] }
{
    Outcome {
        status: ended.status,
        history: ended.history,
        links: LinkReports::none(alloc),
    }
}

/// Returns the outcome of a share that was served or relayed.
pub fn with_links(ended: serve_command::Outcome) -> Outcome
    ensures served { serve_outcome_of result ≡ outcome_of ended }
    ensures crew { crew_of result ≡ ended }
{
    Outcome {
        status: ended.status,
        history: ended.history,
        links: ended.links,
    }
}
