//! The command `follow`: mirrors one listing of a share.

ghost use Rattle.std.specs.Prelude.{◌≡◌, ◌≤◌, option_copied, MatchResult};
ghost use Rattle.command_core.specs.Seen.{FilesSeen, InputSeen, net_of, output_of, run_over_net};
ghost use Rattle.link_commands.specs.FollowShare.{follow_line, follow_meaning, follow_status, link_fault};
ghost use Rattle.link_commands.specs.Meanings.{IsLinkAnswered};
ghost use Rattle.link_commands.specs.Ended.{WritesRows, WritesStop};

use crate::answer::{link_line, link_status};
use crate::look::mirror_for;
use crate::rounds::{Stop, follow_rounds};
use crate::shown::shown_rows;
use command_core::{Fault, Outcome, Refusal, out_of_memory, write_error, write_output};
use dmap_tags::Text;
use fault_lines::query_line;
use item_model::{QueryError, Target};
use mirror_client::FollowError;
use mirror_core::Mirror;
use outside_net::{Failed, Net, Sink};
use std::alloc::{AllocError, Global};

/// Errors of `follow`. Out of memory is `Fault::Memory`.
#[derive(Drop)]
pub enum FollowFault {
    /// The query of `--query` is refused.
    Query(QueryError),
    /// The list of `--meta` has too many names.
    Meta,
    /// No connection to the address was made.
    Unreached,
    /// The exchange with the share ended early.
    Link(FollowError),
}

impl Refusal for FollowFault {
    ghost error_line = { follow_line };

    ghost error_status = { follow_status };

    fn line(&self, alloc: Global) -> Result<Vec<u8>, AllocError> {
        match self {
            FollowFault::Query(error) => query_line(alloc, error),
            FollowFault::Meta => Vec::from_slice(alloc, b"meta: too many names\n"),
            FollowFault::Unreached => Vec::from_slice(alloc, b"network failed\n"),
            FollowFault::Link(error) => link_line(alloc, error),
        }
    }

    fn status(&self) -> u8 {
        match self {
            FollowFault::Query(_) | FollowFault::Meta => 3,
            FollowFault::Unreached => 6,
            FollowFault::Link(error) => link_status(error),
        }
    }
}

/// Runs `follow`: mirrors the listing of `target` of the share at the address `place` for `rounds` rounds, 1 to 16,384.
/// `query` selects the rows, and `meta` the properties that they show. Writes a line after each round, and after the
/// last one the rows that the mirror holds. Reads no input.
pub fn follow_share<W: Sink, N: Net>(
    alloc: Global,
    place: &str,
    rounds: u32,
    query: Option<&Text>,
    meta: Option<&Text>,
    target: Target,
    output: &mut W,
    net: &mut N,
) -> Outcome
    requires some { 1 ≤ rounds }
    requires few { rounds ≤ 16384 }
    ensures answered { (files : FilesSeen) (input : InputSeen)
        → IsLinkAnswered (follow_meaning place.now rounds (option_copied query.entry)
        (option_copied meta.entry) target)
        (run_over_net files input input
        (net_of N.Net net.old)
        (net_of N.Net net.new)
        (output_of W.Sink output.old)
        (output_of W.Sink output.new))
        result }
    ensures open_stays { N.open_count net.new ≡ N.open_count net.old }
{
    let mut mirror = match mirror_for(alloc, query, meta, target) {
        Ok(mirror) => mirror,
        Err(fault) => return write_error(alloc, output, &fault),
    };
    match net.connect(place) {
        Ok(mut link) => {
            let end = follow_rounds(alloc, place, rounds, &mut mirror, &mut link, output);
            net.close(link);
            finish(alloc, &mirror, end, output)
        }
        Err(Failed) => write_error(alloc, output, &Fault::Own(FollowFault::Unreached)),
    }
}

/// Writes the rows that the mirror holds after the last round, or the line of the error that ended the rounds.
fn finish<W: Sink>(alloc: Global, mirror: &Mirror, end: Result<(), Stop>, output: &mut W) -> Outcome
    ensures { MatchResult end
        (λ _. WritesRows mirror.now.held.rows (output_of W.Sink output.old) (output_of W.Sink output.new) result)
        (λ stop. WritesStop stop (output_of W.Sink output.old) (output_of W.Sink output.new) result) }
{
    match end {
        Ok(()) => match shown_rows(alloc, mirror) {
            Ok(rows) => write_output(output, rows.as_str().as_bytes(), None),
            Err(AllocError) => out_of_memory(output, None),
        },
        Err(Stop::Output) => Outcome {
            status: 5,
            history: None,
        },
        Err(Stop::Link(error)) => write_error(alloc, output, &link_fault(error)),
    }
}

/// Returns the error of `follow` for an exchange that ended early.
fn link_fault(error: FollowError) -> Fault<FollowFault>
    ensures { result ≡ link_fault error }
{
    match error {
        FollowError::Memory => Fault::Memory,
        ended => Fault::Own(FollowFault::Link(ended)),
    }
}
