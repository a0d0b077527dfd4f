//! The arguments of `relay`.

ghost use Rattle.std.specs.Prelude.{IfOk};
ghost use Rattle.clap.specs.Words.{found_of, rows_of};
ghost use Rattle.daapshare_words.specs.Grammar.{texts_of};
ghost use Rattle.daapshare_words.specs.Relay.{relay_command, relay_of};
ghost use Rattle.daapshare_words.specs.Words.{Reads, IsRanged};

use crate::command::{Command, NetCommand, WordsError};
use crate::grammar::{Part, matches_for, value_of};
use crate::numbers::{keep_of, number_of, workers_of};
use crate::texts::{name_of, place_of};
use clap::ArgMatches;
use dmap_tags::Text;
use std::alloc::Global;

pub const USAGE: &str = "relay UPSTREAM LISTEN ROUNDS [--name N] [--keep K] [--workers W]";

/// The arguments of `relay`: the addresses where the followed share and the relay listen for players, each of 1 to 255
/// bytes; the number of rounds, 1 to 16,384; the relay's name, of at most 255 bytes; its delta window, 1 to 65,536
/// revisions; and how many threads, 1 to 64, serve the connections of players, one connection at a time.
#[derive(Debug, Drop)]
pub struct RelayWords {
    pub upstream: Text,
    pub listen: Text,
    pub rounds: u32,
    pub name: Text,
    pub keep: u32,
    pub workers: u32,
}

pub static PARTS: [(&str, Part); 6] = [
    ("upstream", Part::Place),
    ("listen", Part::Place),
    ("rounds", Part::Place),
    ("name", Part::Valued),
    ("keep", Part::Valued),
    ("workers", Part::Valued),
];

pub fn read(alloc: Global, words: &[&str]) -> Result<Command, WordsError>
    ensures read { Reads (relay_command (texts_of words.now)) result }
    ensures ranged { IfOk result IsRanged }
{
    let matches = matches_for(alloc, "relay", &PARTS, words)?;
    words_of(alloc, &matches)
}

/// Returns the command, if each address, name and number is in its range.
fn words_of(alloc: Global, matches: &ArgMatches<'_>) -> Result<Command, WordsError>
    ensures read { Reads (relay_of (rows_of (found_of matches.now))) result }
    ensures ranged { IfOk result IsRanged }
{
    Ok(Command::Net(NetCommand::Relay(RelayWords {
        upstream: place_of(alloc, value_of(matches, "upstream"))?,
        listen: place_of(alloc, value_of(matches, "listen"))?,
        rounds: number_of(value_of(matches, "rounds"), 1, 16_384).ok_or(WordsError::Usage)?,
        name: name_of(alloc, value_of(matches, "name"))?,
        keep: keep_of(value_of(matches, "keep")).ok_or(WordsError::Usage)?,
        workers: workers_of(value_of(matches, "workers")).ok_or(WordsError::Usage)?,
    })))
}
