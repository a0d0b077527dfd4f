//! The arguments of `follow`.

ghost use Rattle.std.specs.Prelude.{IfOk};
ghost use Rattle.clap.specs.Words.{found_of, rows_of};
ghost use Rattle.daapshare_words.specs.Grammar.{texts_of};
ghost use Rattle.daapshare_words.specs.Follow.{follow_command, follow_of};
ghost use Rattle.daapshare_words.specs.Words.{Reads, IsRanged};

use crate::command::{Command, NetCommand, WordsError};
use crate::grammar::{Part, matches_for, text_of, value_of};
use crate::numbers::{list_of, number_of};
use crate::texts::place_of;
use clap::ArgMatches;
use dmap_tags::Text;
use std::alloc::Global;

pub const USAGE: &str = "follow PLACE ROUNDS [--query Q] [--meta M] [--list ID]";

/// The arguments of `follow`: a share's address for players, of 1 to 255 bytes; the number of rounds, 1 to 16,384; and
/// what is listed. The texts are as given, and not yet read. `list` is the id of a container, at least 1.
#[derive(Debug, Drop)]
pub struct FollowWords {
    pub place: Text,
    pub rounds: u32,
    pub query: Option<Text>,
    pub meta: Option<Text>,
    pub list: Option<u32>,
}

pub static PARTS: [(&str, Part); 5] = [
    ("place", Part::Place),
    ("rounds", Part::Place),
    ("query", Part::Valued),
    ("meta", Part::Valued),
    ("list", Part::Valued),
];

pub fn read(alloc: Global, words: &[&str]) -> Result<Command, WordsError>
    ensures read { Reads (follow_command (texts_of words.now)) result }
    ensures ranged { IfOk result IsRanged }
{
    let matches = matches_for(alloc, "follow", &PARTS, words)?;
    words_of(alloc, &matches)
}

/// Returns the command, if the address and each number are in their ranges.
fn words_of(alloc: Global, matches: &ArgMatches<'_>) -> Result<Command, WordsError>
    ensures read { Reads (follow_of (rows_of (found_of matches.now))) result }
    ensures ranged { IfOk result IsRanged }
{
    Ok(Command::Net(NetCommand::Follow(FollowWords {
        place: place_of(alloc, value_of(matches, "place"))?,
        rounds: number_of(value_of(matches, "rounds"), 1, 16_384).ok_or(WordsError::Usage)?,
        list: list_of(value_of(matches, "list")).ok_or(WordsError::Usage)?,
        query: text_of(alloc, matches, "query")?,
        meta: text_of(alloc, matches, "meta")?,
    })))
}
