//! The arguments of `serve`.

ghost use Rattle.std.specs.Prelude.{IfOk};
ghost use Rattle.clap.specs.Words.{found_of, rows_of};
ghost use Rattle.daapshare_words.specs.Grammar.{texts_of};
ghost use Rattle.daapshare_words.specs.Serve.{serve_command, serve_of};
ghost use Rattle.daapshare_words.specs.Words.{Reads, IsRanged};

use crate::command::{Command, NetCommand, WordsError};
use crate::grammar::{Part, matches_for, text_of, value_of};
use crate::numbers::{editors_of, keep_of, workers_of};
use crate::texts::{name_of, place_of};
use clap::ArgMatches;
use dmap_tags::Text;
use std::alloc::Global;

pub const USAGE: &str =
    "serve LISTEN EDIT [--name N] [--keep K] [--workers W] [--editors E] [--file F]";

/// The arguments of `serve`: the addresses where it listens for players and for editors, each of 1 to 255 bytes; its
/// name, of at most 255 bytes; its delta window, 1 to 65,536 revisions; and how many threads serve the connections of
/// each address, one connection at a time: 1 to 64 for players, and for editors 1 to 8, or 1 if a file keeps the edits.
#[derive(Debug, Drop)]
pub struct ServeWords {
    pub listen: Text,
    pub edit: Text,
    pub name: Text,
    pub keep: u32,
    pub workers: u32,
    pub editors: u32,
    /// The name of the file that keeps the edits, as given.
    pub file: Option<Text>,
}

pub static PARTS: [(&str, Part); 7] = [
    ("listen", Part::Place),
    ("edit", Part::Place),
    ("name", Part::Valued),
    ("keep", Part::Valued),
    ("workers", Part::Valued),
    ("editors", Part::Valued),
    ("file", Part::Valued),
];

pub fn read(alloc: Global, words: &[&str]) -> Result<Command, WordsError>
    ensures read { Reads (serve_command (texts_of words.now)) result }
    ensures ranged { IfOk result IsRanged }
{
    let matches = matches_for(alloc, "serve", &PARTS, words)?;
    words_of(alloc, &matches)
}

/// Returns the command, if each address, name and number is in its range.
fn words_of(alloc: Global, matches: &ArgMatches<'_>) -> Result<Command, WordsError>
    ensures read { Reads (serve_of (rows_of (found_of matches.now))) result }
    ensures ranged { IfOk result IsRanged }
{
    Ok(Command::Net(NetCommand::Serve(ServeWords {
        listen: place_of(alloc, value_of(matches, "listen"))?,
        edit: place_of(alloc, value_of(matches, "edit"))?,
        name: name_of(alloc, value_of(matches, "name"))?,
        keep: keep_of(value_of(matches, "keep")).ok_or(WordsError::Usage)?,
        workers: workers_of(value_of(matches, "workers")).ok_or(WordsError::Usage)?,
        editors: editors_of(
            value_of(matches, "editors"),
            value_of(matches, "file").is_some(),
        )
        .ok_or(WordsError::Usage)?,
        file: text_of(alloc, matches, "file")?,
    })))
}
