//! The arguments of `list`.

ghost use Rattle.std.specs.Prelude.{Some, IfOk};
ghost use Rattle.clap.specs.Words.{found_of, rows_of};
ghost use Rattle.daapshare_words.specs.Grammar.{texts_of};
ghost use Rattle.daapshare_words.specs.List.{list_command, list_for};
ghost use Rattle.daapshare_words.specs.Words.{Reads, IsRanged};

use crate::command::{Command, LocalCommand, WordsError};
use crate::grammar::{Part, matches_for, text_of, value_of};
use crate::numbers::list_of;
use clap::ArgMatches;
use dmap_tags::Text;
use std::alloc::Global;

pub const USAGE: &str = "list [--query Q] [--meta M] [--list ID]";

/// The arguments of `list`. The texts are as given, and not yet read. `list` is the id of a container, at least 1.
#[derive(Debug, Drop)]
pub struct ListWords {
    pub query: Option<Text>,
    pub meta: Option<Text>,
    pub list: Option<u32>,
}

pub static PARTS: [(&str, Part); 3] = [
    ("query", Part::Valued),
    ("meta", Part::Valued),
    ("list", Part::Valued),
];

pub fn read(alloc: Global, words: &[&str]) -> Result<Command, WordsError>
    ensures read { Reads (list_command (texts_of words.now)) result }
    ensures ranged { IfOk result IsRanged }
{
    let matches = matches_for(alloc, "list", &PARTS, words)?;
    match list_of(value_of(&matches, "list")) {
        Some(list) => words_of(alloc, &matches, list),
        None => Err(WordsError::Usage),
    }
}

/// Returns the command for the listing of a container, or of all items.
fn words_of(
    alloc: Global,
    matches: &ArgMatches<'_>,
    list: Option<u32>,
) -> Result<Command, WordsError>
    ensures read { Reads (list_for (rows_of (found_of matches.now)) (Some list)) result }
    ensures ranged { IfOk result IsRanged }
{
    Ok(Command::Local(LocalCommand::List(ListWords {
        query: text_of(alloc, matches, "query")?,
        meta: text_of(alloc, matches, "meta")?,
        list,
    })))
}
