//! The arguments of `rehearse`.

ghost use Rattle.std.specs.Prelude.{◌≡◌, IfOk, IfSome};
ghost use Rattle.clap.specs.Words.{found_of, rows_of};
ghost use Rattle.daapshare_words.specs.Grammar.{texts_of};
ghost use Rattle.daapshare_words.specs.Rehearse.{rehearse_command, rehearse_of};
ghost use Rattle.daapshare_words.specs.Words.{Reads, IsRanged};

use crate::command::{Command, LocalCommand, WordsError};
use crate::grammar::{Part, matches_for, value_of};
use crate::numbers::{keep_of, number_of};
use clap::ArgMatches;
use std::alloc::Global;

pub const USAGE: &str = "rehearse NUMBER BATCHES SIZE [--keep K]";

/// The arguments of `rehearse`: the number, at most 2,147,483,647, from which batches are made up; 1 to 65,536 batches
/// of 1 to 256 edits each; and the delta window, 1 to 65,536 revisions, 256 without `--keep`.
#[derive(Debug, Drop)]
pub struct RehearseWords {
    pub number: u32,
    pub batches: u32,
    pub size: u32,
    pub keep: u32,
}

pub static PARTS: [(&str, Part); 4] = [
    ("number", Part::Place),
    ("batches", Part::Place),
    ("size", Part::Place),
    ("keep", Part::Valued),
];

pub fn read(alloc: Global, words: &[&str]) -> Result<Command, WordsError>
    ensures read { Reads (rehearse_command (texts_of words.now)) result }
    ensures ranged { IfOk result IsRanged }
{
    let matches = matches_for(alloc, "rehearse", &PARTS, words)?;
    match rehearsal(&matches) {
        Some(command) => Ok(command),
        None => Err(WordsError::Usage),
    }
}

/// Returns the command, if each number is in its range.
fn rehearsal(matches: &ArgMatches<'_>) -> Option<Command>
    ensures read { result ≡ rehearse_of (rows_of (found_of matches.now)) }
    ensures ranged { IfSome result IsRanged }
{
    Some(Command::Local(LocalCommand::Rehearse(RehearseWords {
        number: number_of(value_of(matches, "number"), 0, 2_147_483_647)?,
        batches: number_of(value_of(matches, "batches"), 1, 65_536)?,
        size: number_of(value_of(matches, "size"), 1, 256)?,
        keep: keep_of(value_of(matches, "keep"))?,
    })))
}
