//! The arguments of `codes`.

ghost use Rattle.std.specs.Prelude.{IfOk};
ghost use Rattle.daapshare_words.specs.Grammar.{texts_of};
ghost use Rattle.daapshare_words.specs.Codes.{codes_command};
ghost use Rattle.daapshare_words.specs.Words.{Reads, IsRanged};

use crate::command::{Command, LocalCommand, WordsError};
use crate::grammar::{Part, has_flag, matches_for};
use std::alloc::Global;

pub const USAGE: &str = "codes [--learn]";

/// The arguments of `codes`: `learn` if the table is to be read from the input, instead of the standard one.
#[derive(Debug, Drop)]
pub struct CodesWords {
    pub learn: bool,
}

pub static PARTS: [(&str, Part); 1] = [("learn", Part::Flag)];

pub fn read(alloc: Global, words: &[&str]) -> Result<Command, WordsError>
    ensures read { Reads (codes_command (texts_of words.now)) result }
    ensures ranged { IfOk result IsRanged }
{
    let matches = matches_for(alloc, "codes", &PARTS, words)?;
    Ok(Command::Local(LocalCommand::Codes(CodesWords {
        learn: has_flag(&matches, "learn"),
    })))
}
