//! The arguments of `show`.

ghost use Rattle.std.specs.Prelude.{IfOk};
ghost use Rattle.daapshare_words.specs.Grammar.{texts_of};
ghost use Rattle.daapshare_words.specs.Show.{show_command};
ghost use Rattle.daapshare_words.specs.Words.{Reads, IsRanged};

use crate::command::{Command, LocalCommand, WordsError};
use crate::grammar::{Part, has_flag, matches_for};
use std::alloc::Global;

pub const USAGE: &str = "show [--back]";

/// The arguments of `show`: `back` if tags are to be read from text.
#[derive(Debug, Drop)]
pub struct ShowWords {
    pub back: bool,
}

pub static PARTS: [(&str, Part); 1] = [("back", Part::Flag)];

pub fn read(alloc: Global, words: &[&str]) -> Result<Command, WordsError>
    ensures read { Reads (show_command (texts_of words.now)) result }
    ensures ranged { IfOk result IsRanged }
{
    let matches = matches_for(alloc, "show", &PARTS, words)?;
    Ok(Command::Local(LocalCommand::Show(ShowWords {
        back: has_flag(&matches, "back"),
    })))
}
