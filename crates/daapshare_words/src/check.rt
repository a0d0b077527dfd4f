//! The arguments of `check`, which has none after its name.

ghost use Rattle.std.specs.Prelude.{IfOk};
ghost use Rattle.daapshare_words.specs.Grammar.{texts_of};
ghost use Rattle.daapshare_words.specs.Check.{check_command};
ghost use Rattle.daapshare_words.specs.Words.{Reads, IsRanged};

use crate::command::{Command, LocalCommand, WordsError};
use crate::grammar::{Part, matches_for};
use std::alloc::Global;

pub const USAGE: &str = "check";

pub static PARTS: [(&str, Part); 0] = [];

pub fn read(alloc: Global, words: &[&str]) -> Result<Command, WordsError>
    ensures read { Reads (check_command (texts_of words.now)) result }
    ensures ranged { IfOk result IsRanged }
{
    matches_for(alloc, "check", &PARTS, words)?;
    Ok(Command::Local(LocalCommand::Check))
}
