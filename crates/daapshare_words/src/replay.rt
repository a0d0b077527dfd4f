//! The arguments of `replay`.

ghost use Rattle.std.specs.Prelude.{IfOk};
ghost use Rattle.daapshare_words.specs.Grammar.{texts_of};
ghost use Rattle.daapshare_words.specs.Replay.{replay_command};
ghost use Rattle.daapshare_words.specs.Words.{Reads, IsRanged};

use crate::command::{Command, LocalCommand, WordsError};
use crate::grammar::{Part, matches_for, value_of};
use crate::numbers::keep_of;
use crate::texts::name_of;
use dmap_tags::Text;
use std::alloc::Global;

pub const USAGE: &str = "replay [--keep K] [--name N]";

/// The arguments of `replay`: the share's name, of at most 255 bytes, and its delta window, 1 to 65,536 revisions.
#[derive(Debug, Drop)]
pub struct ReplayWords {
    pub keep: u32,
    pub name: Text,
}

pub static PARTS: [(&str, Part); 2] = [("keep", Part::Valued), ("name", Part::Valued)];

pub fn read(alloc: Global, words: &[&str]) -> Result<Command, WordsError>
    ensures read { Reads (replay_command (texts_of words.now)) result }
    ensures ranged { IfOk result IsRanged }
{
    let matches = matches_for(alloc, "replay", &PARTS, words)?;
    Ok(Command::Local(LocalCommand::Replay(ReplayWords {
        keep: keep_of(value_of(&matches, "keep")).ok_or(WordsError::Usage)?,
        name: name_of(alloc, value_of(&matches, "name"))?,
    })))
}
