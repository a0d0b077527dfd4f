//! The arguments of `edit`.

ghost use Rattle.std.specs.Prelude.{IfOk};
ghost use Rattle.daapshare_words.specs.Grammar.{texts_of};
ghost use Rattle.daapshare_words.specs.Edit.{edit_command};
ghost use Rattle.daapshare_words.specs.Words.{Reads, IsRanged};

use crate::command::{Command, NetCommand, WordsError};
use crate::grammar::{Part, has_flag, matches_for, value_of};
use crate::texts::place_of;
use dmap_tags::Text;
use std::alloc::Global;

pub const USAGE: &str = "edit PLACE [--stop]";

/// The arguments of `edit`: a share's address for editors, of 1 to 255 bytes, and whether to `stop` the share.
#[derive(Debug, Drop)]
pub struct EditWords {
    pub place: Text,
    pub stop: bool,
}

pub static PARTS: [(&str, Part); 2] = [("place", Part::Place), ("stop", Part::Flag)];

pub fn read(alloc: Global, words: &[&str]) -> Result<Command, WordsError>
    ensures read { Reads (edit_command (texts_of words.now)) result }
    ensures ranged { IfOk result IsRanged }
{
    let matches = matches_for(alloc, "edit", &PARTS, words)?;
    Ok(Command::Net(NetCommand::Edit(EditWords {
        place: place_of(alloc, value_of(&matches, "place"))?,
        stop: has_flag(&matches, "stop"),
    })))
}
