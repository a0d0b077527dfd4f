//! Names and addresses among the arguments of the command line.

ghost use Rattle.std.specs.Prelude.{◌≡◌, option_map};
ghost use Rattle.std.specs.Char.{is_ascii_graphic};
ghost use Rattle.std.specs.List.{list_all};
ghost use Rattle.daapshare_words.specs.Texts.{name_of, place_of};
ghost use Rattle.daapshare_words.specs.Words.{Reads};

use crate::command::WordsError;
use dmap_tags::Text;
use std::alloc::Global;

/// The name of a share without `--name`.
const DEFAULT_NAME: &str = "daapshare";

/// Returns the name of a share, of at most 255 bytes; `word` is the value of `--name`.
pub fn name_of(alloc: Global, word: Option<&str>) -> Result<Text, WordsError>
    ensures { Reads (name_of (option_map (λ s. s.now) word.entry)) result }
{
    let name = word.unwrap_or(DEFAULT_NAME);
    if name.len() > 255 {
        return Err(WordsError::Usage);
    }
    Ok(Text::of(alloc, name)?)
}

/// Returns an address of the network: 1 to 255 bytes, each from `!` to `~`.
pub fn place_of(alloc: Global, word: Option<&str>) -> Result<Text, WordsError>
    ensures { Reads (place_of (option_map (λ s. s.now) word.entry)) result }
{
    let Some(place) = word else {
        return Err(WordsError::Usage);
    };
    if place.is_empty() || place.len() > 255 || !are_graphic(place.as_bytes()) {
        return Err(WordsError::Usage);
    }
    Ok(Text::of(alloc, place)?)
}

fn are_graphic(word: &[u8]) -> bool
    ensures { result ≡ list_all is_ascii_graphic word.now }
{
    word.iter().all(|byte| byte.is_ascii_graphic())
}
