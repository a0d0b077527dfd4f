//! Why arguments are not a command's, in words.

use crate::command::{WordsError, read_words};
use crate::grammar::{Part, command, value_of};
use crate::numbers::{editors_of, keep_of, list_of, number_of, workers_of};
use crate::texts::{name_of, place_of};
use crate::{check, codes, edit, follow, json, list, rehearse, relay, replay, serve, show};
use clap::ArgMatches;
use std::alloc::{AllocError, Global};

/// The names of the commands.
const NAMES: &str =
    "list, show, check, codes, replay, rehearse, serve, edit, follow, relay and json";

/// Returns why `words` are not the arguments of a command, or `None` if they are.
pub fn words_fault(alloc: Global, words: &[&str]) -> Result<Option<String>, AllocError> {
    match read_words(alloc, words) {
        Ok(_) => return Ok(None),
        Err(WordsError::Memory) => return Err(AllocError),
        Err(WordsError::Usage) => {}
    }
    let Some(name) = words.first() else {
        return Ok(Some(format!(in alloc; "no command is given: there are {NAMES}")?));
    };
    match parts_of(name) {
        Some((title, parts)) => named_fault(alloc, title, parts, words),
        None => Ok(Some(format!(in alloc; "no command has the name {name:?}: there are {NAMES}")?)),
    }
}

/// Returns the name of a command after the program's, and its parts.
fn parts_of(name: &str) -> Option<(&'static str, &'static [(&'static str, Part)])> {
    let found: (&str, &[(&str, Part)]) = if name == "list" {
        ("daapshare list", &list::PARTS)
    } else if name == "show" {
        ("daapshare show", &show::PARTS)
    } else if name == "check" {
        ("daapshare check", &check::PARTS)
    } else if name == "codes" {
        ("daapshare codes", &codes::PARTS)
    } else if name == "replay" {
        ("daapshare replay", &replay::PARTS)
    } else if name == "rehearse" {
        ("daapshare rehearse", &rehearse::PARTS)
    } else if name == "json" {
        ("daapshare json", &json::PARTS)
    } else {
        return net_parts_of(name);
    };
    Some(found)
}

/// Returns the name of a command over the network after the program's, and its parts.
fn net_parts_of(name: &str) -> Option<(&'static str, &'static [(&'static str, Part)])> {
    if name == "serve" {
        Some(("daapshare serve", &serve::PARTS))
    } else if name == "edit" {
        Some(("daapshare edit", &edit::PARTS))
    } else if name == "follow" {
        Some(("daapshare follow", &follow::PARTS))
    } else if name == "relay" {
        Some(("daapshare relay", &relay::PARTS))
    } else {
        None
    }
}

/// Returns why `words` are not the arguments of the command with these parts: what `clap` says, or the first value that
/// is out of its range. `clap` names the program by `title`, in place of the first word.
fn named_fault(
    alloc: Global,
    title: &str,
    parts: &[(&str, Part)],
    words: &[&str],
) -> Result<Option<String>, AllocError> {
    let mut named = Vec::new(alloc);
    named.push(title)?;
    for word in words.iter().skip(1) {
        named.push(*word)?;
    }
    match command(alloc, title, parts)?.try_get_matches_from(named.as_slice()) {
        Ok(matches) => value_fault(alloc, parts, &matches),
        Err(error) => Ok(Some(format!(in alloc; "{error}")?)),
    }
}

/// Returns the first value that is out of its range.
fn value_fault(
    alloc: Global,
    parts: &[(&str, Part)],
    matches: &ArgMatches<'_>,
) -> Result<Option<String>, AllocError> {
    let is_kept = value_of(matches, "file").is_some();
    for (name, part) in parts {
        if let Some(value) = value_of(matches, name) {
            if let Some(wanted) = wanted(alloc, name, value, is_kept) {
                return Ok(Some(fault_words(alloc, name, *part, value, wanted)?));
            }
        }
    }
    Ok(None)
}

fn fault_words(
    alloc: Global,
    name: &str,
    part: Part,
    value: &str,
    wanted: &str,
) -> Result<String, AllocError> {
    match part {
        Part::Place => format!(in alloc; "<{name}> {value:?}: {wanted}"),
        Part::Valued | Part::Flag => format!(in alloc; "--{name} {value:?}: {wanted}"),
    }
}

/// Returns what is wanted in place of the value of a part, if that is out of its range.
fn wanted(alloc: Global, name: &str, value: &str, is_kept: bool) -> Option<&'static str> {
    let word = Some(value);
    if name == "name" {
        return match name_of(alloc, word) {
            Err(WordsError::Usage) => Some("at most 255 bytes are possible"),
            _ => None,
        };
    }
    if name == "place" || name == "listen" || name == "edit" || name == "upstream" {
        return match place_of(alloc, word) {
            Err(WordsError::Usage) => {
                Some("a host and a port are wanted, as 127.0.0.1:3689, without blanks")
            }
            _ => None,
        };
    }
    wanted_number(name, word, is_kept)
}

fn wanted_number(name: &str, word: Option<&str>, is_kept: bool) -> Option<&'static str> {
    if name == "keep" && keep_of(word).is_none() {
        Some("a number from 1 to 65536 is wanted")
    } else if name == "workers" && workers_of(word).is_none() {
        Some("a number from 1 to 64 is wanted")
    } else if name == "editors" && editors_of(word, is_kept).is_none() {
        Some(if is_kept {
            "only 1 is possible beside --file"
        } else {
            "a number from 1 to 8 is wanted"
        })
    } else if name == "list" && list_of(word).is_none() {
        Some("a number from 1 to 4294967295 is wanted")
    } else {
        wanted_count(name, word)
    }
}

fn wanted_count(name: &str, word: Option<&str>) -> Option<&'static str> {
    if name == "rounds" && number_of(word, 1, 16_384).is_none() {
        Some("a number from 1 to 16384 is wanted")
    } else if name == "number" && number_of(word, 0, 2_147_483_647).is_none() {
        Some("a number from 0 to 2147483647 is wanted")
    } else if name == "batches" && number_of(word, 1, 65_536).is_none() {
        Some("a number from 1 to 65536 is wanted")
    } else if name == "size" && number_of(word, 1, 256).is_none() {
        Some("a number from 1 to 256 is wanted")
    } else {
        None
    }
}
