//! The commands of the program, by the first argument.

ghost use Rattle.std.specs.Prelude.{◌≡◌, Some, None, IfOk, IfErr};
ghost use Rattle.daapshare_words.specs.Grammar.{texts_of};
ghost use Rattle.daapshare_words.specs.Words.{command_named, command_of, net_command_named, Reads, IsRanged};

use crate::codes::CodesWords;
use crate::edit::EditWords;
use crate::follow::FollowWords;
use crate::json::JsonWords;
use crate::list::ListWords;
use crate::rehearse::RehearseWords;
use crate::relay::RelayWords;
use crate::replay::ReplayWords;
use crate::serve::ServeWords;
use crate::show::ShowWords;
use crate::{check, codes, edit, follow, json, list, rehearse, relay, replay, serve, show};
use clap::error::ErrorKind;
use std::alloc::{AllocError, Global};
use thiserror::Error;

/// A command, with its arguments.
#[derive(Debug, Drop)]
pub enum Command {
    /// A command over standard input and output only.
    Local(LocalCommand),
    /// A command over the network, which may wait for another process.
    Net(NetCommand),
}

/// A command over standard input and output only.
#[derive(Debug, Drop)]
pub enum LocalCommand {
    /// Writes the full listing of the records on the input.
    List(ListWords),
    /// Shows tags as text, or reads such text back.
    Show(ShowWords),
    /// Counts the tags on the input.
    Check,
    /// Writes the content code table, the standard one or that of the input.
    Codes(CodesWords),
    /// Plays a script to a share.
    Replay(ReplayWords),
    /// Rehearses made-up batches.
    Rehearse(RehearseWords),
    /// Writes tags as JSON, or reads JSON back.
    Json(JsonWords),
}

/// A command over the network.
#[derive(Debug, Drop)]
pub enum NetCommand {
    /// Serves a share to players and editors.
    Serve(ServeWords),
    /// Sends the records on the input to a share, or stops it.
    Edit(EditWords),
    /// Mirrors a listing of a share, for some rounds.
    Follow(FollowWords),
    /// Follows another share and serves it.
    Relay(RelayWords),
}

/// Why no command was read.
#[derive(Debug, Drop, Error)]
pub enum WordsError {
    #[error("the arguments are not those of a command")]
    Usage,
    #[error("out of memory")]
    Memory,
}

impl From<AllocError> for WordsError {
    ghost use Rattle.std.specs.Prelude.{◌≡◌};
    ghost use Rattle.daapshare_words.specs.declared.command.WordsError.TheVariants.{Memory};

    ghost from_gives = { λ _ e. e ≡ Memory };

    fn from(_: AllocError) -> WordsError {
        WordsError::Memory
    }
}

impl From<clap::Error> for WordsError {
    ghost use Rattle.std.specs.Prelude.{◌≡◌, ◌≢◌};
    ghost use Rattle.clap.specs.Words.{kind_of};
    ghost use Rattle.clap.specs.declared.error.kind.ErrorKind.TheVariants.{OutOfMemory};
    ghost use Rattle.daapshare_words.specs.declared.command.WordsError.TheVariants.{Usage};

    ghost from_gives = { λ error e. e ≡ Usage → kind_of error ≢ OutOfMemory };

    fn from(error: clap::Error) -> WordsError {
        if error.kind() == ErrorKind::OutOfMemory {
            WordsError::Memory
        } else {
            WordsError::Usage
        }
    }
}

/// Reads `words`, the arguments after the program's name. The first names the command.
///
/// # Errors
///
/// Returns `Usage` if the arguments are not a command's, and `Memory` if an allocation fails.
pub fn read_words(alloc: Global, words: &[&str]) -> Result<Command, WordsError>
    ensures read { IfOk result (λ c. command_of (texts_of words.now) ≡ Some c) }
    ensures usage { IfErr result (λ e. e ≡ WordsError.Usage
        → command_of (texts_of words.now) ≡ None) }
    ensures ranged { IfOk result IsRanged }
{
    match words.first() {
        Some(name) => read_named_words(alloc, name, words),
        None => Err(WordsError::Usage),
    }
}

/// Reads the arguments of the command `name`.
fn read_named_words(alloc: Global, name: &str, words: &[&str]) -> Result<Command, WordsError>
    ensures read { Reads (command_named name.now (texts_of words.now)) result }
    ensures ranged { IfOk result IsRanged }
{
    if name == "list" {
        list::read(alloc, words)
    } else if name == "show" {
        show::read(alloc, words)
    } else if name == "check" {
        check::read(alloc, words)
    } else if name == "codes" {
        codes::read(alloc, words)
    } else if name == "replay" {
        replay::read(alloc, words)
    } else if name == "rehearse" {
        rehearse::read(alloc, words)
    } else if name == "json" {
        json::read(alloc, words)
    } else {
        read_net_words(alloc, name, words)
    }
}

/// Reads the arguments of the command `name`, if that is one over the network.
fn read_net_words(alloc: Global, name: &str, words: &[&str]) -> Result<Command, WordsError>
    ensures read { Reads (net_command_named name.now (texts_of words.now)) result }
    ensures ranged { IfOk result IsRanged }
{
    if name == "serve" {
        serve::read(alloc, words)
    } else if name == "edit" {
        edit::read(alloc, words)
    } else if name == "follow" {
        follow::read(alloc, words)
    } else if name == "relay" {
        relay::read(alloc, words)
    } else {
        Err(WordsError::Usage)
    }
}
