//! Which limit a run met, and its number.

use daapshare_words::{Command, LocalCommand, NetCommand};
use std::alloc::{AllocError, Global};

/// Returns which limit a run of `command` met; `last` is its line.
pub fn limit_reason(
    alloc: Global,
    command: &Command,
    last: &[u8],
) -> Result<Option<String>, AllocError> {
    let words = if last.starts_with(b"limit: requests") {
        "a worker served 65536 connections or 262144 requests, which is as much as one may; the others went on without it"
    } else if last.starts_with(b"limit: rehearsal") {
        "a rehearsal has at most 262144 edits and 1048576 batches: BATCHES times SIZE is more"
    } else if last.starts_with(b"limit: library") {
        library_words(command)
    } else {
        input_words(command)
    };
    Ok(Some(String::from_str(alloc, words)?))
}

fn library_words(command: &Command) -> &'static str {
    match command {
        Command::Net(NetCommand::Relay(_)) => {
            "a relay has room for 262144 edits from its start, and the changes of this listing are more: start it again"
        }
        Command::Net(_) => {
            "a share has at most 1024 lists and 262144 edits, those of the file with them: HOUSEHOLD.md, section 7, renews the file"
        }
        Command::Local(_) => "a share has at most 1024 lists besides container 1",
    }
}

fn input_words(command: &Command) -> &'static str {
    match command {
        Command::Local(command) => local_input_words(command),
        Command::Net(_) =>
            "the records have more than 4194304 bytes (4 MiB), the most of one batch",
    }
}

fn local_input_words(command: &LocalCommand) -> &'static str {
    match command {
        LocalCommand::List(_) =>
            "the records have more than 4194304 bytes (4 MiB), the most of one batch",
        LocalCommand::Show(words) if !words.back =>
            "the input has more than 4294967296 bytes (4 GiB)",
        LocalCommand::Check => "the input has more than 4294967296 bytes (4 GiB)",
        _ => "the input has more than 67108864 bytes (64 MiB)",
    }
}
