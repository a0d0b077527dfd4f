//! Why a run ended with its status.

use crate::limits::limit_reason;
use crate::numbered::{json_reason, script_reason, text_reason};
use crate::peers::{answer_words, edit_words, refused_status, share_words};
use crate::queries::query_reason;
use crate::question::{about, is_question};
use crate::ran::Run;
use crate::records::records_reason;
use crate::tags::{JSON_TAG_BYTES, TAG_BYTES, tags_reason};
use daapshare_words::{Command, LocalCommand, NetCommand, read_words, words_fault};
use dmap_tags::Text;
use item_model::Meta;
use std::alloc::{AllocError, Global};

/// Returns why `run` ended with its status, in one line or more; `None` for a run that succeeded, or if nothing more is
/// known than what the run wrote. `words` are its arguments after the program's name, and `input` is what it read, unless
/// that was too long to be kept.
pub fn explanation(
    alloc: Global,
    words: &[&str],
    input: Option<&[u8]>,
    run: &Run,
) -> Result<Option<String>, AllocError> {
    match run.status {
        0 => Ok(None),
        2 => words_reason(alloc, words),
        4 => with_cause(alloc, "standard input cannot be read", text_of(&run.stream)),
        5 => with_cause(
            alloc,
            "standard output cannot be written",
            text_of(&run.stream),
        ),
        9 => with_cause(alloc, "there is not enough memory", None),
        10 => file_reason(alloc, words, run),
        _ => command_reason(alloc, words, input, run),
    }
}

fn words_reason(alloc: Global, words: &[&str]) -> Result<Option<String>, AllocError> {
    if is_question(words) {
        return Ok(Some(about(alloc)?));
    }
    words_fault(alloc, words)
}

/// Returns `words`, and the cause if it is known.
fn with_cause(
    alloc: Global,
    words: &str,
    cause: Option<&str>,
) -> Result<Option<String>, AllocError> {
    match cause {
        Some(cause) => Ok(Some(format!(in alloc; "{words}: {cause}")?)),
        None => Ok(Some(String::from_str(alloc, words)?)),
    }
}

/// Returns the text, borrowed.
fn text_of(text: &Option<String>) -> Option<&str> {
    match text {
        Some(text) => Some(text.as_str()),
        None => None,
    }
}

fn copied(alloc: Global, words: Option<&str>) -> Result<Option<String>, AllocError> {
    match words {
        Some(words) => Ok(Some(String::from_str(alloc, words)?)),
        None => Ok(None),
    }
}

fn file_reason(alloc: Global, words: &[&str], run: &Run) -> Result<Option<String>, AllocError> {
    match read_words(alloc, words) {
        Ok(Command::Net(NetCommand::Serve(words))) => match &words.file {
            Some(file) => with_cause(alloc, file.as_str(), text_of(&run.file)),
            None => Ok(None),
        },
        _ => Ok(None),
    }
}

/// Returns why a run of a command ended with a status that depends on the command.
fn command_reason(
    alloc: Global,
    words: &[&str],
    input: Option<&[u8]>,
    run: &Run,
) -> Result<Option<String>, AllocError> {
    let Ok(command) = read_words(alloc, words) else {
        return Ok(None);
    };
    match run.status {
        3 => refusal_reason(alloc, &command, input),
        6 => copied(alloc, text_of(&run.network)),
        7 => peer_reason(alloc, &command, input, run),
        8 => limit_reason(alloc, &command, run.last.as_slice()),
        _ => Ok(None),
    }
}

/// Returns why the query, the names or the input of a command are refused.
fn refusal_reason(
    alloc: Global,
    command: &Command,
    input: Option<&[u8]>,
) -> Result<Option<String>, AllocError> {
    match command {
        Command::Local(command) => local_reason(alloc, command, input),
        Command::Net(command) => net_reason(alloc, command, input),
    }
}

fn local_reason(
    alloc: Global,
    command: &LocalCommand,
    input: Option<&[u8]>,
) -> Result<Option<String>, AllocError> {
    if let LocalCommand::List(words) = command {
        let asked = asked_reason(alloc, words.query.as_ref(), words.meta.as_ref())?;
        return match asked {
            Some(reason) => Ok(Some(reason)),
            None => list_reason(alloc, words.list, input),
        };
    }
    let Some(bytes) = input else {
        return Ok(None);
    };
    match command {
        LocalCommand::Show(words) if words.back => text_reason(alloc, bytes),
        LocalCommand::Show(_) | LocalCommand::Check => tags_reason(alloc, bytes, TAG_BYTES),
        LocalCommand::Json(words) if words.back => json_reason(alloc, bytes),
        LocalCommand::Json(_) => tags_reason(alloc, bytes, JSON_TAG_BYTES),
        LocalCommand::Replay(_) => script_reason(alloc, bytes),
        LocalCommand::Codes(_) => codes_reason(alloc, bytes),
        LocalCommand::List(_) | LocalCommand::Rehearse(_) => Ok(None),
    }
}

fn codes_reason(alloc: Global, bytes: &[u8]) -> Result<Option<String>, AllocError> {
    match tags_reason(alloc, bytes, TAG_BYTES)? {
        Some(reason) => Ok(Some(reason)),
        None => with_cause(
            alloc,
            "the input is not a share's response to /content-codes, or one of its entries lacks a member or has the code of another",
            None,
        ),
    }
}

/// Returns why a query or the names of `--meta` are refused.
fn asked_reason(
    alloc: Global,
    query: Option<&Text>,
    meta: Option<&Text>,
) -> Result<Option<String>, AllocError> {
    if let Some(query) = query {
        if let Some(reason) = query_reason(alloc, query.as_str())? {
            return Ok(Some(reason));
        }
    }
    match meta {
        Some(meta) => meta_reason(alloc, meta.as_str()),
        None => Ok(None),
    }
}

fn meta_reason(alloc: Global, meta: &str) -> Result<Option<String>, AllocError> {
    match Meta::read(alloc, meta) {
        Ok(_) => Ok(None),
        Err(_) => with_cause(alloc, "--meta has more than 256 names", None),
    }
}

/// Returns why the records of `list` are refused, or that they have no list `id`.
fn list_reason(
    alloc: Global,
    id: Option<u32>,
    input: Option<&[u8]>,
) -> Result<Option<String>, AllocError> {
    if let Some(bytes) = input {
        if let Some(reason) = records_reason(alloc, bytes)? {
            return Ok(Some(reason));
        }
    }
    match id {
        Some(id) => Ok(Some(format!(in alloc; "the records have no list of the id {id}")?)),
        None => Ok(None),
    }
}

fn net_reason(
    alloc: Global,
    command: &NetCommand,
    input: Option<&[u8]>,
) -> Result<Option<String>, AllocError> {
    match command {
        NetCommand::Follow(words) => {
            asked_reason(alloc, words.query.as_ref(), words.meta.as_ref())
        }
        NetCommand::Serve(words) => serve_reason(alloc, words.file.as_ref(), input),
        NetCommand::Edit(_) => match input {
            Some(bytes) => records_reason(alloc, bytes),
            None => Ok(None),
        },
        NetCommand::Relay(_) => Ok(None),
    }
}

/// Returns why the records of `serve` are refused, or its file.
fn serve_reason(
    alloc: Global,
    file: Option<&Text>,
    input: Option<&[u8]>,
) -> Result<Option<String>, AllocError> {
    if let Some(bytes) = input {
        if let Some(reason) = records_reason(alloc, bytes)? {
            return Ok(Some(reason));
        }
    }
    match file {
        Some(file) => {
            let name = file.as_str();
            Ok(Some(format!(in alloc;
                "{name} is not an edit file of a share, or it is damaged; nothing in it was changed"
            )?))
        }
        None => Ok(None),
    }
}

/// Returns why another share refused, or what is wrong with its answer.
fn peer_reason(
    alloc: Global,
    command: &Command,
    input: Option<&[u8]>,
    run: &Run,
) -> Result<Option<String>, AllocError> {
    let Command::Net(command) = command else {
        return Ok(None);
    };
    let reason = match command {
        NetCommand::Edit(words) => edit_reason(alloc, words.place.as_str(), input, run)?,
        NetCommand::Follow(words) => share_reason(alloc, words.place.as_str(), run)?,
        NetCommand::Relay(words) => share_reason(alloc, words.upstream.as_str(), run)?,
        NetCommand::Serve(_) => return Ok(None),
    };
    match &run.network {
        Some(cause) => Ok(Some(format!(in alloc; "{reason}\n{cause}")?)),
        None => Ok(Some(reason)),
    }
}

fn edit_reason(
    alloc: Global,
    place: &str,
    input: Option<&[u8]>,
    run: &Run,
) -> Result<String, AllocError> {
    let last = run.last.as_slice();
    match refused_status(last) {
        Some(400) => refused_records(alloc, place, input),
        Some(status) => edit_words(alloc, place, status),
        None => answer_words(alloc, place, last),
    }
}

/// Returns why a share refused records, by reading them as it does.
fn refused_records(alloc: Global, place: &str, input: Option<&[u8]>) -> Result<String, AllocError> {
    if let Some(bytes) = input {
        if let Some(reason) = records_reason(alloc, bytes)? {
            return Ok(reason);
        }
    }
    share_words(alloc, place, 400)
}

fn share_reason(alloc: Global, place: &str, run: &Run) -> Result<String, AllocError> {
    let last = run.last.as_slice();
    match refused_status(last) {
        Some(status) => share_words(alloc, place, status),
        None => answer_words(alloc, place, last),
    }
}
