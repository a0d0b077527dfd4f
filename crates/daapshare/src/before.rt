//! What happens before a run: `edit` reads its records, so that it connects only when it has them, and names that no
//! property has are pointed out on standard error.

use crate::lines::tell;
use crate::streams::{Kept, Watch};
use crate::warnings::warn_names;
use daapshare_words::{Command, LocalCommand, NetCommand, read_words};
use std::alloc::Global;
use std::io::{Eprint, Read};
use std::time::Clock;

/// The most bytes that are read before a run: one more than a batch may have.
const AHEAD_BYTES: usize = 4_194_305;

const PIECE: usize = 32_768;

/// Which of the standard streams are terminals.
#[derive(Clone, Copy)]
pub struct Terminals {
    pub input: bool,
    pub error: bool,
}

/// What a command reads and lists.
#[derive(Drop)]
struct Wants<'a> {
    query: Option<&'a str>,
    meta: Option<&'a str>,
    /// Whether it reads its input.
    reads: bool,
    /// Whether its input are records.
    are_records: bool,
    /// Whether its input is read before the run.
    is_read_ahead: bool,
}

const NOTHING: Wants<'static> = Wants {
    query: None,
    meta: None,
    reads: false,
    are_records: false,
    is_read_ahead: false,
};

/// Nothing is written while the input is read.
pub const QUIET: Watch = Watch {
    shows_progress: false,
    warns_of_rules: false,
};

/// Prepares a run with these arguments. Returns its input.
pub fn prepare<'a, E: Eprint + Clock, I: Read>(
    rt: &'a E,
    alloc: Global,
    words: &[&str],
    reader: I,
    terminals: Terminals,
) -> Kept<'a, E, I> {
    let Ok(command) = read_words(alloc, words) else {
        return Kept::new(rt, alloc, reader, QUIET);
    };
    let wants = wants_of(&command);
    let watch = Watch {
        shows_progress: terminals.error,
        warns_of_rules: wants.are_records,
    };
    // Without memory a warning is left out.
    let _warned = warn_names(rt, alloc, wants.query, wants.meta);
    if wants.reads && terminals.input {
        let words = "reading from the terminal; Ctrl-D at the beginning of a line ends the input";
        tell(rt, alloc, words);
    }
    let mut input = Kept::new(rt, alloc, reader, watch);
    if wants.is_read_ahead {
        read_all(&mut input);
    }
    input
}

fn wants_of(command: &Command) -> Wants<'_> {
    match command {
        Command::Local(command) => local_wants(command),
        Command::Net(command) => net_wants(command),
    }
}

fn local_wants(command: &LocalCommand) -> Wants<'_> {
    match command {
        LocalCommand::List(words) => Wants {
            query: words.query.as_ref().map(|text| text.as_str()),
            meta: words.meta.as_ref().map(|text| text.as_str()),
            reads: true,
            are_records: true,
            ..NOTHING
        },
        LocalCommand::Codes(words) => Wants {
            reads: words.learn,
            ..NOTHING
        },
        LocalCommand::Rehearse(_) => NOTHING,
        _ => Wants {
            reads: true,
            ..NOTHING
        },
    }
}

fn net_wants(command: &NetCommand) -> Wants<'_> {
    match command {
        NetCommand::Serve(_) => Wants {
            reads: true,
            are_records: true,
            ..NOTHING
        },
        NetCommand::Edit(words) => Wants {
            reads: !words.stop,
            are_records: !words.stop,
            is_read_ahead: !words.stop,
            ..NOTHING
        },
        NetCommand::Follow(words) => Wants {
            query: words.query.as_ref().map(|text| text.as_str()),
            meta: words.meta.as_ref().map(|text| text.as_str()),
            ..NOTHING
        },
        NetCommand::Relay(_) => NOTHING,
    }
}

/// Reads the input to its end, or to one byte more than a batch may have.
fn read_all<E: Eprint + Clock, I: Read>(input: &mut Kept<'_, E, I>) {
    let mut piece = [0; PIECE];
    for _ in 0..AHEAD_BYTES {
        let left = AHEAD_BYTES.saturating_sub(input.len());
        if left == 0 || !input.read_ahead(&mut piece[..left.min(PIECE)]) {
            return;
        }
    }
}
