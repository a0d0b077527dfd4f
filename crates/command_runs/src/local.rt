//! Runs the commands over standard input and output: one function for all, and one for each.

ghost use Rattle.std.specs.Prelude.{◌≡◌};
ghost use Rattle.command_core.specs.Seen.{Around, input_of, output_of, run_over_streams};
ghost use Rattle.command_core.specs.Endings.{IsAnswered};
ghost use Rattle.share_commands.specs.ListShare.{list_meaning};
ghost use Rattle.share_commands.specs.ReplayShare.{replay_meaning};
ghost use Rattle.share_commands.specs.RehearseShare.{rehearse_meaning};
ghost use Rattle.daapshare_words.specs.Rehearse.{AreRehearseWords};
ghost use Rattle.daapshare_words.specs.Replay.{AreReplayWords};
ghost use Rattle.daapshare_words.specs.Words.{IsLocalRanged};
ghost use Rattle.command_runs.specs.Table.{json_meaning_of, meaning_of, show_meaning_of, target_of, codes_meaning_of};

use command_core::Outcome;
use daapshare_words::{ListWords, LocalCommand, RehearseWords, ReplayWords};
use item_model::Target;
use json_commands::{read_json, write_json};
use outside_net::{Sink, Source};
use share_commands::{list_share, rehearse_share, replay_script};
use std::alloc::Global;
use tag_commands::{check_tags, learn_codes, list_codes, read_shown, show_tags};

/// Runs a command over standard input and output.
pub fn run_local<I: Source, W: Sink>(
    alloc: Global,
    command: &LocalCommand,
    input: &mut I,
    output: &mut W,
) -> Outcome
    requires { IsLocalRanged command.now }
    ensures { (around : Around) → IsAnswered (meaning_of command.now)
        (run_over_streams around
        (input_of I.Source input.old)
        (input_of I.Source input.new)
        (output_of W.Sink output.old)
        (output_of W.Sink output.new))
        result }
{
    match command {
        LocalCommand::List(words) => run_list(alloc, words, input, output),
        LocalCommand::Show(words) => run_show(alloc, words.back, input, output),
        LocalCommand::Check => check_tags(alloc, input, output),
        LocalCommand::Codes(words) => run_codes(alloc, words.learn, input, output),
        LocalCommand::Replay(words) => run_replay(alloc, words, input, output),
        LocalCommand::Rehearse(words) => run_rehearse(alloc, words, input, output),
        LocalCommand::Json(words) => run_json(alloc, words.back, input, output),
    }
}

/// Runs `list`.
fn run_list<I: Source, W: Sink>(
    alloc: Global,
    words: &ListWords,
    input: &mut I,
    output: &mut W,
) -> Outcome
    ensures { (around : Around) → IsAnswered
        (list_meaning words.now.query words.now.meta (target_of words.now.list))
        (run_over_streams around
        (input_of I.Source input.old)
        (input_of I.Source input.new)
        (output_of W.Sink output.old)
        (output_of W.Sink output.new))
        result }
{
    list_share(
        alloc,
        words.query.as_ref(),
        words.meta.as_ref(),
        target_of(words.list),
        input,
        output,
    )
}

/// Runs `show`, or `show --back`.
fn run_show<I: Source, W: Sink>(alloc: Global, back: bool, input: &mut I, output: &mut W) -> Outcome
    ensures { (around : Around) → IsAnswered (show_meaning_of back)
        (run_over_streams around
        (input_of I.Source input.old)
        (input_of I.Source input.new)
        (output_of W.Sink output.old)
        (output_of W.Sink output.new))
        result }
{
    match back {
        false => show_tags(alloc, input, output),
        true => read_shown(alloc, input, output),
    }
}

/// Runs `codes`, or `codes --learn`.
fn run_codes<I: Source, W: Sink>(
    alloc: Global,
    learn: bool,
    input: &mut I,
    output: &mut W,
) -> Outcome
    ensures { (around : Around) → IsAnswered (codes_meaning_of learn)
        (run_over_streams around
        (input_of I.Source input.old)
        (input_of I.Source input.new)
        (output_of W.Sink output.old)
        (output_of W.Sink output.new))
        result }
{
    match learn {
        false => list_codes(alloc, output),
        true => learn_codes(alloc, input, output),
    }
}

/// Runs `replay`.
fn run_replay<I: Source, W: Sink>(
    alloc: Global,
    words: &ReplayWords,
    input: &mut I,
    output: &mut W,
) -> Outcome
    requires { AreReplayWords words.now }
    ensures { (around : Around) → IsAnswered (replay_meaning words.now.keep words.now.name)
        (run_over_streams around
        (input_of I.Source input.old)
        (input_of I.Source input.new)
        (output_of W.Sink output.old)
        (output_of W.Sink output.new))
        result }
{
    replay_script(alloc, words.keep, words.name.as_str(), input, output)
}

/// Runs `rehearse`.
fn run_rehearse<I: Source, W: Sink>(
    alloc: Global,
    words: &RehearseWords,
    input: &mut I,
    output: &mut W,
) -> Outcome
    requires { AreRehearseWords words.now }
    ensures { (around : Around) → IsAnswered
        (rehearse_meaning words.now.number words.now.batches words.now.size words.now.keep)
        (run_over_streams around
        (input_of I.Source input.old)
        (input_of I.Source input.new)
        (output_of W.Sink output.old)
        (output_of W.Sink output.new))
        result }
{
    rehearse_share(
        alloc,
        words.number,
        words.batches,
        words.size,
        words.keep,
        output,
    )
}

/// Runs `json`, or `json --back`.
fn run_json<I: Source, W: Sink>(alloc: Global, back: bool, input: &mut I, output: &mut W) -> Outcome
    ensures { (around : Around) → IsAnswered (json_meaning_of back)
        (run_over_streams around
        (input_of I.Source input.old)
        (input_of I.Source input.new)
        (output_of W.Sink output.old)
        (output_of W.Sink output.new))
        result }
{
    match back {
        false => write_json(alloc, input, output),
        true => read_json(alloc, input, output),
    }
}

/// Returns what is listed: all items, or the rows of a container.
pub fn target_of(list: Option<u32>) -> Target
    ensures { result ≡ target_of list }
{
    match list {
        Some(id) => Target::Container(id),
        None => Target::Items,
    }
}
