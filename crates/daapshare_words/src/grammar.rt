//! Reads the arguments of one command by a `clap` command.

ghost use Rattle.std.specs.Prelude.{◌≡◌, ◌≢◌, Some, None, false, [], IfOk, IfSome, IsUtf8, MatchResult, option_map};
ghost use Rattle.clap.specs.Words.{app_of, rule_of, rows_of, first_of, found_of};
ghost use Rattle.daapshare_words.specs.Grammar.{app_for, grammar_of, is_flagged, rule_for, rows_for, texts_of};

use crate::command::WordsError;
use clap::{Arg, ArgAction, ArgMatches, Command};
use dmap_tags::Text;
use std::alloc::{AllocError, Global};

/// The kind of an argument of a command.
#[derive(Clone, Copy, PartialEq, Eq)]
pub enum Part {
    /// A positional argument, which is required.
    Place,
    /// `--name VALUE` or `--name=VALUE`, at most once.
    Valued,
    /// `--name`, at most once.
    Flag,
}

/// Returns `clap`'s matches of `words` for the command `name` with `parts`. The first of `words` is left out.
pub fn matches_for<'a>(
    alloc: Global,
    name: &'a str,
    parts: &'a [(&'a str, Part)],
    words: &'a [&'a str],
) -> Result<ArgMatches<'a>, WordsError>
    ensures { MatchResult result
        (λ m. rows_for (grammar_of name.entry.now parts.entry.now) (texts_of words.entry.now) ≡ Some (rows_of (found_of m)))
        (λ e. e ≡ WordsError.Usage → rows_for (grammar_of name.entry.now parts.entry.now) (texts_of words.entry.now) ≡ None) }
{
    let command = command(alloc, name, parts)?;
    Ok(command.try_get_matches_from(words)?)
}

/// Returns the first value of the part `name`, if it has one.
pub fn value_of<'a>(matches: &ArgMatches<'a>, name: &str) -> Option<&'a str>
    ensures { option_map (λ s. s.now) result ≡ first_of name.now (rows_of (found_of matches.now)) }
{
    matches.get_str(name)
}

/// Returns the `clap` command `name`, with long names only and without help or version.
pub fn command<'a>(
    alloc: Global,
    name: &'a str,
    parts: &'a [(&'a str, Part)],
) -> Result<Command<'a>, AllocError>
    ensures { IfOk result (λ c. app_of c ≡ app_for (grammar_of name.entry.now parts.entry.now)) }
{
    let mut command = bare(alloc, name);
    for (part_name, part) in parts {
        command = command.arg(argument(alloc, part_name, *part))?;
    }
    Ok(command)
}

fn bare<'a>(alloc: Global, name: &'a str) -> Command<'a>
    ensures { app_of result ≡ app_for (grammar_of name.entry.now []) }
{
    Command::new(alloc, name)
        .disable_help_flag(true)
        .disable_version_flag(true)
}

fn argument<'a>(alloc: Global, name: &'a str, part: Part) -> Arg<'a>
    ensures rule { rule_of result ≡ rule_for (name.entry.now, part) }
    ensures local { result.global ≡ false }
{
    let argument = Arg::new(alloc, name);
    match part {
        Part::Place => argument.required(true).action(ArgAction::Set),
        Part::Valued => argument.long(name).action(ArgAction::Set),
        Part::Flag => argument.long(name).action(ArgAction::SetTrue),
    }
}

/// Returns a copy of the value of the option `name`, or `None` if that is not given.
pub fn text_of(
    alloc: Global,
    matches: &ArgMatches<'_>,
    name: &str,
) -> Result<Option<Text>, AllocError>
    ensures read { IfOk result (λ t. t ≡ first_of name.now (rows_of (found_of matches.now))) }
    ensures utf8 { IfOk result (λ t. IfSome t IsUtf8) }
{
    match value_of(matches, name) {
        Some(text) => Ok(Some(Text::of(alloc, text)?)),
        None => Ok(None),
    }
}

/// Returns whether the flag `name` is given.
pub fn has_flag(matches: &ArgMatches<'_>, name: &str) -> bool
    ensures { result ≡ is_flagged name.now (rows_of (found_of matches.now)) }
{
    match value_of(matches, name) {
        Some(text) => text == "true",
        None => false,
    }
}
