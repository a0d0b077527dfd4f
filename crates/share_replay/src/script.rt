//! Reads scripts.

ghost use Rattle.std.specs.Prelude.{◌≡◌, ◌++◌, ◌∷◌, [], ℕ, List, true, false, Some, None, Ok, length, get_or, slice_set, ◌+◌, ◌≤◌, IfOk, IfErr, MatchOption, ◌&&◌, not};
ghost use Rattle.std.specs.Int.{is_in_range};
ghost use Rattle.share_replay.specs.Lines.{before, behind};
ghost use Rattle.share_replay.specs.Scripts.{AreOpened, lines_in, may_follow, may_all_follow, script_of};
ghost use Rattle.share_replay.specs.Refusals.{IsRefused};
ghost use Rattle.share_replay.specs.declared.delivery.Delivery.{Delivery};

use crate::delivery::Delivery;
use crate::line::{read_line, split_once_at};
use std::alloc::{AllocError, AllocFailed, Global};
use std::marker::Model;
use thiserror::Error;

/// Why a script was not read.
#[derive(Debug, Drop, PartialEq, Eq, Error)]
pub enum ScriptError {
    /// The first line, counted from 1, that is malformed, may not follow those before it, or has no line feed.
    #[error("line {line}")]
    Line { line: u64 },
    #[error("out of memory")]
    Memory,
}

impl From<AllocError> for ScriptError {
    ghost use Rattle.std.specs.Prelude.{◌≡◌};
    ghost use Rattle.share_replay.specs.declared.script.ScriptError.TheVariants.{Memory};

    ghost from_gives = { λ _ e. e ≡ Memory };

    fn from(_error: AllocError) -> ScriptError {
        ScriptError::Memory
    }
}

impl<T: Drop> From<AllocFailed<T>> for ScriptError {
    ghost use Rattle.std.specs.Prelude.{◌≡◌};
    ghost use Rattle.share_replay.specs.declared.script.ScriptError.TheVariants.{Memory};

    ghost from_gives = { λ _ e. e ≡ Memory };

    fn from(_error: AllocFailed<T>) -> ScriptError {
        ScriptError::Memory
    }
}

/// The lines of a script, each of which may follow those before it.
pub struct Script {
    lines: Vec<Delivery>,
}

impl Drop for Script {
    fn drop(self) {
        let Script { lines: _ } = self;
    }
}

impl Model for Script {
    ghost use Rattle.std.specs.Prelude.{◌≡◌, List, [], true};
    ghost use Rattle.std.specs.Coded.{codes};
    ghost use Rattle.share_replay.specs.declared.delivery.Delivery.{Delivery};
    ghost use Rattle.share_replay.specs.Scripts.{may_all_follow};

    ghost Value = { List Delivery };

    ghost coded = { Prim.hlevel codes };

    ghost view = { λ a. a.lines.items };

    ghost invariant = { λ a. may_all_follow [] a.lines.items ≡ true };
}

impl Script {
    /// Reads a text as a script.
    pub fn read(alloc: Global, text: &[u8]) -> Result<Script, ScriptError>
        ensures read { IfOk result (λ script. script_of text.now ≡ Ok script) }
        ensures refused { IfErr result (λ error. IsRefused text.now error) }
    {
        let lines = read_lines(alloc, text)?;
        Ok(Script { lines })
    }

    /// Returns its lines, in order.
    pub fn lines(&self) -> &[Delivery]
        ensures lines { result.now ≡ self.now }
        ensures follow { may_all_follow [] self.now ≡ true }
    {
        self.lines.as_slice()
    }
}

#[tactic(auto, using(crate::proofs::Texts::line_taken, crate::proofs::Texts::line_refused, crate::proofs::Texts::line_out_of_place, crate::proofs::Texts::line_unended, crate::proofs::Texts::all_lines, crate::proofs::Texts::follows_more))]
fn read_lines(alloc: Global, text: &[u8]) -> Result<Vec<Delivery>, ScriptError>
    ensures read { IfOk result (λ lines. script_of text.now ≡ Ok lines.items) }
    ensures follow { IfOk result (λ lines. may_all_follow [] lines.items ≡ true) }
    ensures refused { IfErr result (λ error. IsRefused text.now error) }
{
    let mut lines = Vec::new(alloc);
    let mut opened = new_flags();
    let mut left = text;
    let mut line = 0;
    while !left.is_empty() {
        line += 1;
        let Some((bare, rest)) = split_line(left) else {
            return Err(ScriptError::Line { line });
        };
        let Some(told) = read_line(alloc, bare)? else {
            return Err(ScriptError::Line { line });
        };
        if !follow(&mut opened, &told) {
            return Err(ScriptError::Line { line });
        }
        lines.push(told)?;
        left = rest;
    }
    Ok(lines)
}

/// Returns the first line without its line feed, and what follows.
fn split_line(text: &[u8]) -> Option<(&[u8], &[u8])>
    ensures lines { MatchOption result (lines_in text.now ≡ ([], text.now))
        (λ r. lines_in text.now ≡ (r.0.now ∷ (lines_in r.1.now).0, (lines_in r.1.now).1)) }
    ensures shorter { MatchOption result (Unit {0}) (λ r. length r.1.now + 1 ≤ length text.now) }
{
    split_once_at(text, b'\n')
}

/// Returns the flags of the numbers up to 64, none of them opened.
fn new_flags() -> [bool; 65]
    ensures size { length result ≡ 65 }
    ensures none { AreOpened result [] }
{
    [false; 65]
}

/// Returns whether a line may follow others, whose opened numbers are the flags `opened`. Sets the flag of a
/// connection that it opens.
fn follow(opened: &mut [bool], told: &Delivery) -> bool
    requires { length opened.old ≡ 65 }
    ensures { (lines : List Delivery) → AreOpened opened.old lines
        → (result ≡ may_follow lines told.now)
        × (result ≡ true → AreOpened opened.new (lines ++ told.now ∷ [])) }
{
    match told {
        Delivery::Open { number, .. } => open_number(opened, *number),
        Delivery::Text { number, .. } | Delivery::Close { number } => is_open(opened, *number),
    }
}

fn is_open(opened: &[bool], number: u32) -> bool
    ensures { result ≡ get_or opened.now number false }
{
    match opened.get(number as usize) {
        Some(is_open) => *is_open,
        None => false,
    }
}

fn open_number(opened: &mut [bool], number: u32) -> bool
    requires { length opened.old ≡ 65 }
    ensures may { result ≡ (is_in_range 1 64 number && not (get_or opened.old number false)) }
    ensures opened { result ≡ true → opened.new ≡ slice_set opened.old number true }
    ensures refused { result ≡ false → opened.new ≡ opened.old }
{
    if !(1..=64).contains(&number) || is_open(opened, number) {
        return false;
    }
    opened[number as usize] = true;
    true
}
