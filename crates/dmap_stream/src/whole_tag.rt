//! Reads one whole tag.

ghost use Rattle.std.specs.Prelude.{◌≡◌, ◌≢◌, ◌⊎◌, ◌+◌, ◌≤◌, ◌++◌, ℕ, List, length, take, true, Err, IfOk, IfErr, OnOk, MatchResult};
ghost use Rattle.dmap_tags.specs.Tree.{Tree, trees_of};
ghost use Rattle.dmap_tags.specs.Spelling.{spelling};
ghost use Rattle.dmap_tags.specs.Proper.{IsProperTag};
ghost use Rattle.dmap_stream.specs.Walk.{between, inside, walk_of};
ghost use Rattle.dmap_stream.specs.WholeTag.{is_accepted, refusal, ReadsTag, RefusesTag, ReadsRest, RefusesRest};

use crate::containers::{Container, Containers};
use crate::head::{head_of, is_list};
use crate::reader::Limits;
use crate::refusal::StreamError;
use code_table::CodeTable;
use dmap_tags::{Tag, Tags, Value, leaf};
use std::alloc::Global;

/// What tags are read by: the kinds of values, the maximum payload of a top tag, and the total number of bytes.
#[derive(Drop)]
struct Rules<'a> {
    alloc: Global,
    table: &'a CodeTable,
    top: u32,
    total: u64,
}

/// Returns the first top tag of `bytes`, and its number of bytes. What follows it is not read.
///
/// Returns `Truncated` at the length of `bytes` if they end before it is whole; for no bytes at all this is 0.
pub fn read_tag(
    alloc: Global,
    bytes: &[u8],
    table: &CodeTable,
    limits: Limits,
) -> Result<(Tag, usize), StreamError>
    ensures found { IfOk result
        (λ r. (r.1 ≤ length bytes.now) × (take r.1 bytes.now ≡ spelling r.0)
        × (is_accepted table.now limits.top r.0 ≡ true) × IsProperTag r.0) }
    ensures only { (t : Tree) (rest : List ℕ) → is_accepted table.now limits.top t ≡ true
        → IsProperTag t
        → bytes.now ≡ spelling t ++ rest
        → MatchResult result
        (λ r. (r.0 ≡ t) × (r.1 ≡ length (spelling t)))
        (λ e. e ≡ StreamError.Memory) }
    ensures refused { IfErr result
        (λ e. e ≢ StreamError.Memory
        → e ≡ refusal (length bytes.now) (walk_of table.now limits.top bytes.now).ending) }
    ensures truncated { (at : ℕ) → result ≡ Err (StreamError.Truncated at)
        → ((walk_of table.now limits.top bytes.now).ending ≡ between)
        ⊎ ((walk_of table.now limits.top bytes.now).ending ≡ inside) }
{
    let rules = Rules {
        alloc,
        table,
        top: limits.top,
        total: bytes.len() as u64,
    };
    let mut around = Containers::new(alloc);
    match tag_at(&rules, &mut around, 0, bytes) {
        Ok((tag, rest)) => Ok((tag, bytes.len() - rest.len())),
        Err(error) => Err(error),
    }
}

/// Returns the tag whose head is expected at `at`, and the bytes after it.
#[cycle(whole)]
fn tag_at<'a>(
    rules: &Rules<'_>,
    around: &mut Containers,
    at: u64,
    bytes: &'a [u8],
) -> Result<(Tag, &'a [u8]), StreamError>
    requires { at + length bytes.now ≤ rules.now.total }
    ensures tells { MatchResult result
        (λ r. ReadsTag rules.now.table.now rules.now.top at around.old bytes.now r.0 r.1.now)
        (λ e. RefusesTag rules.now.table.now rules.now.top rules.now.total at around.old bytes.now e) }
    ensures same { OnOk result (around.new ≡ around.old) }
{
    if bytes.len() < 8 {
        return Err(StreamError::Truncated { at: rules.total });
    }
    let (head, rest) = bytes.split_at(8);
    let (code, len) = head_of(head);
    if let Some(error) = around.fault(rules.top, at, code, len) {
        return Err(error);
    }
    let kind = rules.table.kind_of(around.parent(), code);
    if is_list(kind) {
        let end = at as u128 + 8 + len as u128;
        around.push(Container { code, at, end })?;
        return match members_at(rules, around, at + 8, rest) {
            Ok((members, later)) => {
                around.leave();
                let value = Value::List(members);
                Ok((Tag { code, value }, later))
            }
            Err(error) => Err(error),
        };
    }
    if rest.len() < len as usize {
        return Err(StreamError::Truncated { at: rules.total });
    }
    let (payload, later) = rest.split_at(len as usize);
    let value = leaf(rules.alloc, kind, payload)?;
    Ok((Tag { code, value }, later))
}

/// Returns the tags from `at` up to the end of the innermost list, and the bytes after them.
#[cycle(whole)]
fn members_at<'a>(
    rules: &Rules<'_>,
    around: &mut Containers,
    at: u64,
    bytes: &'a [u8],
) -> Result<(Tags, &'a [u8]), StreamError>
    requires within { at + length bytes.now ≤ rules.now.total }
    requires deep { length around.old ≤ 32 }
    ensures tells { MatchResult result
        (λ r. ReadsRest rules.now.table.now rules.now.top at around.old bytes.now (trees_of r.0) r.1.now)
        (λ e. RefusesRest rules.now.table.now rules.now.top rules.now.total at around.old bytes.now e) }
    ensures same { OnOk result (around.new ≡ around.old) }
{
    let mut members = Tags::new(rules.alloc);
    let mut here = at;
    let mut rest = bytes;
    while !around.ends_at(here) {
        if around.is_short(here) {
            return Err(StreamError::ShortHead { at: here });
        }
        match tag_at(rules, around, here, rest) {
            Ok((tag, later)) => {
                here += (rest.len() - later.len()) as u64;
                rest = later;
                members.push(tag)?;
            }
            Err(error) => return Err(error),
        }
    }
    Ok((members, rest))
}
