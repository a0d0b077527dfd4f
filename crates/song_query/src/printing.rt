//! Prints queries.

ghost use Rattle.std.specs.Prelude.{◌≡◌, ◌≤◌, ◌++◌, ◌∷◌, [], ℕ, List, true, map, length, OnOk, IfOk, string_bytes, Ok};
ghost use Rattle.item_model.specs.QueryTree.{QueryTree, queries_of};
ghost use Rattle.item_model.specs.QuerySeen.{tree_of};
ghost use Rattle.item_model.specs.Proper.{IsProper};
ghost use Rattle.song_query.specs.Answers.{Answers};
ghost use Rattle.song_query.specs.Grammar.{print_op};
ghost use Rattle.song_query.specs.Nesting.{deepest};
ghost use Rattle.song_query.specs.Printing.{is_before_mark, is_escaped, printed, printed_and, printed_and_more, printed_char, printed_cond, printed_member, printed_more, printed_or, printed_or_more, printed_piece, printed_pieces, printed_unit};
ghost use Rattle.song_query.specs.Reading.{QueryReads};

use dmap_tags::Text;
use item_model::{Cond, Op, Query};
use std::alloc::{AllocError, Global};

/// Returns the shortest text of a query, which is also one with the fewest parentheses open at once. If some text is
/// read as the query, this one is.
pub fn print(alloc: Global, query: &Query) -> Result<Text, AllocError>
    requires { IsProper query.now }
    ensures text { IfOk result (λ t. t ≡ printed (tree_of query.now)) }
    ensures reads { IfOk result (λ t. QueryReads t (tree_of query.now)) }
    ensures only { IfOk result (λ t. (other : QueryTree) → QueryReads t other
        → other ≡ tree_of query.now) }
    ensures least { IfOk result (λ t. (other : List ℕ) → QueryReads other (tree_of query.now)
        → length t ≤ length other) }
    ensures shallowest { IfOk result (λ t. (other : List ℕ) → QueryReads other (tree_of query.now)
        → deepest t ≤ deepest other) }
    ensures read_again { IfOk result (λ t. (other : List ℕ) → Answers other (Ok query.now)
        → Answers t (Ok query.now)) }
{
    let mut out = String::new(alloc);
    push_query(&mut out, query)?;
    let text = Text::of(alloc, out.as_str())?;
    Ok(text)
}

fn push_query(out: &mut String, query: &Query) -> Result<(), AllocError>
    ensures { OnOk result (string_bytes out.new
        ≡ string_bytes out.old ++ printed (tree_of query.now)) }
{
    match query {
        Query::Cond(cond) => push_cond(out, cond),
        Query::And(units) => push_and(out, units.as_slice()),
        Query::Or(members) => push_or(out, members.as_slice()),
    }
}

// Appends a unit of an `And`: lists are in parentheses.
#[cycle(push)]
fn push_unit(out: &mut String, query: &Query) -> Result<(), AllocError>
    ensures { OnOk result (string_bytes out.new
        ≡ string_bytes out.old ++ printed_unit (tree_of query.now)) }
{
    match query {
        Query::Cond(cond) => push_cond(out, cond),
        Query::And(units) => push_closed_and(out, units.as_slice()),
        Query::Or(members) => push_closed_or(out, members.as_slice()),
    }
}

// Appends a member of an `Or`: only an `Or` is in parentheses.
#[cycle(push)]
fn push_member(out: &mut String, query: &Query) -> Result<(), AllocError>
    ensures { OnOk result (string_bytes out.new
        ≡ string_bytes out.old ++ printed_member (tree_of query.now)) }
{
    match query {
        Query::Cond(cond) => push_cond(out, cond),
        Query::And(units) => push_and(out, units.as_slice()),
        Query::Or(members) => push_closed_or(out, members.as_slice()),
    }
}

// Appends units in parentheses.
#[cycle(push)]
fn push_closed_and(out: &mut String, units: &[Query]) -> Result<(), AllocError>
    ensures { OnOk result (string_bytes out.new
        ≡ string_bytes out.old ++ 40
        ∷ (printed_and (queries_of (map tree_of units.now)) ++ 41 ∷ [])) }
{
    out.push('(')?;
    push_and(out, units)?;
    out.push(')')
}

// Appends members in parentheses.
#[cycle(push)]
fn push_closed_or(out: &mut String, members: &[Query]) -> Result<(), AllocError>
    ensures { OnOk result (string_bytes out.new
        ≡ string_bytes out.old ++ 40
        ∷ (printed_or (queries_of (map tree_of members.now)) ++ 41 ∷ [])) }
{
    out.push('(')?;
    push_or(out, members)?;
    out.push(')')
}

#[cycle(push)]
#[tactic(auto, using(crate::proofs::Sizes::member_falls))]
fn push_and(out: &mut String, units: &[Query]) -> Result<(), AllocError>
    ensures { OnOk result (string_bytes out.new
        ≡ string_bytes out.old ++ printed_and (queries_of (map tree_of units.now))) }
{
    match units {
        [] => Ok(()),
        [first, others @ ..] => {
            push_unit(out, first)?;
            push_more_units(out, others)
        }
    }
}

#[cycle(push)]
#[tactic(auto, using(crate::proofs::Sizes::member_falls))]
fn push_more_units(out: &mut String, units: &[Query]) -> Result<(), AllocError>
    ensures { OnOk result (string_bytes out.new
        ≡ string_bytes out.old ++ printed_and_more (queries_of (map tree_of units.now))) }
{
    for unit in units {
        out.push(' ')?;
        push_unit(out, unit)?;
    }
    Ok(())
}

#[cycle(push)]
#[tactic(auto, using(crate::proofs::Sizes::member_falls))]
fn push_or(out: &mut String, members: &[Query]) -> Result<(), AllocError>
    ensures { OnOk result (string_bytes out.new
        ≡ string_bytes out.old ++ printed_or (queries_of (map tree_of members.now))) }
{
    match members {
        [] => Ok(()),
        [first, others @ ..] => {
            push_member(out, first)?;
            push_more_members(out, others)
        }
    }
}

#[cycle(push)]
#[tactic(auto, using(crate::proofs::Sizes::member_falls))]
fn push_more_members(out: &mut String, members: &[Query]) -> Result<(), AllocError>
    ensures { OnOk result (string_bytes out.new
        ≡ string_bytes out.old ++ printed_or_more (queries_of (map tree_of members.now))) }
{
    for member in members {
        out.push(',')?;
        push_member(out, member)?;
    }
    Ok(())
}

fn push_cond(out: &mut String, cond: &Cond) -> Result<(), AllocError>
    ensures { OnOk result (string_bytes out.new ≡ string_bytes out.old ++ printed_cond cond.now) }
{
    out.push('\'')?;
    out.push_str(cond.name.as_str())?;
    out.push_str(op_text(cond.op))?;
    push_pieces(out, cond.pattern.pieces())?;
    out.push('\'')
}

fn op_text(op: Op) -> &'static str
    ensures { result.now ≡ print_op op }
{
    match op {
        Op::Is => ":",
        Op::IsNot => "!:",
        Op::Less => "<:",
        Op::More => ">:",
    }
}

// Appends the parts, with a wildcard between each two.
fn push_pieces(out: &mut String, pieces: &[Text]) -> Result<(), AllocError>
    ensures { OnOk result (string_bytes out.new
        ≡ string_bytes out.old ++ printed_pieces pieces.now) }
{
    match pieces {
        [] => Ok(()),
        [first, others @ ..] => {
            push_piece(out, first.as_str())?;
            push_more_pieces(out, others)
        }
    }
}

fn push_more_pieces(out: &mut String, pieces: &[Text]) -> Result<(), AllocError>
    ensures { OnOk result (string_bytes out.new ≡ string_bytes out.old ++ printed_more pieces.now) }
{
    for piece in pieces {
        out.push('*')?;
        push_piece(out, piece.as_str())?;
    }
    Ok(())
}

fn push_piece(out: &mut String, piece: &str) -> Result<(), AllocError>
    ensures { OnOk result (string_bytes out.new ≡ string_bytes out.old ++ printed_piece piece.now) }
{
    let mut rest = piece.chars();
    while let Some(c) = rest.next() {
        push_char(out, c, rest.as_str())?;
    }
    Ok(())
}

// Appends a character of a part. `rest` is what follows it in the part.
fn push_char(out: &mut String, c: char, rest: &str) -> Result<(), AllocError>
    ensures { OnOk result (string_bytes out.new ≡ string_bytes out.old ++ printed_char c rest.now) }
{
    if is_escaped(c, rest) {
        out.push('\\')?;
        return out.push(c);
    }
    out.push(c)
}

// Returns whether a character of a part needs a backslash. A backslash does if it would otherwise escape what
// follows.
fn is_escaped(c: char, rest: &str) -> bool
    ensures { result ≡ is_escaped c rest.now }
{
    (c == '\'' || c == '*') || (c == '\\' && is_before_mark(rest.as_bytes()))
}

fn is_before_mark(rest: &[u8]) -> bool
    ensures { result ≡ is_before_mark rest.now }
{
    match rest {
        [] => true,
        [c, ..] => *c == b'\'' || (*c == b'\\' || *c == b'*'),
    }
}
