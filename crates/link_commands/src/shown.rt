//! What `follow` writes: a line for each round, and the rows that the mirror holds at the end.

ghost use Rattle.std.specs.Prelude.{◌≡◌, ◌<◌, ◌++◌, ◌∷◌, [], ℕ, length, map, slice_get, Some, IfOk, OnOk};
ghost use Rattle.dmap_tags.specs.Codes.{code};
ghost use Rattle.dmap_tags.specs.Tree.{Tree, list, trees_of};
ghost use Rattle.link_commands.specs.RoundLines.{form_word, round_line, shown_rows};

use dmap_show::show;
use dmap_tags::{Code, Tag, Tags, Text, Value};
use fault_lines::push_number;
use mirror_core::{Applied, Mirror};
use std::alloc::{AllocError, Global};

/// Returns the line of a round.
pub(crate) fn round_line(alloc: Global, done: Applied) -> Result<Vec<u8>, AllocError>
    ensures { IfOk result (λ line. line.items ≡ round_line done) }
{
    let mut line = Vec::new(alloc);
    push_number(&mut line, b"revision ", u64::from(done.revision))?;
    line.extend_from_slice(form_word(done.delta))?;
    push_number(&mut line, b" put ", done.put)?;
    push_number(&mut line, b" drop ", done.dropped)?;
    push_number(&mut line, b" rows ", done.rows)?;
    line.push(b'\n')?;
    Ok(line)
}

fn form_word(delta: bool) -> &'static [u8]
    ensures { result.now ≡ form_word delta }
{
    if delta { b" delta" } else { b" full" }
}

/// Returns the rows that `mirror` holds, shown as one listing.
pub(crate) fn shown_rows(alloc: Global, mirror: &Mirror) -> Result<Text, AllocError>
    ensures { IfOk result (λ text. text ≡ shown_rows mirror.now.held.rows) }
{
    let listing = [rows_tag(alloc, mirror)?];
    show(alloc, &listing)
}

fn rows_tag(alloc: Global, mirror: &Mirror) -> Result<Tag, AllocError>
    ensures { IfOk result (λ tag. tag
        ≡ list (code "mlcl") (trees_of (map (λ row. row.1) mirror.now.held.rows))) }
{
    let mut rows = Tags::new(alloc);
    for n in 0..mirror.len() {
        push_row(&mut rows, mirror, n)?;
    }
    Ok(Tag {
        code: Code(*b"mlcl"),
        value: Value::List(rows),
    })
}

// Appends the tag of row `n`.
fn push_row(rows: &mut Tags, mirror: &Mirror, n: u64) -> Result<(), AllocError>
    requires { n < length mirror.now.held.rows }
    ensures { OnOk result ((row : ℕ × Tree) × (slice_get mirror.now.held.rows n ≡ Some row)
        × (rows.new ≡ rows.old ++ row.1 ∷ [])) }
{
    match mirror.row(n) {
        Some((_, row)) => rows.push(row.copy()?),
        None => unreachable!(),
    }
}
