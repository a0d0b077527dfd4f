//! The edits for changes.

ghost use Rattle.std.specs.Prelude.{◌≡◌, ◌++◌, ◌∷◌, [], IfOk, OnOk, map};
ghost use Rattle.item_model.specs.declared.changes.Edit.TheVariants.{PutItem, DropItem};
ghost use Rattle.relayed_rows.specs.Differences.{has_row, new_rows, drops_and_puts};
ghost use Rattle.relayed_rows.specs.Changes.{rows_in, dropped_ids, fresh_rows};

use crate::changes::{Changes, Rows};
use item_model::{Edit, Edits, PROPERTIES, SharedRow, is_shown_alike};
use std::alloc::{AllocError, Global};

/// Returns the held ids that the changes drop, ascending.
pub(crate) fn dropped_ids(
    alloc: Global,
    held: &Rows,
    changes: &Changes,
) -> Result<Vec<u32>, AllocError>
    ensures { IfOk result (λ ids. ids.items ≡ dropped_ids held.now.entries changes.now.entries) }
{
    let mut ids = Vec::new(alloc);
    for (id, change) in changes {
        if change.is_none() && held.contains_key(id) {
            ids.push(*id)?;
        }
    }
    Ok(ids)
}

/// Returns the rows that the changes put and that are not held unchanged, ascending.
pub(crate) fn new_rows(
    alloc: Global,
    held: &Rows,
    changes: &Changes,
) -> Result<Vec<(u32, SharedRow)>, AllocError>
    ensures { IfOk result (λ rows. rows.items
        ≡ new_rows held.now.entries (rows_in changes.now.entries)) }
{
    let mut rows = Vec::new(alloc);
    for (id, change) in changes {
        push_new(&mut rows, held, *id, change)?;
    }
    Ok(rows)
}

// Pushes the row of a change, unless it is held unchanged.
fn push_new(
    rows: &mut Vec<(u32, SharedRow)>,
    held: &Rows,
    id: u32,
    change: &Option<SharedRow>,
) -> Result<(), AllocError>
    ensures { OnOk result (rows.new.items
        ≡ rows.old.items ++ new_rows held.now.entries (rows_in ((id, change.now) ∷ []))) }
{
    let Some(row) = change else {
        return Ok(());
    };
    if !has_row(held, id, row) {
        rows.push((id, row.share()?))?;
    }
    Ok(())
}

fn has_row(held: &Rows, id: u32, row: &SharedRow) -> bool
    ensures { result ≡ has_row held.now.entries (id, row.now) }
{
    match held.get(&id) {
        Some(old) => is_shown_alike(old.row(), row.row(), &PROPERTIES),
        None => false,
    }
}

/// Returns the rows whose ids are not held.
pub(crate) fn fresh_rows(
    alloc: Global,
    held: &Rows,
    rows: &[(u32, SharedRow)],
) -> Result<Vec<(u32, SharedRow)>, AllocError>
    ensures { IfOk result (λ fresh. fresh.items ≡ fresh_rows held.now.entries rows.now) }
{
    let mut fresh = Vec::new(alloc);
    for (id, row) in rows {
        if !held.contains_key(id) {
            fresh.push((*id, row.share()?))?;
        }
    }
    Ok(fresh)
}

/// Returns the edits that drop `ids` and then put `rows`, which they share.
pub(crate) fn drops_and_puts(
    alloc: Global,
    ids: &[u32],
    rows: &[(u32, SharedRow)],
) -> Result<Edits, AllocError>
    ensures { IfOk result (λ edits. edits ≡ drops_and_puts ids.now rows.now) }
{
    let mut edits = Edits::new(alloc);
    push_drops(&mut edits, ids)?;
    push_puts(&mut edits, rows)?;
    Ok(edits)
}

fn push_drops(edits: &mut Edits, ids: &[u32]) -> Result<(), AllocError>
    ensures { OnOk result (edits.new ≡ edits.old ++ map (λ id. DropItem id) ids.now) }
{
    for id in ids {
        edits.push(Edit::DropItem { id: *id })?;
    }
    Ok(())
}

fn push_puts(edits: &mut Edits, rows: &[(u32, SharedRow)]) -> Result<(), AllocError>
    ensures { OnOk result (edits.new ≡ edits.old ++ map (λ e. PutItem e.1) rows.now) }
{
    for (_, row) in rows {
        edits.push(Edit::PutItem { row: row.share()? })?;
    }
    Ok(())
}
