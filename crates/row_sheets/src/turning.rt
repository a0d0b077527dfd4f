//! Sheets after changes: those that no change touches are shared, and the others are made anew.

ghost use Rattle.std.specs.Prelude.{◌≡◌, ◌≤◌, ◌<◌, ◌+◌, ◌++◌, ◌∷◌, [], ℕ, List, Option, drop, length, IfOk, OnOk};
ghost use Rattle.item_model.specs.declared.item.Row.{Row};
ghost use Rattle.share_history.specs.Keyed.{IsAscending};
ghost use Rattle.row_sheets.specs.Sheets.{by_id, rows_on, rows_in};
ghost use Rattle.row_sheets.specs.Changes.{changed, AreChanges};
ghost use Rattle.row_sheets.specs.Turns.{IsTurned, AreTurned};

use crate::merging::{Change, count_below, merged};
use crate::sheet::Sheet;
use item_model::SharedRow;
use std::alloc::{AllocError, Global};
use std::mem;
use std::sync::Arc;

// How many rows a new sheet has at most.
const SHEET_ROWS: usize = 64;

// The sheets after the changes.
pub(crate) fn turned(
    alloc: Global,
    sheets: &[Arc<Sheet, Global>],
    changes: &[Change],
) -> Result<Vec<Arc<Sheet, Global>>, AllocError>
    requires changes { AreChanges changes.now }
    requires rows { IsAscending (by_id (rows_in sheets.now)) }
    ensures { IfOk result (λ turned. AreTurned (changed changes.now (by_id (rows_in sheets.now)))
        (by_id (rows_in turned.items))) }
{
    let mut turned = Vec::with_capacity(alloc, sheets.len().saturating_add(1))?;
    let Some((last, front)) = sheets.split_last() else {
        let rows = merged(alloc, &[], changes)?;
        push_cut(alloc, &mut turned, rows, SHEET_ROWS)?;
        return Ok(turned);
    };
    let next = turn_all(alloc, &mut turned, front, changes)?;
    let (_, left) = changes.split_at(next);
    turn_last(alloc, &mut turned, last, left)?;
    Ok(turned)
}

// Turns sheets that others follow, and returns how many of the changes it used.
fn turn_all(
    alloc: Global,
    turned: &mut Vec<Arc<Sheet, Global>>,
    sheets: &[Arc<Sheet, Global>],
    changes: &[Change],
) -> Result<usize, AllocError>
    ensures within { IfOk result (λ count. count ≤ length changes.now) }
    ensures turned { IfOk result (λ count. (wanted : ℕ → Option Row) (rest : List (ℕ × Row))
        → IsTurned wanted (by_id (rows_in turned.old.items)) changes.now
        (by_id (rows_in sheets.now) ++ rest)
        → IsTurned wanted (by_id (rows_in turned.new.items)) (drop count changes.now) rest) }
{
    let mut next = 0;
    for sheet in sheets {
        let (_, left) = changes.split_at(next);
        next += turn(alloc, turned, sheet, left)?;
    }
    Ok(next)
}

// Turns a sheet that others follow: the changes of ids up to its last one are its own.
fn turn(
    alloc: Global,
    turned: &mut Vec<Arc<Sheet, Global>>,
    sheet: &Arc<Sheet, Global>,
    changes: &[Change],
) -> Result<usize, AllocError>
    ensures within { IfOk result (λ count. count ≤ length changes.now) }
    ensures turned { IfOk result (λ count. (wanted : ℕ → Option Row) (rest : List (ℕ × Row))
        → IsTurned wanted (by_id (rows_in turned.old.items)) changes.now
        (by_id (rows_on sheet.now) ++ rest)
        → IsTurned wanted (by_id (rows_in turned.new.items)) (drop count changes.now) rest) }
{
    let count = count_below(changes, u64::from(sheet.last()) + 1);
    if count == 0 {
        turned.push(Arc::try_clone(sheet)?)?;
        return Ok(0);
    }
    let (own, _) = changes.split_at(count);
    let rows = merged(alloc, sheet.rows(), own)?;
    let size = even_size(rows.len());
    push_cut(alloc, turned, rows, size)?;
    Ok(count)
}

// Turns the last sheet: all changes that are left are its own.
fn turn_last(
    alloc: Global,
    turned: &mut Vec<Arc<Sheet, Global>>,
    sheet: &Arc<Sheet, Global>,
    changes: &[Change],
) -> Result<(), AllocError>
    ensures { OnOk result ((wanted : ℕ → Option Row)
        → IsTurned wanted (by_id (rows_in turned.old.items)) changes.now (by_id (rows_on sheet.now))
        → AreTurned wanted (by_id (rows_in turned.new.items))) }
{
    if changes.is_empty() {
        turned.push(Arc::try_clone(sheet)?)?;
        return Ok(());
    }
    let rows = merged(alloc, sheet.rows(), changes)?;
    push_cut(alloc, turned, rows, SHEET_ROWS)?;
    Ok(())
}

// Puts rows on new sheets of `size` rows each, and of fewer on the last one.
fn push_cut(
    alloc: Global,
    turned: &mut Vec<Arc<Sheet, Global>>,
    rows: Vec<SharedRow>,
    size: usize,
) -> Result<(), AllocError>
    ensures { OnOk result (rows_in turned.new.items ≡ rows_in turned.old.items ++ rows.items) }
{
    let mut part = Vec::new(alloc);
    for row in rows {
        push_row(alloc, turned, &mut part, row, size)?;
    }
    if part.is_empty() {
        return Ok(());
    }
    push_sheet(alloc, turned, part)
}

// Puts a row after those of a part, which becomes a sheet when it is full.
fn push_row(
    alloc: Global,
    turned: &mut Vec<Arc<Sheet, Global>>,
    part: &mut Vec<SharedRow>,
    row: SharedRow,
    size: usize,
) -> Result<(), AllocError>
    ensures { OnOk result (rows_in turned.new.items ++ part.new.items
        ≡ (rows_in turned.old.items ++ part.old.items) ++ row ∷ []) }
{
    part.push(row)?;
    if part.len() < size {
        return Ok(());
    }
    push_sheet(alloc, turned, mem::replace(part, Vec::new(alloc)))
}

fn push_sheet(
    alloc: Global,
    turned: &mut Vec<Arc<Sheet, Global>>,
    rows: Vec<SharedRow>,
) -> Result<(), AllocError>
    requires { 0 < length rows.items }
    ensures { OnOk result (rows_in turned.new.items ≡ rows_in turned.old.items ++ rows.items) }
{
    let sheet = Sheet::of(alloc, rows)?;
    match Arc::new(alloc, sheet) {
        Ok(sheet) => {
            turned.push(sheet)?;
            Ok(())
        }
        Err(_) => Err(AllocError),
    }
}

// How many rows each sheet has if they are spread evenly.
fn even_size(rows: usize) -> usize {
    rows.div_ceil(rows.div_ceil(SHEET_ROWS).max(1))
}

// How many rows there are.
pub(crate) fn count(sheets: &[Arc<Sheet, Global>]) -> Result<u32, AllocError>
    ensures { IfOk result (λ count. count ≡ length (rows_in sheets.now)) }
{
    let mut count: u32 = 0;
    for sheet in sheets {
        count = plus(count, sheet.rows().len())?;
    }
    Ok(count)
}

pub(crate) fn plus(count: u32, more: usize) -> Result<u32, AllocError>
    ensures { IfOk result (λ sum. sum ≡ count + more) }
{
    match u32::try_from(more) {
        Ok(more) => count.checked_add(more).ok_or(AllocError),
        Err(_) => Err(AllocError),
    }
}
