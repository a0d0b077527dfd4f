//! Rows and changes, merged in ascending order of their ids.

ghost use Rattle.std.specs.Prelude.{◌≡◌, ◌≤◌, ◌∷◌, ◌++◌, [], ℕ, List, Option, take, drop, length, IfOk, OnOk};
ghost use Rattle.item_model.specs.declared.item.Row.{Row};
ghost use Rattle.share_history.specs.Keyed.{IsAscending};
ghost use Rattle.row_sheets.specs.Sheets.{by_id};
ghost use Rattle.row_sheets.specs.Changes.{changed, new_rows, own_rows, AreChanges};
ghost use Rattle.row_sheets.specs.Turns.{AreUnder, AreAbove, IsTurned, AreTurned};

use item_model::SharedRow;
use std::alloc::{AllocError, Global};

// The new row of an id, or none if it is dropped.
pub(crate) type Change = (u32, Option<SharedRow>);

// How many of the first changes are of ids below a bound.
pub(crate) fn count_below(changes: &[Change], bound: u64) -> usize
    ensures within { result ≤ length changes.now }
    ensures under { AreUnder bound (take result changes.now) }
    ensures above { IsAscending changes.now → AreAbove bound (drop result changes.now) }
{
    for (index, change) in changes.iter().enumerate() {
        if bound <= u64::from(change.0) {
            return index;
        }
    }
    changes.len()
}

// The rows after the changes.
pub(crate) fn merged(
    alloc: Global,
    rows: &[SharedRow],
    changes: &[Change],
) -> Result<Vec<SharedRow>, AllocError>
    ensures { IfOk result (λ merged. AreChanges changes.now → IsAscending (by_id rows.now)
        → AreTurned (changed changes.now (by_id rows.now)) (by_id merged.items)) }
{
    let mut merged = Vec::with_capacity(alloc, rows.len().saturating_add(changes.len()))?;
    let mut next = 0;
    for row in rows {
        let (_, left) = changes.split_at(next);
        next += push_turned(&mut merged, row, left)?;
    }
    let (_, left) = changes.split_at(next);
    push_new(&mut merged, left)?;
    Ok(merged)
}

// Puts the new rows of the changes of ids up to the row's, and the row, if it does not change. Returns how many changes
// these are.
fn push_turned(
    merged: &mut Vec<SharedRow>,
    row: &SharedRow,
    changes: &[Change],
) -> Result<usize, AllocError>
    ensures within { IfOk result (λ count. count ≤ length changes.now) }
    ensures turned { IfOk result (λ count. (wanted : ℕ → Option Row) (rest : List (ℕ × Row))
        → IsTurned wanted (by_id merged.old.items) changes.now ((row.now.id, row.now) ∷ rest)
        → IsTurned wanted (by_id merged.new.items) (drop count changes.now) rest) }
{
    let id = u64::from(row.row().id);
    let (below, from) = changes.split_at(count_below(changes, id));
    let (own, _) = from.split_at(count_below(from, id + 1));
    push_new(merged, below)?;
    push_own(merged, row, own)?;
    Ok(below.len() + own.len())
}

// Puts the new rows of changes.
fn push_new(merged: &mut Vec<SharedRow>, changes: &[Change]) -> Result<(), AllocError>
    ensures { OnOk result (merged.new.items ≡ merged.old.items ++ new_rows changes.now) }
{
    for change in changes {
        push_if_new(merged, change)?;
    }
    Ok(())
}

fn push_if_new(merged: &mut Vec<SharedRow>, change: &Change) -> Result<(), AllocError>
    ensures { OnOk result (merged.new.items ≡ merged.old.items ++ new_rows (change.now ∷ [])) }
{
    match &change.1 {
        Some(row) => push_shared(merged, row),
        None => Ok(()),
    }
}

// Puts what the changes of a row's id leave of it.
fn push_own(merged: &mut Vec<SharedRow>, row: &SharedRow, own: &[Change]) -> Result<(), AllocError>
    ensures { OnOk result (merged.new.items ≡ merged.old.items ++ own_rows row.now own.now) }
{
    if own.is_empty() {
        return push_shared(merged, row);
    }
    push_new(merged, own)
}

fn push_shared(merged: &mut Vec<SharedRow>, row: &SharedRow) -> Result<(), AllocError>
    ensures { OnOk result (merged.new.items ≡ merged.old.items ++ row.now ∷ []) }
{
    let row = row.share()?;
    merged.push(row)?;
    Ok(())
}
