//! Rows from sheets.

ghost use Rattle.std.specs.Prelude.{◌≡◌, ◌≤◌, ◌<◌, ◌+◌, ◌++◌, ◌∷◌, [], All as AllOf, length, take, drop, filter, map, option_copied, IfOk, OnOk};
ghost use Rattle.listing_plan.specs.Plans.{key_of, keyed};
ghost use Rattle.row_sheets.specs.Sheets.{by_id};
ghost use Rattle.share_history.specs.Listings.{member_of};
ghost use Rattle.share_history.specs.Rows.{is_selected};
ghost use Rattle.share_listings.specs.SheetRows.{sheet_row};

use crate::asked::{is_selected, member_of};
use crate::ranges::Window;
use crate::sheet_row::SheetRow;
use item_model::{Query, SharedRow, Target};
use listing_plan::PlanRow;
use row_sheets::{RowSheets, Sheet};
use song_query::Steps;
use std::alloc::{AllocError, Global};
use std::sync::ledger::Ledger;

/// Returns the rows in a window. It passes sheets before the window by their number of rows, and stops after it.
pub(crate) fn rows_within(
    alloc: Global,
    rows: &RowSheets,
    target: Target,
    window: Window,
) -> Result<Vec<PlanRow>, AllocError>
    ensures rows { IfOk result (λ found. keyed found.items
        ≡ drop window.from (take window.to rows.now)) }
    ensures members { IfOk result
        (λ found. AllOf (λ row. row.member ≡ member_of target (key_of row)) found.items) }
{
    let sheets = rows.sheets();
    let mut found = Vec::new(alloc);
    let mut left = window;
    for sheet in sheets {
        if left.to == 0 {
            return Ok(found);
        }
        let on_sheet = sheet.rows();
        push_within(&mut found, target, on_sheet, left)?;
        left = left.past(on_sheet.len());
    }
    Ok(found)
}

/// Returns the rows that a query selects, in order.
pub(crate) fn rows_asked<L: Ledger>(
    alloc: Global,
    rows: &RowSheets,
    target: Target,
    query: Option<&Query>,
    steps: &mut Steps<L>,
) -> Result<Vec<PlanRow>, AllocError>
    ensures rows { IfOk result (λ found. keyed found.items
        ≡ filter (λ row. is_selected (option_copied query.entry) row.1) rows.now) }
    ensures members { IfOk result
        (λ found. AllOf (λ row. row.member ≡ member_of target (key_of row)) found.items) }
    ensures cost { steps.new ≤ steps.old + length rows.now }
{
    let sheets = rows.sheets();
    let mut found = Vec::new(alloc);
    for sheet in sheets {
        push_asked(&mut found, target, sheet, query, steps)?;
    }
    Ok(found)
}

// Adds those of some rows that are in a window.
fn push_within(
    found: &mut Vec<PlanRow>,
    target: Target,
    rows: &[SharedRow],
    window: Window,
) -> Result<(), AllocError>
    ensures rows { OnOk result (keyed found.new.items
        ≡ keyed found.old.items ++ drop window.from (take window.to (by_id rows.now))) }
    ensures members { AllOf (λ row. row.member ≡ member_of target (key_of row)) found.old.items
        → AllOf (λ row. row.member ≡ member_of target (key_of row)) found.new.items }
{
    let part = window.of(rows);
    for row in part {
        push(found, target, row)?;
    }
    Ok(())
}

// Adds those rows of a sheet that a query selects.
fn push_asked<L: Ledger>(
    found: &mut Vec<PlanRow>,
    target: Target,
    sheet: &Sheet,
    query: Option<&Query>,
    steps: &mut Steps<L>,
) -> Result<(), AllocError>
    ensures rows { OnOk result (keyed found.new.items
        ≡ keyed found.old.items ++ filter (λ row. is_selected (option_copied query.entry) row.1)
        (by_id sheet.now.rows)) }
    ensures members { AllOf (λ row. row.member ≡ member_of target (key_of row)) found.old.items
        → AllOf (λ row. row.member ≡ member_of target (key_of row)) found.new.items }
    ensures cost { steps.new ≤ steps.old + length sheet.now.rows }
{
    let count = sheet.rows().len();
    for index in 0..count {
        push_if_asked(found, target, sheet, index, query, steps)?;
    }
    Ok(())
}

// Adds the row at an index of a sheet, if a query selects it. The query is evaluated on the tags of the sheet.
fn push_if_asked<L: Ledger>(
    found: &mut Vec<PlanRow>,
    target: Target,
    sheet: &Sheet,
    index: usize,
    query: Option<&Query>,
    steps: &mut Steps<L>,
) -> Result<(), AllocError>
    requires { index < length sheet.now.rows }
    ensures rows { OnOk result (keyed found.new.items ≡ keyed found.old.items
        ++ filter (λ row. is_selected (option_copied query.entry) row.1) (by_id (sheet_row sheet.now index ∷ []))) }
    ensures members { AllOf (λ row. row.member ≡ member_of target (key_of row)) found.old.items
        → AllOf (λ row. row.member ≡ member_of target (key_of row)) found.new.items }
    ensures cost { steps.new ≤ steps.old + 1 }
{
    let row = SheetRow::at(sheet, index);
    if is_selected(query, &row, steps) {
        push(found, target, row.shared())?;
    }
    Ok(())
}

// Adds a row under its id.
fn push(found: &mut Vec<PlanRow>, target: Target, row: &SharedRow) -> Result<(), AllocError>
    ensures rows { OnOk result (keyed found.new.items
        ≡ keyed found.old.items ++ (row.now.id, row.now) ∷ []) }
    ensures members { AllOf (λ row. row.member ≡ member_of target (key_of row)) found.old.items
        → AllOf (λ row. row.member ≡ member_of target (key_of row)) found.new.items }
{
    let member = member_of(target, row.row().id);
    let row = row.share()?;
    found.push(PlanRow { member, row })?;
    Ok(())
}
