//! The tags of rows on sheets. The runs of what a listing shows are found once for each sheet.

ghost use Rattle.std.specs.Prelude.{◌≡◌, ◌≤◌, ◌<◌, ◌+◌, ◌*◌, ◌++◌, length, drop, map, All};
ghost use Rattle.std.specs.List.{sum_by};
ghost use Rattle.dmap_tags.specs.Spelling.{spellings};
ghost use Rattle.dmap_tags.specs.Tree.{trees_of};
ghost use Rattle.item_model.specs.declared.request.Target.{Target};
ghost use Rattle.item_model.specs.Projection.{first_mentions};
ghost use Rattle.row_sheets.specs.Cells.{column_length, HasNoOther, HasValues};
ghost use Rattle.listing_plan.specs.Held.{plan_row, sheet_bytes, row_trees, rows_length};
ghost use Rattle.listing_plan.specs.Limits.{row_limit, rows_limit, shown_limit};
ghost use Rattle.listing_plan.specs.Pages.{Pushes};
ghost use Rattle.listing_plan.specs.Runs.{AreRuns, IsSheetRow, front_length, sheet_row_tag};

use crate::page::Page;
use crate::runs::{Run, Runs};
use crate::sheet_row::{SheetRow, fronts_len};
use item_model::{Property, Target};
use outside_net::{Failed, Sink};
use row_sheets::{RowSheets, Sheet, index_of};

/// Returns the length of the tags of all rows.
pub(crate) fn sheets_len(rows: &RowSheets, target: Target, asked: &[Property]) -> u64
    requires few { length rows.now ≤ rows_limit }
    requires once { first_mentions asked.now ≡ asked.now }
    ensures counted { result ≡ rows_length asked.now (map (plan_row target) rows.now) }
    ensures short { result ≤ row_limit * rows_limit }
{
    let mut len = 0;
    for sheet in rows.sheets() {
        len += sheet_len(sheet, target, asked);
    }
    len
}

fn sheet_len(sheet: &Sheet, target: Target, asked: &[Property]) -> u64
    requires few { length sheet.now.rows ≤ rows_limit }
    requires once { first_mentions asked.now ≡ asked.now }
    ensures counted { result ≡ length (sheet_bytes target asked.now sheet.now.rows) }
    ensures short { result ≤ row_limit * length sheet.now.rows }
{
    let rows = sheet.rows();
    fronts_len(target, rows.len() as u64) + columns_len(sheet, asked)
}

// The length of the tags that all rows of a sheet have of what is asked for. The sheet keeps that of each property.
fn columns_len(sheet: &Sheet, asked: &[Property]) -> u64
    requires few { length sheet.now.rows ≤ rows_limit }
    requires values { All HasValues sheet.now.rows }
    requires once { first_mentions asked.now ≡ asked.now }
    ensures counted { result ≡ sum_by (column_length sheet.now.rows) asked.now }
    ensures short { result ≤ shown_limit * length sheet.now.rows }
{
    let mut len = 0;
    for property in asked {
        len += column_len(sheet, *property);
    }
    len
}

fn column_len(sheet: &Sheet, property: Property) -> u64
    ensures { result ≡ column_length sheet.now.rows property }
{
    let properties = sheet.properties();
    match index_of(properties, property) {
        Some(index) => sheet.column_len(index),
        None => 0,
    }
}

/// Pushes the tags of all rows.
pub(crate) fn push_sheets<W: Sink, const N: usize>(
    page: &mut Page<N>,
    sink: &mut W,
    rows: &RowSheets,
    target: Target,
    asked: &[Property],
) -> Result<(), Failed>
    requires wide { row_limit ≤ N }
    requires once { first_mentions asked.now ≡ asked.now }
    ensures pushes { Pushes (spellings
        (trees_of (row_trees asked.now (map (plan_row target) rows.now)))) result (W.taken sink.old)
        (W.taken sink.new) page.old page.new (W.faults sink.old) (W.faults sink.new) }
    ensures beside { W.beside_taken sink.new ≡ W.beside_taken sink.old }
{
    for sheet in rows.sheets() {
        push_sheet(page, sink, sheet, target, asked)?;
    }
    Ok(())
}

fn push_sheet<W: Sink, const N: usize>(
    page: &mut Page<N>,
    sink: &mut W,
    sheet: &Sheet,
    target: Target,
    asked: &[Property],
) -> Result<(), Failed>
    requires wide { row_limit ≤ N }
    requires once { first_mentions asked.now ≡ asked.now }
    ensures pushes { Pushes (sheet_bytes target asked.now sheet.now.rows) result (W.taken sink.old)
        (W.taken sink.new) page.old page.new (W.faults sink.old) (W.faults sink.new) }
    ensures beside { W.beside_taken sink.new ≡ W.beside_taken sink.old }
{
    let rows = sheet.rows();
    let runs = Runs::of(sheet.properties(), asked);
    for index in 0..rows.len() {
        let row = row_at(sheet, index, runs.as_slice(), asked);
        row.push(page, sink, target)?;
    }
    Ok(())
}

// The row at an index of its sheet. The runs have what is asked for.
fn row_at<'a>(sheet: &'a Sheet, index: usize, runs: &'a [Run], asked: &[Property]) -> SheetRow<'a>
    requires index { index < length sheet.now.rows }
    requires once { first_mentions asked.now ≡ asked.now }
    requires runs { AreRuns sheet.now.properties asked.now runs.now }
    requires others { All (HasNoOther sheet.now.properties) sheet.now.rows }
    ensures row { IsSheetRow result }
    ensures next { (target : Target)
        → sheet_bytes target asked.now (drop index sheet.now.rows)
        ≡ sheet_row_tag target result ++ sheet_bytes target asked.now
        (drop (index + 1) sheet.now.rows) }
{
    let rows = sheet.rows();
    let ids = sheet.ids();
    SheetRow {
        sheet,
        index,
        id: ids[index],
        shared: &rows[index],
        runs,
    }
}
