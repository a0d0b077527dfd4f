//! The rows that a plan lists.

ghost use Rattle.std.specs.Prelude.{◌≡◌, ◌≤◌, ◌*◌, length, map};
ghost use Rattle.dmap_tags.specs.Spelling.{spellings};
ghost use Rattle.dmap_tags.specs.Tree.{trees_of};
ghost use Rattle.item_model.specs.declared.request.Meta.{Meta};
ghost use Rattle.item_model.specs.declared.request.Target.{Target};
ghost use Rattle.item_model.specs.Projection.{asked};
ghost use Rattle.share_history.specs.Listings.{shown_rows};
ghost use Rattle.listing_plan.specs.Held.{IsCounted, listed_rows, plan_row, row_trees, rows_held, rows_length};
ghost use Rattle.listing_plan.specs.Limits.{row_limit, rows_limit};
ghost use Rattle.listing_plan.specs.Pages.{Pushes};

use crate::lengths::rows_len;
use crate::page::Page;
use crate::row::PlanRow;
use crate::rows::push_rows;
use crate::sheets::{push_sheets, sheets_len};
use item_model::{ShownProperties, Target};
use outside_net::{Failed, Sink};
use row_sheets::RowSheets;

/// Rows in the order in which a listing has them.
#[derive(Drop)]
pub(crate) enum Listed {
    /// One by one, with the length of their tags.
    Each { rows: Vec<PlanRow>, len: u64 },
    /// On sheets, whose tags are not measured yet.
    Sheets(RowSheets),
}

impl Listed {
    /// Rows that come one by one. It measures each.
    pub(crate) fn each(rows: Vec<PlanRow>, shown: &ShownProperties) -> Listed
        requires { length rows.items ≤ rows_limit }
        ensures rows { (target : Target) → listed_rows target result ≡ rows.items }
        ensures counted { IsCounted shown.now result }
    {
        Listed::Each {
            len: rows_len(rows.as_slice(), shown),
            rows,
        }
    }

    /// How many rows there are.
    pub(crate) fn count(&self) -> u32
        requires { (target : Target) × (length (listed_rows target self.now) ≤ rows_limit) }
        ensures { (target : Target) → result ≡ length (listed_rows target self.now) }
    {
        match self {
            Listed::Each { rows, .. } => rows.as_slice().len() as u32,
            Listed::Sheets(rows) => rows.len(),
        }
    }

    /// Returns the length of the tags of the rows. It measures rows on sheets here, so that no turn pays for it.
    pub(crate) fn bytes_len(&self, target: Target, shown: &ShownProperties) -> u64
        requires few { length (listed_rows target self.now) ≤ rows_limit }
        requires counted { IsCounted shown.now self.now }
        ensures counted { result ≡ rows_length shown.now (listed_rows target self.now) }
        ensures short { result ≤ row_limit * rows_limit }
    {
        match self {
            Listed::Each { len, .. } => *len,
            Listed::Sheets(rows) => sheets_len(rows, target, shown.as_slice()),
        }
    }

    /// Pushes the tags of the rows.
    pub(crate) fn push<W: Sink, const N: usize>(
        &self,
        page: &mut Page<N>,
        sink: &mut W,
        target: Target,
        shown: &ShownProperties,
    ) -> Result<(), Failed>
        requires { row_limit ≤ N }
        ensures pushes { Pushes (spellings
            (trees_of (row_trees shown.now (listed_rows target self.now)))) result
            (W.taken sink.old) (W.taken sink.new) page.old page.new (W.faults sink.old)
            (W.faults sink.new) }
        ensures beside { W.beside_taken sink.new ≡ W.beside_taken sink.old }
    {
        match self {
            Listed::Each { rows, .. } => push_rows(page, sink, rows.as_slice(), shown.as_slice()),
            Listed::Sheets(rows) => push_sheets(page, sink, rows, target, shown.as_slice()),
        }
    }
}

/// Does nothing: it states that a listing has each row of the sheets under its id.
pub(crate) fn own_ids(rows: &RowSheets)
    ensures { (target : Target) (meta : Meta)
        → rows_held (asked meta) (map (plan_row target) rows.now)
        ≡ shown_rows target meta rows.now }
{
    let _sheets = rows.sheets();
}
