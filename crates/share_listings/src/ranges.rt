//! The part of the rows that a range asks for.

ghost use Rattle.std.specs.Prelude.{◌≡◌, ◌-◌, ℕ, List, true, take, drop, length};
ghost use Rattle.item_model.specs.declared.item.Row.{Row};
ghost use Rattle.share_history.specs.Ranges.{in_range};

use item_model::{Range, SharedRow};
use listing_plan::PlanRow;

/// The rows from the index `from` up to the index `to`, as far as there are any.
#[derive(Clone, Copy)]
pub(crate) struct Window {
    pub(crate) from: usize,
    pub(crate) to: usize,
}

impl Window {
    /// Returns where these rows are if the first `count` rows are left out.
    pub(crate) fn past(self, count: usize) -> Window
        ensures from { result.from ≡ self.from - count }
        ensures to { result.to ≡ self.to - count }
    {
        Window {
            from: self.from.saturating_sub(count),
            to: self.to.saturating_sub(count),
        }
    }

    /// Returns those of `rows` that are in the window.
    pub(crate) fn of(self, rows: &[SharedRow]) -> &[SharedRow]
        ensures { result.now ≡ drop self.from (take self.to rows.now) }
    {
        let (front, _) = rows.split_at(self.to.min(rows.len()));
        let (_, part) = front.split_at(self.from.min(front.len()));
        part
    }
}

/// Whether a range says that it has all rows, however many there are.
#[tactic(auto, using(crate::proofs::LibraryFacts::from_first))]
pub(crate) fn has_all(range: Range) -> bool
    ensures { result ≡ true → (rows : List (ℕ × Row)) → in_range range rows ≡ rows }
{
    match range {
        Range::All => true,
        Range::From { at } => at == 0,
        _ => false,
    }
}

/// Returns where the rows of a range are among `total` rows.
pub(crate) fn window_of(range: Range, total: u32) -> Window
    ensures { (rows : List (ℕ × Row)) → length rows ≡ total
        → in_range range rows ≡ drop result.from (take result.to rows) }
{
    let total = total as usize;
    match range {
        Range::All => Window { from: 0, to: total },
        Range::One { at } => Window {
            from: at as usize,
            to: at as usize + 1,
        },
        Range::From { at } => Window {
            from: at as usize,
            to: total,
        },
        Range::Span { from, to } => Window {
            from: from as usize,
            to: to as usize + 1,
        },
        Range::Last { count } => Window {
            from: total.saturating_sub(count as usize),
            to: total,
        },
    }
}

/// Returns the rows of a range, as far as there are any. Does not allocate.
pub(crate) fn in_range(range: Range, rows: Vec<PlanRow>) -> Vec<PlanRow>
    ensures { result.items ≡ in_range range rows.items }
{
    match range {
        Range::All => rows,
        Range::One { at } => front(back(rows, at as usize), 1),
        Range::From { at } => back(rows, at as usize),
        Range::Span { from, to } => back(front(rows, to as usize + 1), from as usize),
        Range::Last { count } => last(rows, count as usize),
    }
}

fn last(rows: Vec<PlanRow>, count: usize) -> Vec<PlanRow>
    ensures { result.items ≡ drop (length rows.items - count) rows.items }
{
    let passed = rows.as_slice().len().saturating_sub(count);
    back(rows, passed)
}

// The first `count` rows.
fn front(mut rows: Vec<PlanRow>, count: usize) -> Vec<PlanRow>
    ensures { result.items ≡ take count rows.items }
{
    rows.truncate(count);
    rows
}

// All but the first `count` rows.
fn back(mut rows: Vec<PlanRow>, count: usize) -> Vec<PlanRow>
    ensures { result.items ≡ drop count rows.items }
{
    let len = rows.as_slice().len();
    if len <= count {
        rows.truncate(0);
        return rows;
    }
    rows.rotate_left(count);
    rows.truncate(len - count);
    rows
}
