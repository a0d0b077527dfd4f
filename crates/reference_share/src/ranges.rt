//! The rows in a range.

ghost use Rattle.std.specs.Prelude.{◌≡◌, take, drop};
ghost use Rattle.share_history.specs.Ranges.{in_range};

use item_model::Range;

// Returns the first `count` rows, or all if there are fewer.
fn front<T>(rows: &[T], count: usize) -> &[T]
    ensures { result.now ≡ take count rows.now }
{
    if count >= rows.len() {
        return rows;
    }
    let (front, _) = rows.split_at(count);
    front
}

// Returns all but the first `count` rows.
fn back<T>(rows: &[T], count: usize) -> &[T]
    ensures { result.now ≡ drop count rows.now }
{
    if count >= rows.len() {
        return &[];
    }
    let (_, back) = rows.split_at(count);
    back
}

/// Returns the rows in the range; rows past the last are left out.
pub(crate) fn in_range<T>(range: Range, rows: &[T]) -> &[T]
    ensures { result.now ≡ in_range range rows.now }
{
    match range {
        Range::All => rows,
        Range::One { at } => front(back(rows, at as usize), 1),
        Range::From { at } => back(rows, at as usize),
        Range::Span { from, to } => back(front(rows, to as usize + 1), from as usize),
        Range::Last { count } => back(rows, rows.len().saturating_sub(count as usize)),
    }
}
