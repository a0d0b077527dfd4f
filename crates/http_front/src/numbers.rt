//! Numbers and ranges in paths and parameters.

ghost use Rattle.std.specs.Prelude.{◌≡◌};
ghost use Rattle.http_front.specs.Numbers.{small_number, range_of, hyphen_range, range_from};

use crate::cuts::split_at_first;
use item_model::Range;
use records_import::read_number;

/// The most digits of a number.
const DIGITS: usize = 10;

/// Returns the number that 1 to 10 digits write, if it fits 32 bits.
#[tactic(auto, unfolding(crate::specs::Numbers::small_number))]
pub fn small_number(text: &[u8]) -> Option<u32>
    ensures { result ≡ small_number text.now }
{
    match read_number(text, DIGITS) {
        Some(number) if number <= u32::MAX as u128 => Some(number as u32),
        _ => None,
    }
}

/// Returns the range: one row, a span of rows, or the last rows.
pub fn range_of(text: &[u8]) -> Option<Range>
    ensures { result ≡ range_of text.now }
{
    let (before, behind) = split_at_first(text, b'-');
    match behind {
        Some(behind) => hyphen_range(before, behind),
        None => Some(Range::One {
            at: small_number(text)?,
        }),
    }
}

fn hyphen_range(before: &[u8], behind: &[u8]) -> Option<Range>
    ensures { result ≡ hyphen_range before.now behind.now }
{
    if before.is_empty() {
        return Some(Range::Last {
            count: small_number(behind)?,
        });
    }
    range_from(small_number(before)?, behind)
}

fn range_from(from: u32, behind: &[u8]) -> Option<Range>
    ensures { result ≡ range_from from behind.now }
{
    if behind.is_empty() {
        return Some(Range::From { at: from });
    }
    Some(Range::Span {
        from,
        to: small_number(behind)?,
    })
}
