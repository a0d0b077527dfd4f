//! A text followed by a number.

ghost use Rattle.std.specs.Prelude.{◌≡◌, ◌++◌, OnOk, decimal};

use itoa::Buffer;
use std::alloc::AllocError;

/// Appends `words` and then `number` in decimal.
pub fn push_number(line: &mut Vec<u8>, words: &[u8], number: u64) -> Result<(), AllocError>
    ensures text { OnOk result (line.new.items ≡ line.old.items ++ (words.now ++ decimal number)) }
{
    line.extend_from_slice(words)?;
    line.extend_from_slice(Buffer::new().format(number).as_bytes())
}
