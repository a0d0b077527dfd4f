// Numbers in cells and elsewhere.

ghost use Rattle.std.specs.Prelude.{◌≡◌, ◌≤◌};
ghost use Rattle.records_import.specs.Number.{cell_number, number_of};

/// The maximum number of digits of a number in a cell.
const CELL_DIGITS: usize = 20;

/// Returns the number that `digits` are, which may have leading zeros, or `None` if they are not 1 to `most` decimal
/// digits. Twenty digits need more than 64 bits, and far less than 128.
pub fn read_number(digits: &[u8], most: usize) -> Option<u128>
    requires { most ≤ 20 }
    ensures { result ≡ number_of most digits.now }
{
    if digits.is_empty() || digits.len() > most {
        return None;
    }
    let mut value: u128 = 0;
    for byte in digits {
        if !byte.is_ascii_digit() {
            return None;
        }
        value = value * 10 + (*byte - b'0') as u128;
    }
    Some(value)
}

/// Returns the number in a cell.
pub(crate) fn read_cell(cell: &[u8]) -> Option<u128>
    ensures { result ≡ cell_number cell.now }
{
    read_number(cell, CELL_DIGITS)
}
