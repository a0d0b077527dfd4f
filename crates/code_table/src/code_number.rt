//! Codes as numbers of 32 bits.

ghost use Rattle.std.specs.Prelude.{◌≡◌};
ghost use Rattle.dmap_tags.specs.Codes.{is_code};
ghost use Rattle.code_table.specs.Reply.{number_of, numbered};

use dmap_tags::Code;

/// Returns the four bytes of a code as a big-endian number.
#[inline(always)]
pub fn number_of(code: Code) -> u32
    ensures told { result ≡ number_of code }
    ensures reads_back { numbered result ≡ code }
{
    let b = code.0;
    u32::from_be_bytes([b[0], b[1], b[2], b[3]])
}

/// Returns the code whose four bytes are the number, big-endian.
pub fn code_by(number: u32) -> Code
    ensures { result ≡ numbered number }
{
    let b = number.to_be_bytes();
    Code([b[0], b[1], b[2], b[3]])
}

/// Returns whether two codes are equal, by one comparison.
#[inline(always)]
#[tactic(auto, using(crate::proofs::Index::same_numbers))]
pub fn is_code(a: Code, b: Code) -> bool
    ensures { result ≡ is_code a b }
{
    number_of(a) == number_of(b)
}
