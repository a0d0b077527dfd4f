//! The eight bytes before a tag's payload.

ghost use Rattle.std.specs.Prelude.{◌≡◌, ◌≤◌, length};
ghost use Rattle.dmap_tags.specs.Codes.{code_of};
ghost use Rattle.dmap_tags.specs.Kinds.{is_list};
ghost use Rattle.dmap_stream.specs.Walk.{told_length};

use dmap_tags::{Code, Kind};

/// Returns the code and the payload's length in a head.
#[inline(always)]
pub fn head_of(bytes: &[u8]) -> (Code, u32)
    requires { 8 ≤ length bytes.now }
    ensures code { result.0 ≡ code_of bytes.now }
    ensures len { result.1 ≡ told_length bytes.now }
{
    let code = Code([bytes[0], bytes[1], bytes[2], bytes[3]]);
    let len = u32::from_be_bytes([bytes[4], bytes[5], bytes[6], bytes[7]]);
    (code, len)
}

/// Returns whether a tag of the kind contains tags.
#[inline(always)]
pub fn is_list(kind: Kind) -> bool
    ensures { result ≡ is_list kind }
{
    match kind {
        Kind::List => true,
        _ => false,
    }
}
