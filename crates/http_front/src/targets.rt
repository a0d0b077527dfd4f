//! The path and the parameters in a target.

ghost use Rattle.std.specs.Prelude.{◌≡◌};
ghost use Rattle.http_front.specs.Targets.{from_slash, local_part, path_of, query_of};

use crate::cuts::split_at_first;

/// Returns the path of a target, and the bytes after its question mark.
pub fn path_and_query(target: &[u8]) -> (&[u8], &[u8])
    ensures path { result.0.now ≡ path_of (local_part target.now) }
    ensures query { result.1.now ≡ query_of (local_part target.now) }
{
    let (path, query) = split_at_first(local_part(target), b'?');
    (path, query.unwrap_or(b""))
}

// Returns a target without its scheme and host.
fn local_part(target: &[u8]) -> &[u8]
    ensures { result.now ≡ local_part target.now }
{
    if target.starts_with(b"http://") || target.starts_with(b"daap://") {
        from_slash(&target[7..])
    } else {
        target
    }
}

fn from_slash(bytes: &[u8]) -> &[u8]
    ensures { result.now ≡ from_slash bytes.now }
{
    let mut rest = bytes;
    while let [first, behind @ ..] = rest {
        if *first == b'/' {
            return rest;
        }
        rest = behind;
    }
    rest
}
