//! The codes of a listing's tags, and the properties by which a library is browsed.

ghost use Rattle.std.specs.Prelude.{◌≡◌};
ghost use Rattle.share_history.specs.Bodies.{body_code, key_code};
ghost use Rattle.share_history.specs.BrowseListings.{browsed, browse_code};

use dmap_tags::Code;
use item_model::{Browse, Property, Target};

/// Returns the code of a listing's body.
pub fn body_code(target: Target) -> Code
    ensures { result ≡ body_code target }
{
    match target {
        Target::Items => Code(*b"adbs"),
        Target::Container(_) => Code(*b"apso"),
    }
}

/// Returns the code of the keys of a listing's rows.
pub fn key_code(target: Target) -> Code
    ensures { result ≡ key_code target }
{
    match target {
        Target::Items => Code(*b"miid"),
        Target::Container(_) => Code(*b"mcti"),
    }
}

/// Returns the property whose values are browsed.
pub fn browsed(browse: Browse) -> Property
    ensures { result ≡ browsed browse }
{
    match browse {
        Browse::Artists => Property::Asar,
        Browse::Albums => Property::Asal,
        Browse::Genres => Property::Asgn,
        Browse::Composers => Property::Ascp,
    }
}

/// Returns the code of the list of values in a browse body.
pub fn browse_code(browse: Browse) -> Code
    ensures { result ≡ browse_code browse }
{
    match browse {
        Browse::Artists => Code(*b"abar"),
        Browse::Albums => Code(*b"abal"),
        Browse::Genres => Code(*b"abgn"),
        Browse::Composers => Code(*b"abcp"),
    }
}
