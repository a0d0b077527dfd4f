//! Content codes.

ghost use Rattle.std.specs.Prelude.{◌≡◌};

use std::marker::Model;

/// The four bytes that begin a tag and name its value, as `mlit` (DMAP's content codes).
#[derive(Clone, Copy, Debug, PartialEq, Eq, PartialOrd, Ord)]
pub struct Code(pub [u8; 4]);

impl Model for Code {
    ghost use Rattle.dmap_tags.specs.Codes.{Four, four_code, code_of, code_bytes, AreFourBytes};
    ghost use Rattle.dmap_tags.specs.CodeSeen.{bytes_again};

    ghost Value = { Four };

    ghost coded = { four_code };

    ghost view = { λ a. code_of a.0 };

    ghost invariant = { λ a. AreFourBytes a.0 };

    ghost inverse = { λ c. record { 0 = code_bytes c } };

    ghost inverse_ok = { λ a h. bytes_again a h };
}
