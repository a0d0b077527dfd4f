//! What always holds. Each function has an empty body; its contract is a theorem.

ghost use Rattle.std.specs.Prelude.{◌≡◌};
ghost use Rattle.item_model.specs.Limits.{text_limit, names_limit};
ghost use Rattle.item_model.specs.Properties.{all_properties};
ghost use Rattle.item_model.specs.Projection.{default_projection};

use crate::item::TEXT_BYTES;
use crate::property::{DEFAULT_PROJECTION, PROPERTIES};
use crate::request::META_NAMES;

/// The constants of this crate are the numbers and lists of the definitions.
pub fn the_constants()
    ensures texts { TEXT_BYTES ≡ text_limit }
    ensures names { META_NAMES ≡ names_limit }
    ensures properties { PROPERTIES ≡ all_properties }
    ensures projection { DEFAULT_PROJECTION ≡ default_projection }
{}
