//! Texts of items with their ASCII letters lowered, in an array.

ghost use Rattle.std.specs.Prelude.{◌≡◌, ◌≤◌, length};
ghost use Rattle.item_model.specs.Folding.{lowered};
ghost use Rattle.item_model.specs.Limits.{text_limit};

use item_model::TEXT_BYTES;
use std::marker::Model;
use std::str::from_utf8;

/// A text of an item with its ASCII letters lowered.
#[derive(Drop)]
pub(crate) struct Lowered {
    bytes: [u8; TEXT_BYTES],
    len: usize,
}

impl Model for Lowered {
    ghost use Rattle.std.specs.Prelude.{ℕ, List, take, ◌≤◌, IsUtf8};
    ghost use Rattle.item_model.specs.Limits.{text_limit};

    ghost Value = { List ℕ };

    ghost view = { λ a. take a.len a.bytes };

    ghost invariant = { λ a. (a.len ≤ text_limit) × IsUtf8 (take a.len a.bytes) };
}

impl Lowered {
    pub(crate) fn of(text: &str) -> Lowered
        requires { length text.now ≤ text_limit }
        ensures { result ≡ lowered text.now }
    {
        let len = text.len();
        let mut bytes = [0; TEXT_BYTES];
        lower_into(&mut bytes[..len], text);
        Lowered { bytes, len }
    }

    pub(crate) fn as_str(&self) -> &str
        ensures { result.now ≡ self.now }
    {
        match from_utf8(&self.bytes[..self.len]) {
            Ok(text) => text,
            Err(_) => "",
        }
    }
}

fn lower_into(bytes: &mut [u8], text: &str)
    requires { length bytes.old ≡ length text.now }
    ensures { bytes.new ≡ lowered text.now }
{
    bytes.copy_from_slice(text.as_bytes());
    bytes.make_ascii_lowercase();
}
