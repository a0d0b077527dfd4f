//! Whether tags have the kinds that a table gives.

ghost use Rattle.std.specs.Prelude.{◌≡◌, not, ◌&&◌};
ghost use Rattle.dmap_tags.specs.Tree.{trees_of};
ghost use Rattle.dmap_tags.specs.Typed.{leaf_at};
ghost use Rattle.dmap_tags.specs.Kinds.{is_list};
ghost use Rattle.code_table.specs.Fits.{is_opaque, fits, all_fit};

use crate::table::CodeTable;
use dmap_tags::{Code, Kind, Tag, Value, is_text};

impl CodeTable {
    /// Returns whether the tag and all in it have the kinds that the table gives, and bytes are opaque exactly if they
    /// encode no value of the kind. `parent` is the code of the list around the tag, `None` at the top.
    #[cycle(fits)]
    pub fn fits(&self, parent: Option<Code>, tag: &Tag) -> bool
        ensures { result ≡ fits self.now parent tag.now }
    {
        let kind = self.kind_of(parent, tag.code);
        match &tag.value {
            Value::U8(_) => kind == Kind::U8,
            Value::I8(_) => kind == Kind::I8,
            Value::U16(_) => kind == Kind::U16,
            Value::I16(_) => kind == Kind::I16,
            Value::U32(_) => kind == Kind::U32,
            Value::I32(_) => kind == Kind::I32,
            Value::U64(_) => kind == Kind::U64,
            Value::I64(_) => kind == Kind::I64,
            Value::Text(_) => kind == Kind::Text,
            Value::Date(_) => kind == Kind::Date,
            Value::Version(_) => kind == Kind::Version,
            Value::List(tags) => kind == Kind::List && self.all_fit(tag.code, tags.as_slice()),
            Value::Opaque(bytes) => spells_none(kind, bytes.as_slice()),
        }
    }

    #[cycle(fits)]
    #[tactic(auto, using(dmap_tags::proofs::Sizes::member_falls))]
    fn all_fit(&self, parent: Code, tags: &[Tag]) -> bool
        ensures { result ≡ all_fit self.now parent (trees_of tags.now) }
    {
        for tag in tags {
            if !self.fits(Some(parent), tag) {
                return false;
            }
        }
        true
    }
}

/// Returns whether the kind is not `List` and the payload encodes no value of it.
fn spells_none(kind: Kind, payload: &[u8]) -> bool
    ensures { result ≡ (not (is_list kind) && is_opaque (leaf_at kind payload.now)) }
{
    match kind {
        Kind::U8 | Kind::I8 => payload.len() != 1,
        Kind::U16 | Kind::I16 => payload.len() != 2,
        Kind::U32 | Kind::I32 | Kind::Date | Kind::Version => payload.len() != 4,
        Kind::U64 | Kind::I64 => payload.len() != 8,
        Kind::Text => !is_text(payload),
        Kind::Opaque => true,
        Kind::List => false,
    }
}
