//! Tags and their values.

ghost use Rattle.std.specs.Prelude.{◌≡◌, ◌++◌, ◌∷◌, [], IfOk, OnOk, OnErr};

use crate::content_code::Code;
use crate::payload::{Bytes, Text};
use std::alloc::{AllocError, Global};
use std::marker::Model;

/// A tag's value: a number, a text, a date in seconds since 1970, a version, further tags, or bytes that no kind
/// interprets.
#[cycle(tag)]
#[derive(Debug, Drop)]
pub enum Value {
    U8(u8),
    I8(i8),
    U16(u16),
    I16(i16),
    U32(u32),
    I32(i32),
    U64(u64),
    I64(i64),
    Text(Text),
    Date(u32),
    /// Its upper 16 bits are the major version, the next 8 the minor one.
    Version(u32),
    List(Tags),
    Opaque(Bytes),
}

/// A content code with its value.
#[cycle(tag)]
#[derive(Debug, Drop)]
pub struct Tag {
    pub code: Code,
    pub value: Value,
}

/// The tags of a list, in order.
#[cycle(tag)]
#[derive(Debug)]
pub struct Tags {
    items: Vec<Tag>,
}

impl Drop for Tags {
    #[cycle(letting_go)]
    fn drop(self) {
        let Tags { items: _ } = self;
    }
}

impl Model for Tag {
    ghost use Rattle.dmap_tags.specs.Tree.{Tree, size_of};
    ghost use Rattle.dmap_tags.specs.Cells.{tree_coded};

    ghost Value = { Tree };

    ghost coded = { tree_coded };

    ghost use Rattle.dmap_tags.specs.Seen.{tree_with};

    ghost view = { λ a. tree_with a.code a.value };

    ghost size = { size_of };

    ghost use Rattle.dmap_tags.specs.Falls.{value_falls};

    ghost size_decreases = { λ a h. value_falls a.code a.value };
}

impl Model for Tags {
    ghost use Rattle.std.specs.Prelude.{List};
    ghost use Rattle.std.specs.Coded.{coded_list};
    ghost use Rattle.dmap_tags.specs.Tree.{Tree, trees_of, sizes_of};
    ghost use Rattle.dmap_tags.specs.Cells.{tree_coded};

    ghost Value = { List Tree };

    ghost coded = { coded_list tree_coded };

    ghost view = { λ a. a.items.items };

    ghost size = { λ ts. sizes_of (trees_of ts) };

    ghost use Rattle.dmap_tags.specs.Falls.{most_within};
    ghost use Rattle.std.proofs.Common.{arith};

    ghost size_decreases = { λ a h. omega (arith, most_within a.items.items) };
}

impl Tag {
    /// Returns a copy of the tag.
    #[cycle(copy)]
    pub fn copy(&self) -> Result<Tag, AllocError>
        ensures { IfOk result (λ t. t ≡ self.now) }
    {
        let value = match &self.value {
            Value::U8(n) => Value::U8(*n),
            Value::I8(n) => Value::I8(*n),
            Value::U16(n) => Value::U16(*n),
            Value::I16(n) => Value::I16(*n),
            Value::U32(n) => Value::U32(*n),
            Value::I32(n) => Value::I32(*n),
            Value::U64(n) => Value::U64(*n),
            Value::I64(n) => Value::I64(*n),
            Value::Text(text) => Value::Text(text.copy()?),
            Value::Date(n) => Value::Date(*n),
            Value::Version(n) => Value::Version(*n),
            Value::List(tags) => Value::List(tags.copy()?),
            Value::Opaque(bytes) => Value::Opaque(bytes.copy()?),
        };
        Ok(Tag {
            code: self.code,
            value,
        })
    }
}

/// Returns copies of tags, in order.
#[cycle(copy)]
fn copies(alloc: Global, tags: &[Tag]) -> Result<Vec<Tag>, AllocError>
    ensures { IfOk result (λ v. v.items ≡ tags.now) }
{
    let mut copies = Vec::with_capacity(alloc, tags.len())?;
    for tag in tags {
        copies.push(tag.copy()?)?;
    }
    Ok(copies)
}

impl Tags {
    /// Returns copies of the tags, in order.
    #[cycle(copy)]
    pub fn copy(&self) -> Result<Tags, AllocError>
        ensures { IfOk result (λ ts. ts ≡ self.now) }
    {
        let items = copies(*self.items.allocator(), self.items.as_slice())?;
        Ok(Tags { items })
    }

    /// Returns an empty list. Does not allocate.
    pub fn new(alloc: Global) -> Tags
        ensures { result ≡ [] }
    {
        Tags {
            items: Vec::new(alloc),
        }
    }

    /// Returns the tags of the vector, without copying them.
    pub fn of(items: Vec<Tag>) -> Tags
        ensures { result ≡ items.items }
    {
        Tags { items }
    }

    pub fn as_slice(&self) -> &[Tag]
        ensures { result.now ≡ self.now }
    {
        self.items.as_slice()
    }

    /// Returns the tags as a vector. Does not allocate.
    pub fn into_vec(self) -> Vec<Tag>
        ensures { result.items ≡ self }
    {
        let Tags { items } = self;
        items
    }

    /// Appends a tag. If it fails, the tags are unchanged.
    pub fn push(&mut self, tag: Tag) -> Result<(), AllocError>
        ensures ok { OnOk result (self.new ≡ self.old ++ tag ∷ []) }
        ensures err { OnErr result (self.new ≡ self.old) }
    {
        self.items.push(tag)?;
        Ok(())
    }
}
