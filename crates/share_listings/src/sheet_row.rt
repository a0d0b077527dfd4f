//! A row of a sheet, as queries see it.

ghost use Rattle.std.specs.Prelude.{◌≡◌, ◌<◌, ◌+◌, ◌-◌, List, length, take, drop, slice_index_or, IfSome, IsAscii};
ghost use Rattle.dmap_tags.specs.declared.kinds.Kind.TheVariants.{Text as TextKind};
ghost use Rattle.item_model.specs.declared.item.Row.{Row};
ghost use Rattle.item_model.specs.Folds.{IsSoughtIfAny};
ghost use Rattle.item_model.specs.Items.{value_of};
ghost use Rattle.row_sheets.specs.Cells.{row_cells, joined};
ghost use Rattle.share_listings.specs.SheetRows.{sheet_row};

use dmap_tags::Kind;
use item_model::{Property, SharedRow, Sought};
use row_sheets::{Sheet, index_of};
use song_query::Searched;

// The length of a tag's code and of the length of its payload.
const TAG_HEAD_BYTES: usize = 8;

/// The row at an index of a sheet. A condition reads the tags of the sheet, which lie side by side, and the row itself
/// only for a number and for a text that is not ASCII.
#[derive(Drop)]
pub(crate) struct SheetRow<'a> {
    sheet: &'a Sheet,
    index: usize,
    ghost within: { index < length sheet.now.rows },
}

impl SheetRow<'_> {
    /// Returns the row at the index.
    #[inline(always)]
    pub(crate) fn at(sheet: &Sheet, index: usize) -> SheetRow<'_>
        requires { index < length sheet.now.rows }
        ensures sheet { result.sheet.now ≡ sheet.now }
        ensures index { result.index ≡ index }
    {
        SheetRow { sheet, index }
    }

    /// Returns the row itself.
    #[inline(always)]
    pub(crate) fn shared(&self) -> &SharedRow
        ensures { result.now ≡ sheet_row self.now.sheet.now self.now.index }
    {
        shared_on(self.sheet, self.index)
    }
}

impl Searched for SheetRow<'_> {
    ghost represents = { λ row. sheet_row row.sheet.now row.index };

    fn id(&self) -> u32 {
        id_on(self.sheet, self.index)
    }

    #[inline(always)]
    fn sought(&self, property: Property) -> Option<Sought<'_>> {
        sought_on(self.sheet, self.index, property)
    }
}

#[inline(always)]
fn shared_on(sheet: &Sheet, index: usize) -> &SharedRow
    requires { index < length sheet.now.rows }
    ensures { result.now ≡ sheet_row sheet.now index }
{
    &sheet.rows()[index]
}

fn id_on(sheet: &Sheet, index: usize) -> u32
    requires { index < length sheet.now.rows }
    ensures { result ≡ (sheet_row sheet.now index).id }
{
    sheet.ids()[index]
}

// Returns the value that a condition compares, of the row at an index of a sheet.
#[inline(always)]
fn sought_on(sheet: &Sheet, index: usize, property: Property) -> Option<Sought<'_>>
    requires { index < length sheet.now.rows }
    ensures { IsSoughtIfAny (value_of property (sheet_row sheet.now index).item) result }
{
    let rows = sheet.rows();
    let column = index_of(sheet.properties(), property)?;
    let tag = tag_on(sheet, index, column);
    if tag.is_empty() {
        return None;
    }
    match ascii_text(property.kind(), tag) {
        Some(text) => Some(Sought::Text(text)),
        None => rows[index].row().item.sought(property),
    }
}

// Returns the tag of the property at an index of a sheet's properties. A property that the row lacks has no bytes.
#[inline(always)]
fn tag_on(sheet: &Sheet, index: usize, column: usize) -> &[u8]
    requires row { index < length sheet.now.rows }
    requires within { column < length sheet.now.properties }
    ensures { (d : Row) → result.now
        ≡ joined (row_cells (take (column + 1 - column) (drop column sheet.now.properties))
        (slice_index_or sheet.now.rows index d)) }
{
    // There are as many properties as fit in memory, so the next index is a number.
    let _count = sheet.properties().len();
    let tags = sheet.row_tags(index, column, column + 1);
    let (tag, _) = tags.bytes.split_at(tags.len);
    tag
}

// Returns the text in the tag of a property of this kind, if it is a text and ASCII.
#[inline(always)]
fn ascii_text(kind: Kind, tag: &[u8]) -> Option<&str>
    ensures kind { IfSome result (λ _. kind ≡ TextKind) }
    ensures text { IfSome result (λ text. text.now ≡ drop 8 tag.now) }
    ensures ascii { IfSome result (λ text. IsAscii text.now) }
{
    match kind {
        Kind::Text => ascii_payload(tag),
        _ => None,
    }
}

// Returns the payload of a tag as a text, if it is ASCII.
#[inline(always)]
fn ascii_payload(tag: &[u8]) -> Option<&str>
    ensures text { IfSome result (λ text. text.now ≡ drop 8 tag.now) }
    ensures ascii { IfSome result (λ text. IsAscii text.now) }
{
    if tag.len() < TAG_HEAD_BYTES {
        return None;
    }
    let (_, payload) = tag.split_at(TAG_HEAD_BYTES);
    ascii(payload)
}

// Returns the bytes as a text, if they are ASCII.
#[inline(always)]
fn ascii(bytes: &[u8]) -> Option<&str>
    ensures text { IfSome result (λ text. text.now ≡ bytes.now) }
    ensures ascii { IfSome result (λ text. IsAscii text.now) }
{
    match str::from_utf8(bytes) {
        Ok(text) if text.is_ascii() => Some(text),
        _ => None,
    }
}
