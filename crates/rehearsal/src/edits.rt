//! The edits made from generated numbers.

ghost use Rattle.std.specs.Prelude.{◌≡◌, ◌<◌, ◌+◌, ◌*◌, ◌%◌, ◌++◌, ◌∷◌, [], ℕ, true, length, IfOk, OnOk, decimal};
ghost use Rattle.std.specs.List.{range_with_len};
ghost use Rattle.item_model.specs.Items.{is_value_of, is_text_of, with_value};
ghost use Rattle.dmap_tags.specs.declared.kinds.Kind.TheVariants.{Text as TextKind};
ghost use Rattle.item_model.specs.Valid.{AreValid, IsValid};
ghost use Rattle.rehearsal.specs.Draws.{next, drawn, state};
ghost use Rattle.rehearsal.specs.Edits.{row_by, edit_next, edits_from};

use crate::draws::Draws;
use dmap_tags::Text;
use item_model::{Batch, Edit, Edits, Item, ItemError, PropValue, Property, Row, SharedRow};
use itoa::Buffer;
use std::alloc::{AllocError, Global};

/// Returns the next batch of `size` edits.
pub(crate) fn batch(alloc: Global, draws: &mut Draws, size: u32) -> Result<Batch, AllocError>
    ensures edits { IfOk result (λ batch. (number place : ℕ)
        → draws.old.state ≡ state number (3 * place) → batch ≡ edits_from number place size) }
    ensures draws { OnOk result ((number place : ℕ) → draws.old.state ≡ state number (3 * place)
        → draws.new.state ≡ state number (3 * (place + size))) }
{
    let mut edits = Edits::new(alloc);
    for made in 0..size {
        edits.push(edit(alloc, draws)?)?;
    }
    Ok(Batch { edits })
}

fn edit(alloc: Global, draws: &mut Draws) -> Result<Edit, AllocError>
    ensures edit { IfOk result (λ edit. edit ≡ edit_next draws.old.state) }
    ensures draws { OnOk result (draws.new.state ≡ next (next (next draws.old.state))) }
{
    let a = draws.draw();
    let b = draws.draw();
    let c = draws.draw();
    let id = 1 + a % 4096;
    if b % 4 == 0 {
        return Ok(Edit::DropItem { id });
    }
    let row = SharedRow::new(alloc, row(alloc, id, b, c)?)?;
    Ok(Edit::PutItem { row })
}

fn row(alloc: Global, id: u32, b: u32, c: u32) -> Result<Row, AllocError>
    ensures { IfOk result (λ row. row ≡ row_by id b c) }
{
    let mut item = Item::new(alloc);
    put(
        &mut item,
        Property::Minm,
        PropValue::Text(numbered(alloc, "t", b)?),
    )?;
    put(
        &mut item,
        Property::Asar,
        PropValue::Text(numbered(alloc, "a", c % 16)?),
    )?;
    put(
        &mut item,
        Property::Asyr,
        PropValue::Number(u64::from(1950 + c % 80)),
    )?;
    Ok(Row { id, item })
}

// Returns `letter` followed by the number.
#[tactic(auto, using(crate::proofs::DrawFacts::text_fits))]
fn numbered(alloc: Global, letter: &str, n: u32) -> Result<Text, AllocError>
    requires { length letter.now ≡ 1 }
    ensures text { IfOk result (λ text. text ≡ letter.now ++ decimal n) }
    ensures fits { IfOk result (λ text. is_text_of TextKind text ≡ true) }
{
    let mut text = String::new(alloc);
    text.push_str(letter)?;
    text.push_str(Buffer::new().format(n))?;
    Text::of(alloc, text.as_str())
}

fn put(item: &mut Item, property: Property, value: PropValue) -> Result<(), AllocError>
    requires { is_value_of property value ≡ true }
    ensures { OnOk result (item.new ≡ with_value property value item.old) }
{
    match item.put(property, value) {
        Ok(()) => Ok(()),
        Err(ItemError::Memory) => Err(AllocError),
        Err(ItemError::Range) => unreachable!(),
    }
}
