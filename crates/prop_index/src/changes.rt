//! Changes of a library, as an index takes them in.

ghost use Rattle.std.specs.Prelude.{◌≡◌, ℕ, List, OnOk, IfOk, option_copied};
ghost use Rattle.item_model.specs.declared.item.Row.{Row};
ghost use Rattle.share_history.specs.Keyed.{at, IsAscending};
ghost use Rattle.prop_index.specs.Library.{after, Fits, after_all, FitInTurn};
ghost use Rattle.prop_index.specs.Turns.{id_of, first_of, TurnTo};

use item_model::{Row, SharedRow};
use std::alloc::{AllocError, Global};
use std::collections::BTreeMap;

/// What became of an item: its row before and after, if there was one and is one. Both have one id.
#[derive(Drop)]
pub struct Change {
    pub old: Option<SharedRow>,
    pub new: Option<SharedRow>,
}

/// The row of an id before and after some changes.
#[derive(Clone, Copy)]
pub(crate) struct Turn<'a> {
    pub old: Option<&'a Row>,
    pub new: Option<&'a Row>,
}

fn row_of(row: &Option<SharedRow>) -> Option<&Row>
    ensures { option_copied result ≡ row.now }
{
    match row {
        Some(shared) => Some(shared.row()),
        None => None,
    }
}

fn id_of(old: Option<&Row>, new: Option<&Row>) -> Option<u32>
    ensures { result ≡ id_of (option_copied old.entry) (option_copied new.entry) }
{
    match (old, new) {
        (_, Some(row)) => Some(row.id),
        (Some(row), None) => Some(row.id),
        (None, None) => None,
    }
}

/// Adds a change after the others.
pub(crate) fn add<'a>(
    turns: &mut BTreeMap<u32, Turn<'a>>,
    old: Option<&'a Row>,
    new: Option<&'a Row>,
) -> Result<(), AllocError>
    ensures { OnOk result ((rows now : List (ℕ × Row)) → TurnTo rows now turns.old.entries
        → IsAscending now
        → Fits now (option_copied old.entry) (option_copied new.entry)
        → TurnTo rows (after now (option_copied old.entry) (option_copied new.entry)) turns.new.entries) }
{
    let Some(id) = id_of(old, new) else {
        return Ok(());
    };
    let old = first_row(turns, id, old);
    turns.insert(id, Turn { old, new })?;
    Ok(())
}

// The row before all changes, where the one before this change is given.
fn first_row<'a>(turns: &BTreeMap<u32, Turn<'a>>, id: u32, old: Option<&'a Row>) -> Option<&'a Row>
    ensures { option_copied result ≡ first_of (at id turns.now.entries) (option_copied old.entry) }
{
    match turns.get(&id) {
        Some(turn) => turn.old,
        None => old,
    }
}

/// What all changes come to, for each id that they name.
pub(crate) fn turns_of(
    alloc: Global,
    changes: &[Change],
) -> Result<BTreeMap<u32, Turn<'_>>, AllocError>
    ensures { IfOk result (λ turns. (rows : List (ℕ × Row)) → IsAscending rows
        → FitInTurn rows changes.now
        → TurnTo rows (after_all rows changes.now) turns.entries) }
{
    let mut turns = BTreeMap::new(alloc);
    for change in changes {
        add(&mut turns, row_of(&change.old), row_of(&change.new))?;
    }
    Ok(turns)
}
