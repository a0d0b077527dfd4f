//! Putting rows into held ones. All memory is allocated first: rows of new ids are put, and removed again if
//! allocation fails.

ghost use Rattle.std.specs.Prelude.{◌≡◌, ◌∷◌, true, OnOk, OnErr, fold, is_some};
ghost use Rattle.std.specs.List.{AllByRecursion};
ghost use Rattle.std.specs.Map.{keys_of};
ghost use Rattle.share_history.specs.Keyed.{at, put_in, taken_out};
ghost use Rattle.relayed_rows.specs.Held.{AreFresh, AreHeld};

use crate::changes::Rows;
use item_model::SharedRow;
use std::alloc::AllocError;

/// Puts rows under ids that are not held. After an `Err` the held rows are as before.
pub(crate) fn put_fresh(held: &mut Rows, rows: &[(u32, SharedRow)]) -> Result<(), AllocError>
    requires { AreFresh held.old.entries rows.now }
    ensures put { OnOk result (held.new.entries ≡ fold put_in held.old.entries rows.now) }
    ensures unchanged { OnErr result (held.new.entries ≡ held.old.entries) }
{
    for (id, row) in rows {
        match put_shared(held, *id, row) {
            Ok(()) => {}
            Err(error) => {
                take_back(held, rows);
                return Err(error);
            }
        }
    }
    Ok(())
}

fn put_shared(held: &mut Rows, id: u32, row: &SharedRow) -> Result<(), AllocError>
    ensures put { OnOk result (held.new.entries ≡ put_in held.old.entries (id, row.now)) }
    ensures unchanged { OnErr result (held.new.entries ≡ held.old.entries) }
{
    let row = row.share()?;
    match held.insert(id, row) {
        Ok(_) => Ok(()),
        Err(_) => Err(AllocError),
    }
}

fn take_back(held: &mut Rows, rows: &[(u32, SharedRow)])
    ensures { held.new.entries ≡ fold taken_out held.old.entries (keys_of rows.now) }
{
    for (id, _) in rows {
        held.remove(id);
    }
}

/// Puts rows under ids that are held. Does not allocate.
pub(crate) fn put_over(held: &mut Rows, rows: Vec<(u32, SharedRow)>)
    requires { AreHeld held.old.entries rows.items }
    ensures { held.new.entries ≡ fold put_in held.old.entries rows.items }
{
    for (id, row) in rows {
        put_at(held, id, row);
    }
}

fn put_at(held: &mut Rows, id: u32, row: SharedRow)
    requires { is_some (at id held.old.entries) ≡ true }
    ensures { held.new.entries ≡ put_in held.old.entries (id, row) }
{
    match held.insert(id, row) {
        Ok(_) => {}
        Err(_) => {}
    }
}

/// Removes the rows of `ids`.
pub(crate) fn take_out(held: &mut Rows, ids: &[u32])
    ensures { held.new.entries ≡ fold taken_out held.old.entries ids.now }
{
    for id in ids {
        held.remove(id);
    }
}
