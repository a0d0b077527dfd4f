//! The lock, the handles of its users, and the turn of a handle.
ghost use Rattle.std.specs.Prelude.{◌≡◌, ◌≤◌, length, Some};

use crate::gate::Gate;
use crate::law::{Key, LockRule};
use crate::recorded::Recorded;
use crate::view::View;
use atomic_table::{Seat, Table};
use std::alloc::Global;

/// A state that the holders of handles take turns at.
#[derive(Drop)]
pub struct ShareLock<S: Recorded> {
    pub(crate) gate: Gate,
    pub(crate) table: Table<Option<S>, View<S::Entry, S::Settings>, Key<S>, LockRule, Global>,
    pub(crate) passes: u32,
    ghost sized: { (table.shared.table_id.words ≡ 4) × (table.shared.table_id.slots ≡ 1) },
    ghost counted: { (table.shared.key.passes ≡ passes) × (1 ≤ passes) },
}

/// A handle: the right to take turns at one lock, under a number that no other handle of the lock has.
#[derive(Drop)]
pub struct Pass<S: Recorded> {
    pub(crate) number: u32,
    pub(crate) seen: u64,
    pub(crate) is_over: bool,
    pub(crate) seat: Seat<Option<S>, View<S::Entry, S::Settings>>,
    ghost named: { seat.me.0.number ≡ Some number },
    ghost known: { length seat.me.0.seen ≡ seen },
}

/// Exclusive access to the state. `give` returns it to the lock, `end` takes it out for good.
pub struct Turn<'a, S: Recorded> {
    pub(crate) pass: &'a mut Pass<S>,
    pub(crate) state: S,
}
