//! The steps of a handle at the lock's table.
ghost use Rattle.std.specs.Prelude.{◌≡◌, ℕ, ◌+◌, ◌<◌, ◌≤◌, true, false, [], ◌∷◌, All, Contains, length};
ghost use Rattle.share_lock.specs.Histories.{Adds, Continues};
ghost use Rattle.share_lock.specs.Plays.{having_seen, holding};
ghost use Rattle.share_lock.specs.Rule.{own_numbers};

use crate::law::{Draw, DrawNumber, Enter, Key, Leave, LockRule, Store};
use crate::recorded::Recorded;
use crate::view::View;
use atomic_table::{Seat, Shared};
use std::sync::Wait;
use std::thread;

// The words of the table.
const TICKET: usize = 0;

const SERVING: usize = 1;

const LENGTH: usize = 2;

const NAMED: usize = 3;

/// Returns the words at the start, for a history of this length.
pub(crate) fn words(length: u64) -> [u64; 4]
    ensures { result ≡ 0 ∷ 0 ∷ length ∷ 1 ∷ [] }
{
    [0, 0, length, 1]
}

/// Draws a ticket. Waits forever if none is left.
pub(crate) fn draw<S: Recorded, R: Wait>(
    rt: &R,
    table: &Shared<Option<S>, View<S::Entry, S::Settings>, Key<S>, LockRule>,
    seat: &mut Seat<Option<S>, View<S::Entry, S::Settings>>,
) -> u64
    requires table { (table.now.table_id.words ≡ 4) × (seat.old.table_id ≡ table.now.table_id) }
    requires idle { (seat.old.me.0.ticket ≡ None) × (seat.old.me.0.inside ≡ false) }
    ensures table { seat.new.table_id ≡ seat.old.table_id }
    ensures drawn { seat.new.me ≡ (record seat.old.me.0 { ticket = Some result }, seat.old.me.1) }
{
    for _ in rt.forever() {
        let ticket = table.peek(TICKET);
        if ticket == u64::MAX {
            table.park(rt, TICKET, u32::MAX);
        } else if table.compare_exchange::<Draw>(seat, TICKET, ticket, ticket + 1) == ticket {
            return ticket;
        }
    }
    unreachable!()
}

/// Waits until `ticket` is served, and takes the state.
pub(crate) fn enter<S: Recorded, R: Wait>(
    rt: &R,
    table: &Shared<Option<S>, View<S::Entry, S::Settings>, Key<S>, LockRule>,
    seat: &mut Seat<Option<S>, View<S::Entry, S::Settings>>,
    ticket: u64,
) -> S
    requires table { (table.now.table_id.words ≡ 4) × (table.now.table_id.slots ≡ 1)
        × (seat.old.table_id ≡ table.now.table_id) }
    requires waits { (seat.old.me.0.ticket ≡ Some ticket) × (seat.old.me.0.inside ≡ false)
        × (seat.old.me.1 ≡ []) }
    requires passes { 1 ≤ seat.old.me.0.passes }
    ensures table { seat.new.table_id ≡ seat.old.table_id }
    ensures inside { seat.new.me ≡ (holding seat.old.me.0 (S.entries result), (0, None) ∷ []) }
    ensures settings { S.settings result ≡ seat.old.me.0.settings }
    ensures history { Continues S.by (own_numbers seat.old.me.0) seat.old.me.0.seen
        (S.entries result) }
    ensures numbers { All (λ e. S.by e < seat.old.me.0.passes) (S.entries result) }
{
    for _ in rt.forever() {
        if table.load::<Enter>(seat, SERVING) == ticket {
            return table.exchange(seat, 0, None).unwrap();
        }
        // Only the thread inside the gate draws a ticket, so this is not reached.
        thread::yield_now();
    }
    unreachable!()
}

/// Puts the state back, and serves the next ticket.
pub(crate) fn leave<S: Recorded>(
    table: &Shared<Option<S>, View<S::Entry, S::Settings>, Key<S>, LockRule>,
    seat: &mut Seat<Option<S>, View<S::Entry, S::Settings>>,
    state: S,
    recorded: u64,
)
    requires table { (table.now.table_id.words ≡ 4) × (table.now.table_id.slots ≡ 1)
        × (seat.old.table_id ≡ table.now.table_id) }
    requires inside { (seat.old.me.0.inside ≡ true) × (seat.old.me.1 ≡ (0, None) ∷ []) }
    requires passes { 1 ≤ seat.old.me.0.passes }
    requires settings { S.settings state ≡ seat.old.me.0.settings }
    requires number { (n : ℕ) × (seat.old.me.0.number ≡ Some n)
        × Adds S.by n seat.old.me.0.noted (S.entries state) }
    requires length { recorded ≡ length (S.entries state) }
    ensures table { seat.new.table_id ≡ seat.old.table_id }
    ensures outside { seat.new.me
        ≡ (having_seen (record seat.old.me.0 { noted = S.entries state }), []) }
{
    let put = table.exchange(seat, 0, Some(state));
    let None = put else { unreachable!() };
    table.store::<Store>(seat, LENGTH, recorded);
    table.fetch_add::<Leave>(seat, SERVING, 1);
}

/// Draws a number. Waits forever if all are drawn.
pub(crate) fn name<S: Recorded, R: Wait>(
    rt: &R,
    table: &Shared<Option<S>, View<S::Entry, S::Settings>, Key<S>, LockRule>,
    seat: &mut Seat<Option<S>, View<S::Entry, S::Settings>>,
    passes: u32,
) -> u32
    requires table { (table.now.table_id.words ≡ 4) × (table.now.key.passes ≡ passes)
        × (seat.old.table_id ≡ table.now.table_id) }
    requires unnamed { (seat.old.me.0.number ≡ None) × (seat.old.me.0.inside ≡ false) }
    ensures table { seat.new.table_id ≡ seat.old.table_id }
    ensures named { seat.new.me ≡ (record seat.old.me.0 { number = Some result }, seat.old.me.1) }
    ensures range { (1 ≤ result) × (result < passes) }
    ensures another { ¬ (Contains seat.old.me.0.avoid result) }
{
    for _ in rt.forever() {
        let number = table.peek(NAMED);
        if number >= passes as u64 {
            table.park(rt, NAMED, passes);
        } else if table.compare_exchange::<DrawNumber>(seat, NAMED, number, number + 1) == number {
            return number as u32;
        }
    }
    unreachable!()
}
