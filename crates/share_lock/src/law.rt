//! The lock's rule, and what each of its steps reports.
use crate::recorded::Recorded;
use crate::view::View;
use atomic_table::{Join, Play, Split, TableRule};
use std::marker::PhantomData;
use std::snapshot::Snapshot;

/// The constants of an opened lock.
#[derive(Drop)]
pub struct Key<S> {
    pub passes: u64,
    pub opening: Snapshot<S>,
}

pub struct LockRule;

impl<S: Recorded> TableRule<Option<S>, View<S::Entry, S::Settings>, Key<S>> for LockRule {
    ghost use Rattle.share_lock.specs.Rule.{Holds, first_view};

    ghost holds = { λ key. Holds S.entries S.by S.settings key.passes };

    ghost first = { λ key. first_view key.passes (S.settings key.opening.value) (S.entries key.opening.value) };
}

/// Draws a ticket.
pub struct Draw;

impl<S: Recorded> Play<Option<S>, View<S::Entry, S::Settings>> for Draw {
    ghost use Rattle.share_lock.specs.Plays.{drawn};

    ghost then = { drawn };
}

/// Begins the turn of the ticket that is served: takes the state.
pub struct Enter;

impl<S: Recorded> Play<Option<S>, View<S::Entry, S::Settings>> for Enter {
    ghost use Rattle.share_lock.specs.Plays.{entered};

    ghost then = { entered S.entries S.by S.settings };
}

/// Stores the length of the new history.
pub struct Store;

impl<S: Recorded> Play<Option<S>, View<S::Entry, S::Settings>> for Store {
    ghost use Rattle.share_lock.specs.Plays.{stored};

    ghost then = { stored S.entries };
}

/// Serves the next ticket, which ends the turn.
pub struct Leave;

impl<S: Recorded> Play<Option<S>, View<S::Entry, S::Settings>> for Leave {
    ghost use Rattle.share_lock.specs.Plays.{left};

    ghost then = { left };
}

/// Draws a number.
pub struct DrawNumber;

impl<S: Recorded> Play<Option<S>, View<S::Entry, S::Settings>> for DrawNumber {
    ghost use Rattle.share_lock.specs.Plays.{numbered};

    ghost then = { numbered };
}

/// Reports what the rule says of two handles that were joined.
pub struct LearnJoin;

impl<S: Recorded> Play<Option<S>, View<S::Entry, S::Settings>> for LearnJoin {
    ghost use Rattle.share_lock.specs.Plays.{told};

    ghost then = { told S.by };
}

/// Makes a new handle, which has no number yet.
pub struct SplitPass;

impl<E, T> Split<View<E, T>> for SplitPass {
    ghost use Rattle.share_lock.specs.Rule.{newcomer};

    ghost left = { λ v. v };

    ghost right = { newcomer };
}

/// Joins two handles.
pub struct Merge<S> {
    state: PhantomData<S>,
}

impl<S: Recorded> Join<View<S::Entry, S::Settings>> for Merge<S> {
    ghost use Rattle.share_lock.specs.Rule.{joined, spent};

    ghost both = { joined };

    ghost spent = { spent S.unset };
}
