//! Opens, splits, joins, and takes turns.
ghost use Rattle.std.specs.Prelude.{◌≡◌, ◌≤◌, ◌<◌, ◌++◌, true, false, [], ◌∷◌, length, All, Contains, IfOk, IsOk};
ghost use Rattle.share_lock.specs.Histories.{entries_of, Adds, AddsOwn, AreApart, Continues};
ghost use Rattle.share_lock.specs.Known.{numbers_of, fresh, after_turn, after_join};
ghost use Rattle.share_lock.specs.Passes.{lock_id, passes_of, known, found_of, IsReady, IsInside};

use crate::gate::Gate;
use crate::law::{Key, LearnJoin, Merge, SplitPass};
use crate::pass::{Pass, ShareLock, Turn};
use crate::recorded::Recorded;
use crate::seats::{draw, enter, leave, name, words};
use atomic_table::Table;
use std::alloc::{AllocError, Global};
use std::snapshot::Snapshot;
use std::sync::Wait;

impl<S: Recorded + Drop> ShareLock<S> {
    /// Puts the state under a lock for `passes` handles, and returns the first one. Drops the state if an allocation
    /// fails.
    pub fn open(alloc: Global, state: S, passes: u32) -> Result<(ShareLock<S>, Pass<S>), AllocError>
        requires passes { 1 ≤ passes }
        requires opening { All (λ e. S.by e ≡ 0) (S.entries state) }
        ensures lock { IfOk result (λ r. passes_of r.0 ≡ passes) }
        ensures ready { IfOk result (λ r. IsReady (lock_id r.0) r.1) }
        ensures pass { IfOk result (λ r. known r.1 ≡ fresh 0 (S.settings state) (S.entries state)) }
    {
        let seen = state.recorded();
        let key = Key {
            passes: passes as u64,
            opening: Snapshot::of(&state),
        };
        let mut slots = Vec::new(alloc);
        slots.push(Some(state))?;
        let Ok((table, seat)) = Table::new(alloc, &words(seen), slots, &key) else {
            return Err(AllocError);
        };
        let lock = ShareLock {
            gate: Gate::new(),
            table,
            passes,
        };
        let pass = Pass {
            number: 0,
            seen,
            is_over: false,
            seat,
        };
        Ok((lock, pass))
    }
}

impl<S: Recorded> ShareLock<S> {
    /// Returns a handle with its own number, which has seen what this one has. Waits forever if all numbers were
    /// drawn.
    pub fn split<R: Wait>(&self, rt: &R, pass: &mut Pass<S>) -> Result<Pass<S>, AllocError>
        requires ready { IsReady (lock_id self.now) pass.old }
        ensures same { IsReady (lock_id self.now) pass.new × (known pass.new ≡ known pass.old) }
        ensures succeeds { IsOk result }
        ensures ready { IfOk result (λ p. IsReady (lock_id self.now) p) }
        ensures pass { IfOk result (λ p. known p
            ≡ fresh (known p).number (known pass.old).settings (known pass.old).seen) }
        ensures number { IfOk result (λ p. (1 ≤ (known p).number)
            × ((known p).number < passes_of self.now)) }
        ensures another { IfOk result
            (λ p. ¬ (Contains (numbers_of (known pass.old)) (known p).number)) }
    {
        let table = &self.table.shared;
        let mut seat = table.split_seat::<SplitPass>(&mut pass.seat);
        let number = name(rt, table, &mut seat, self.passes);
        Ok(Pass {
            number,
            seen: pass.seen,
            is_over: false,
            seat,
        })
    }

    #[tactic(auto, using(crate::proofs::Moves::in_front))]
    /// Waits asleep for a turn, and returns the state. Waits forever after `end`.
    pub fn take<'a, R: Wait>(&self, rt: &R, pass: &'a mut Pass<S>) -> Turn<'a, S>
        requires ready { IsReady (lock_id self.now) pass.old }
        ensures same { result.pass.ghost_name ≡ pass.entry.ghost_name }
        ensures inside { IsInside (lock_id self.now) result.pass.now }
        ensures pass { known result.pass.now ≡ known pass.old }
        ensures found { found_of result.pass.now ≡ S.entries result.state }
        ensures settings { S.settings result.state ≡ (known pass.old).settings }
        ensures history { Continues S.by (numbers_of (known pass.old)) (known pass.old).seen
            (S.entries result.state) }
        ensures own { entries_of S.by (known pass.old).number (S.entries result.state)
            ≡ entries_of S.by (known pass.old).number (known pass.old).seen }
        ensures numbers { All (λ e. S.by e < passes_of self.now) (S.entries result.state) }
    {
        self.gate.enter(rt);
        let table = &self.table.shared;
        let ticket = draw(rt, table, &mut pass.seat);
        let state = enter(rt, table, &mut pass.seat, ticket);
        Turn { pass, state }
    }

    #[tactic(auto, using(crate::proofs::Fronts::adds_own))]
    /// Ends a turn: returns the state to the lock. The handle has then seen its whole history.
    pub fn give(&self, turn: Turn<'_, S>)
        requires inside { IsInside (lock_id self.now) turn.pass.now }
        requires settings { S.settings turn.state ≡ (known turn.pass.now).settings }
        requires added { Adds S.by (known turn.pass.now).number (found_of turn.pass.now)
            (S.entries turn.state) }
        ensures ready { IsReady (lock_id self.now) turn.exit.0.now }
        ensures pass { known turn.exit.0.now
            ≡ after_turn (known turn.entry.pass.now) (S.entries turn.entry.state) }
        ensures own { AddsOwn S.by (known turn.entry.pass.now).number (found_of turn.entry.pass.now)
            (S.entries turn.entry.state) }
    {
        let Turn { pass, state } = turn;
        let seen = state.recorded();
        leave(&self.table.shared, &mut pass.seat, state, seen);
        pass.seen = seen;
        self.gate.leave();
    }

    /// Takes the state out for good.
    pub fn end(&self, turn: Turn<'_, S>) -> S
        requires inside { IsInside (lock_id self.now) turn.pass.now }
        ensures state { result ≡ turn.entry.state }
        ensures pass { known turn.exit.0.now
            ≡ record (known turn.entry.pass.now) { is_over = true } }
    {
        let Turn { pass, state } = turn;
        pass.is_over = true;
        state
    }

    /// Joins `other`, another handle of the lock, to `pass`.
    pub fn join(&self, pass: &mut Pass<S>, other: Pass<S>)
        requires ready { IsReady (lock_id self.now) pass.old }
        requires other { IsReady (lock_id self.now) other }
        ensures ready { IsReady (lock_id self.now) pass.new }
        ensures pass { known pass.new ≡ after_join (known pass.old) (known other) }
        ensures first { Continues S.by (numbers_of (known pass.old)) (known pass.old).seen
            (known pass.new).seen }
        ensures second { Continues S.by (numbers_of (known other)) (known other).seen
            (known pass.new).seen }
        ensures apart { AreApart (numbers_of (known pass.old)) (numbers_of (known other)) }
    {
        let Pass {
            number: _,
            seen,
            is_over: _,
            seat,
        } = other;
        let table = &self.table.shared;
        table.join_seat::<Merge<S>>(&mut pass.seat, seat);
        table.load::<LearnJoin>(&mut pass.seat, 0);
        pass.seen = seen.max(pass.seen);
    }
}

impl<S: Recorded> Pass<S> {
    /// Returns the number under which its entries are made.
    pub fn number(&self) -> u32
        ensures { result ≡ (known self.now).number }
    {
        self.number
    }

    /// Returns the length of the history that it has seen.
    pub fn seen(&self) -> u64
        ensures { result ≡ length (known self.now).seen }
    {
        self.seen
    }
}
