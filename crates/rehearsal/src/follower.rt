//! A mirror that follows a share.

ghost use Rattle.std.specs.Prelude.{◌≡◌, ◌<◌, ◌≤◌, ◌+◌, ◌^◌, ℕ, Option, not, length, OnOk, if◌then◌else◌};
ghost use Rattle.code_table.specs.Standard.{standard_rows};
ghost use Rattle.item_model.specs.declared.query.Query.{Query};
ghost use Rattle.rehearsal.specs.Asks.{is_due};
ghost use Rattle.rehearsal.specs.declared.plan.Rehearsal.{Rehearsal};
ghost use Rattle.rehearsal.specs.Following.{IsAt, Follows, IsMirror};

use crate::answering::update_mirror;
use crate::plan::Rehearsal;
use crate::summary::Standing;
use code_table::CodeTable;
use item_model::{Meta, Query, Target};
use item_store::ItemStore;
use mirror_core::Mirror;
use std::alloc::{AllocError, Global};

/// A mirror of items with the period of its requests, and how many of them got a full listing or a delta.
#[derive(Drop)]
pub(crate) struct RehearsedMirror {
    mirror: Mirror,
    period: u32,
    full: u32,
    delta: u32,
}

fn is_due(period: u32, last: u32, n: u32) -> bool
    requires { 1 ≤ period }
    ensures { result ≡ is_due period last n }
{
    n % period == 0 || n == last
}

impl RehearsedMirror {
    pub(crate) fn new(alloc: Global, query: Option<Query>, period: u32) -> RehearsedMirror
        requires { 1 ≤ period }
        ensures follows { (plan : Rehearsal) → Follows plan 0 result }
        ensures mirror { IsMirror period query result }
    {
        RehearsedMirror {
            mirror: Mirror::new(alloc, Target::Items, query, Meta::Default),
            period,
            full: 0,
            delta: 0,
        }
    }

    // Lets the mirror request after batch `n + 1`, if its period divides that number or the batch is the last.
    pub(crate) fn after_batch(
        &mut self,
        alloc: Global,
        table: &CodeTable,
        store: &ItemStore,
        plan: &Rehearsal,
        n: u32,
    ) -> Result<(), AllocError>
        requires table { table.now ≡ standard_rows }
        requires few { n < 65536 }
        requires at { IsAt plan.now (n + 1) store.now }
        requires follows { Follows plan.now n self.old }
        ensures follows { OnOk result (Follows plan.now (n + 1) self.new) }
        ensures mirror { OnOk result ((often : ℕ) (asked : Option Query)
            → IsMirror often asked self.old → IsMirror often asked self.new) }
    {
        if !is_due(self.period, plan.batches, n + 1) {
            return Ok(());
        }
        let is_delta = update_mirror(alloc, table, store, &mut self.mirror)?;
        self.count(is_delta);
        Ok(())
    }

    fn count(&mut self, is_delta: bool)
        requires { self.old.full + self.old.delta < 2 ^ 20 }
        ensures mirror { self.new.mirror ≡ self.old.mirror }
        ensures period { self.new.period ≡ self.old.period }
        ensures delta { self.new.delta ≡ self.old.delta + (if is_delta then 1 else 0) }
        ensures full { self.new.full ≡ self.old.full + (if not is_delta then 1 else 0) }
    {
        if is_delta {
            self.delta += 1;
            return;
        }
        self.full += 1;
    }

    pub(crate) fn standing(&self) -> Standing
        ensures rows { result.rows ≡ length self.now.mirror.held.rows }
        ensures full { result.full ≡ self.now.full }
        ensures delta { result.delta ≡ self.now.delta }
    {
        Standing {
            rows: self.mirror.len(),
            full: self.full,
            delta: self.delta,
        }
    }
}
