//! A share that is edited, with the mirrors that follow it.

ghost use Rattle.std.specs.Prelude.{◌≡◌, ◌<◌, ◌≤◌, ◌+◌, None, take, IfOk, OnOk, OnErr};
ghost use Rattle.code_table.specs.Standard.{standard_rows};
ghost use Rattle.rehearsal.specs.Following.{IsAt, Follows, IsMirror};
ghost use Rattle.rehearsal.specs.Histories.{HasFirst, history_of};
ghost use Rattle.rehearsal.specs.Plan.{AreInRange, batches_of};
ghost use Rattle.rehearsal.specs.Queries.{artist_query, year_query};
ghost use Rattle.rehearsal.specs.Running.{Stands, Mirrors};
ghost use Rattle.rehearsal.specs.Summary.{summary_text};

use crate::draws::Draws;
use crate::edits::batch;
use crate::follower::RehearsedMirror;
use crate::plan::Rehearsal;
use crate::queries::{artist_query, year_query};
use crate::summary::summary;
use code_table::CodeTable;
use edit_log::EditLog;
use item_model::{Entries, Entry};
use item_store::ItemStore;
use std::alloc::{AllocError, Global};

#[derive(Drop)]
pub(crate) struct Run {
    draws: Draws,
    log: EditLog,
    store: ItemStore,
    first: RehearsedMirror,
    second: RehearsedMirror,
    third: RehearsedMirror,
}

impl Run {
    pub(crate) fn new(alloc: Global, plan: &Rehearsal) -> Result<Run, AllocError>
        requires { AreInRange plan.now }
        ensures stands { IfOk result (λ run. Stands plan.now 0 run) }
        ensures mirrors { IfOk result (λ run. Mirrors plan.now 0 run) }
    {
        let artists = artist_query(alloc)?;
        let years = year_query(alloc)?;
        Ok(Run {
            draws: Draws { state: plan.number },
            log: EditLog::new(alloc),
            store: ItemStore::open(alloc, plan.keep),
            first: RehearsedMirror::new(alloc, None, 1),
            second: RehearsedMirror::new(alloc, Some(artists), 3),
            third: RehearsedMirror::new(alloc, Some(years), 300),
        })
    }

    // Runs all batches of the plan and returns their summary.
    pub(crate) fn play(
        &mut self,
        alloc: Global,
        table: &CodeTable,
        plan: &Rehearsal,
    ) -> Result<Vec<u8>, AllocError>
        requires table { table.now ≡ standard_rows }
        requires range { AreInRange plan.now }
        requires stands { Stands plan.now 0 self.old }
        requires mirrors { Mirrors plan.now 0 self.old }
        ensures summary { IfOk result
            (λ text. text.items ≡ summary_text plan.now.keep (batches_of plan.now)) }
        ensures whole { OnOk result (self.new.log.entries ≡ history_of (batches_of plan.now)) }
        ensures part { OnErr result (HasFirst (batches_of plan.now) self.new.log.entries) }
    {
        for n in 0..plan.batches {
            self.step(alloc, table, plan, n)?;
        }
        self.summary(alloc, plan)
    }

    // Returns the history so far.
    pub(crate) fn into_history(self) -> Entries
        ensures { result ≡ self.log.entries }
    {
        Entries::of(self.log.into_entries())
    }

    // Runs the next batch, after `n` others.
    fn step(
        &mut self,
        alloc: Global,
        table: &CodeTable,
        plan: &Rehearsal,
        n: u32,
    ) -> Result<(), AllocError>
        requires table { table.now ≡ standard_rows }
        requires range { AreInRange plan.now }
        requires more { n < plan.now.batches }
        requires stands { Stands plan.now n self.old }
        requires mirrors { Mirrors plan.now n self.old }
        ensures stands { OnOk result (Stands plan.now (n + 1) self.new) }
        ensures mirrors { OnOk result (Mirrors plan.now (n + 1) self.new) }
        ensures part { OnErr result (HasFirst (batches_of plan.now) self.new.log.entries) }
    {
        self.edit(alloc, plan, n)?;
        self.follow(alloc, table, plan, n)
    }

    fn edit(&mut self, alloc: Global, plan: &Rehearsal, n: u32) -> Result<(), AllocError>
        requires range { AreInRange plan.now }
        requires more { n < plan.now.batches }
        requires stands { Stands plan.now n self.old }
        ensures stands { OnOk result (Stands plan.now (n + 1) self.new) }
        ensures kept { OnErr result (self.new.log.entries ≡ self.old.log.entries) }
        ensures first { self.new.first ≡ self.old.first }
        ensures second { self.new.second ≡ self.old.second }
        ensures third { self.new.third ≡ self.old.third }
    {
        let batch = batch(alloc, &mut self.draws, plan.size)?;
        self.log.reserve(1)?;
        self.store
            .apply(batch.edits.as_slice(), self.log.revision() + 1)?;
        self.log.append(Entry::Edits { by: 0, batch });
        Ok(())
    }

    fn follow(
        &mut self,
        alloc: Global,
        table: &CodeTable,
        plan: &Rehearsal,
        n: u32,
    ) -> Result<(), AllocError>
        requires table { table.now ≡ standard_rows }
        requires few { n < 65536 }
        requires stands { Stands plan.now (n + 1) self.old }
        requires mirrors { Mirrors plan.now n self.old }
        ensures stands { Stands plan.now (n + 1) self.new }
        ensures mirrors { OnOk result (Mirrors plan.now (n + 1) self.new) }
    {
        self.first.after_batch(alloc, table, &self.store, plan, n)?;
        self.second.after_batch(alloc, table, &self.store, plan, n)?;
        self.third.after_batch(alloc, table, &self.store, plan, n)
    }

    // Returns the summary after the last batch.
    fn summary(&self, alloc: Global, plan: &Rehearsal) -> Result<Vec<u8>, AllocError>
        requires range { AreInRange plan.now }
        requires stands { Stands plan.now plan.now.batches self.now }
        requires mirrors { Mirrors plan.now plan.now.batches self.now }
        ensures { IfOk result (λ text. text.items
            ≡ summary_text plan.now.keep (batches_of plan.now)) }
    {
        summary(
            alloc,
            self.store.revision(),
            self.store.count(),
            self.first.standing(),
            self.second.standing(),
            self.third.standing(),
        )
    }
}
