//! A plan of many rows, and a sink for it.

ghost use Rattle.std.specs.Prelude.{◌≡◌, None, IfOk};
ghost use Rattle.item_model.specs.declared.request.Target.TheVariants.{Items};
ghost use Rattle.listing_plan.specs.Plans.{AreRowsOf, IsWritable};

use crate::store::song::song;
use anyhow::{Context, ensure};
use item_model::{Meta, SharedRow, Target};
use listing_plan::{MAX_ROWS, Plan, PlanRow};
use outside_net::{MemSink, Sink};
use std::alloc::Global;

/// A plan, and a sink with space for its bytes.
#[derive(Drop)]
pub struct PlannedWrite {
    plan: Plan,
    sink: MemSink,
    ghost writable: { IsWritable plan },
}

impl PlannedWrite {
    pub fn plan_len(&self) -> u64 {
        self.plan.body_len()
    }
}

/// Returns the rows of the first songs. Fails if a plan may not have as many.
pub fn rows(alloc: Global, songs: u32) -> anyhow::Result<Vec<PlanRow>>
    ensures { IfOk result (λ rows. AreRowsOf Items rows.items) }
{
    ensure!(songs as usize <= MAX_ROWS, "too many songs");
    let mut rows = Vec::new(alloc);
    for id in 0..songs {
        rows.push(row(alloc, id)?)?;
    }
    Ok(rows)
}

fn row(alloc: Global, id: u32) -> anyhow::Result<PlanRow>
    ensures alone { IfOk result (λ row. row.member ≡ None) }
    ensures id { IfOk result (λ row. row.row.id ≡ id) }
{
    Ok(PlanRow {
        member: None,
        row: SharedRow::new(alloc, song(alloc, id)?)?,
    })
}

/// Returns the plan of the full listing of the first songs, with its sink.
pub fn planned(alloc: Global, songs: u32) -> anyhow::Result<PlannedWrite> {
    let plan = Plan::full(Target::Items, 3, songs, rows(alloc, songs)?, Meta::Default);
    let room = plan.body_len() as usize;
    Ok(PlannedWrite {
        plan,
        sink: MemSink::new(alloc, room, usize::MAX, &[])?,
    })
}

/// Writes the plan to its sink, and returns how many bytes the sink has then.
pub fn written(planned: PlannedWrite) -> anyhow::Result<u64> {
    let PlannedWrite { plan, sink } = planned;
    let mut sink = sink;
    plan.write(&mut sink).ok().context("sink")?;
    Ok(sink.taken().len() as u64)
}
