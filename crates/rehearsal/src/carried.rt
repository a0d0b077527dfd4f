//! Carries a plan to a mirror as bytes: it is written into memory, and read back as a tag.

ghost use Rattle.std.specs.Prelude.{◌≡◌, Some, IfOk};
ghost use Rattle.dmap_tags.specs.Tree.{Tree};
ghost use Rattle.code_table.specs.Standard.{standard_rows};
ghost use Rattle.listing_plan.specs.Plans.{plan_bytes, IsWritable};
ghost use Rattle.rehearsal.specs.Carried.{IsCarried};

use code_table::CodeTable;
use dmap_stream::{Limits, StreamError, read_tag};
use dmap_tags::Tag;
use listing_plan::Plan;
use outside_net::{MemSink, Sink};
use std::alloc::{AllocError, Global};

/// The most bytes of payload that a mirror reads of one tag.
const TOP_LIMIT: u32 = 1_073_741_824;

/// Returns the tag that a plan writes, as a mirror reads it.
pub(crate) fn carry_plan(alloc: Global, table: &CodeTable, plan: &Plan) -> Result<Tag, AllocError>
    requires table { table.now ≡ standard_rows }
    requires writable { IsWritable plan.now }
    requires tag { (t : Tree) × IsCarried t (plan_bytes plan.now) }
    ensures { IfOk result (λ tag. (t : Tree) → IsCarried t (plan_bytes plan.now) → tag ≡ t) }
{
    let sink = write_plan(alloc, plan)?;
    read(alloc, table, sink.taken())
}

fn write_plan(alloc: Global, plan: &Plan) -> Result<MemSink, AllocError>
    requires { IsWritable plan.now }
    ensures { IfOk result (λ sink. ⟦<MemSink as Sink>⟧.taken sink ≡ Some (plan_bytes plan.now)) }
{
    let room = plan.body_len() as usize;
    let mut sink = MemSink::new(alloc, room, usize::MAX, &[])?;
    match plan.write(&mut sink) {
        Ok(()) => Ok(sink),
        // The capacity is that of all bytes. No contract says what else a sink fails for.
        Err(_) => Err(AllocError),
    }
}

fn read(alloc: Global, table: &CodeTable, bytes: &[u8]) -> Result<Tag, AllocError>
    requires table { table.now ≡ standard_rows }
    requires tag { (t : Tree) × IsCarried t bytes.now }
    ensures { IfOk result (λ tag. (t : Tree) → IsCarried t bytes.now → tag ≡ t) }
{
    match read_tag(alloc, bytes, table, Limits { top: TOP_LIMIT }) {
        Ok((tag, _)) => Ok(tag),
        Err(error) => Err(want_of_memory(error)),
    }
}

// Converts the only error that can occur here.
fn want_of_memory(error: StreamError) -> AllocError
    requires { error ≡ StreamError.Memory }
{
    match error {
        StreamError::Memory => AllocError,
        _ => unreachable!(),
    }
}
