//! The command `list`: the full listing of a share that is opened with the records of the input.

ghost use Rattle.std.specs.Prelude.{◌≡◌, ◌≤◌, List, length, Some, option_copied, IfOk, IfErr};
ghost use Rattle.item_model.specs.declared.changes.Edit.{Edit};
ghost use Rattle.listing_plan.specs.Plans.{plan_bytes, IsWritable};
ghost use Rattle.command_core.specs.Seen.{Around, input_of, output_of, run_over_streams, share_with};
ghost use Rattle.command_core.specs.Answers.{WritesDone};
ghost use Rattle.command_core.specs.Endings.{IsAnswered};
ghost use Rattle.share_commands.specs.ListShare.{listing_bytes, IsOpened, StopsOpening, WritesListing, list_line, list_status, input_fault, library_fault, list_meaning};
ghost use Rattle.share_commands.specs.Openings.{HasOpened};

use crate::look::look_of;
use crate::opening::{Opened, open};
use command_core::{Fault, InputFault, Outcome, Refusal, out_of_memory, read_records, write_error};
use dmap_tags::Text;
use fault_lines::{query_line, records_line};
use item_model::{Entries, Look, QueryError, Target};
use listing_plan::Plan;
use outside_net::{Failed, Sink, Source};
use records_import::RecordError;
use share_history::MAX_LISTS;
use share_listings::{full_target, is_there};
use std::alloc::{AllocError, Global};

/// Errors of `list`. Out of memory is `Fault::Memory`.
#[derive(Drop)]
pub enum ListFault {
    /// The query of `--query` is refused.
    Query(QueryError),
    /// The list of `--meta` has too many names.
    Meta,
    /// The input has more than 4,194,304 bytes.
    TooLong,
    /// Its records are refused.
    Records(RecordError),
    /// They leave more lists than a share may have.
    TooManyLists,
    /// They leave no such container.
    NoList,
}

impl Refusal for ListFault {
    ghost error_line = { list_line };

    ghost error_status = { list_status };

    fn line(&self, alloc: Global) -> Result<Vec<u8>, AllocError> {
        match self {
            ListFault::Query(error) => query_line(alloc, error),
            ListFault::Meta => Vec::from_slice(alloc, b"meta: too many names\n"),
            ListFault::TooLong => Vec::from_slice(alloc, b"limit: input\n"),
            ListFault::Records(error) => records_line(alloc, error),
            ListFault::TooManyLists => Vec::from_slice(alloc, b"limit: library\n"),
            ListFault::NoList => Vec::from_slice(alloc, b"list: none\n"),
        }
    }

    fn status(&self) -> u8 {
        match self {
            ListFault::Query(_) | ListFault::Meta | ListFault::Records(_) | ListFault::NoList => 3,
            ListFault::TooLong | ListFault::TooManyLists => 8,
        }
    }
}

/// Runs `list`: opens a share with the records of the input, and writes the listing of `target`. `query` selects its
/// rows, and `meta` the properties that they show.
pub fn list_share<I: Source, W: Sink>(
    alloc: Global,
    query: Option<&Text>,
    meta: Option<&Text>,
    target: Target,
    input: &mut I,
    output: &mut W,
) -> Outcome
    ensures { (around : Around)
        → IsAnswered (list_meaning (option_copied query.entry) (option_copied meta.entry) target)
        (run_over_streams around
        (input_of I.Source input.old)
        (input_of I.Source input.new)
        (output_of W.Sink output.old)
        (output_of W.Sink output.new))
        result }
{
    let look = match look_of(alloc, query, meta) {
        Ok(look) => look,
        Err(fault) => return write_error(alloc, output, &fault),
    };
    match open_checked(alloc, target, input) {
        Ok(opened) => write_listed(alloc, opened, target, look, output),
        Err(fault) => write_error(alloc, output, &fault),
    }
}

/// Opens a share with the batch of the input's records, if it has the target.
fn open_checked<I: Source>(
    alloc: Global,
    target: Target,
    input: &mut I,
) -> Result<Opened, Fault<ListFault>>
    ensures opened { IfOk result (λ opened. (edits : List Edit)
        × IsOpened edits target
        (input_of I.Source input.old)
        (input_of I.Source input.new)
        (share_with opened.history)
        × HasOpened edits opened
        × (length edits ≤ 65536)) }
    ensures cause { IfErr result (λ fault. StopsOpening target
        (input_of I.Source input.old)
        (input_of I.Source input.new)
        fault) }
{
    let batch = match read_records(alloc, input) {
        Ok(batch) => batch,
        Err(fault) => return Err(input_fault(fault)),
    };
    let opened = open(alloc, batch)?;
    match library_fault(&opened, target) {
        Some(own) => Err(Fault::Own(own)),
        None => Ok(opened),
    }
}

/// Returns why the share is not listed: it has too many lists, or no such target.
fn library_fault(opened: &Opened, target: Target) -> Option<ListFault>
    ensures { (edits : List Edit) → HasOpened edits opened.now
        → result ≡ library_fault edits target }
{
    if opened.lists.count() as usize > MAX_LISTS {
        return Some(ListFault::TooManyLists);
    }
    if is_there(&opened.lists, target) {
        return None;
    }
    Some(ListFault::NoList)
}

/// Returns the error of `list` for one of the input.
fn input_fault(fault: Fault<InputFault>) -> Fault<ListFault>
    ensures { result ≡ input_fault fault }
{
    match fault {
        Fault::Own(InputFault::TooLong) => Fault::Own(ListFault::TooLong),
        Fault::Own(InputFault::Records(error)) => Fault::Own(ListFault::Records(error)),
        Fault::Read => Fault::Read,
        Fault::Memory => Fault::Memory,
    }
}

/// Writes the listing of an open share. However that ends, the outcome has the share's history.
fn write_listed<W: Sink>(
    alloc: Global,
    opened: Opened,
    target: Target,
    look: Look,
    output: &mut W,
) -> Outcome
    requires { (edits : List Edit) × HasOpened edits opened × (length edits ≤ 65536) }
    ensures history { result.history ≡ Some opened.history }
    ensures told { (edits : List Edit) → HasOpened edits opened
        → WritesListing opened.history (listing_bytes edits target look)
        (output_of W.Sink output.old)
        (output_of W.Sink output.new)
        result }
{
    match plan_listing(alloc, &opened, target, look) {
        Ok(listing) => write_listing(output, &listing, opened.history),
        Err(AllocError) => out_of_memory(output, Some(opened.history)),
    }
}

/// Plans the listing of `target` for `look`.
fn plan_listing(
    alloc: Global,
    opened: &Opened,
    target: Target,
    look: Look,
) -> Result<Plan, AllocError>
    requires { (edits : List Edit) × HasOpened edits opened.now × (length edits ≤ 65536) }
    ensures listing { IfOk result (λ plan. (edits : List Edit) → HasOpened edits opened.now
        → plan_bytes plan ≡ listing_bytes edits target look) }
    ensures writable { IfOk result (λ plan. IsWritable plan) }
{
    full_target(alloc, &opened.items, &opened.lists, target, look)
}

/// Writes `listing`.
fn write_listing<W: Sink>(output: &mut W, listing: &Plan, history: Entries) -> Outcome
    requires { IsWritable listing.now }
    ensures { WritesDone (Some history) (plan_bytes listing.now)
        (output_of W.Sink output.old)
        (output_of W.Sink output.new)
        result }
{
    let status = match listing.write(output) {
        Ok(()) => 0,
        Err(Failed) => 5,
    };
    Outcome {
        status,
        history: Some(history),
    }
}
