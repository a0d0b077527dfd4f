// Batches of edits, read from records.

ghost use Rattle.std.specs.Prelude.{◌≡◌, ◌≢◌, ◌≤◌, length, map, Ok, Err, IfOk, MatchResult};
ghost use Rattle.csv.specs.Records.{fields_of};
ghost use Rattle.item_model.specs.Valid.{AreValid};
ghost use Rattle.records_import.specs.Limits.{most_records};
ghost use Rattle.records_import.specs.Records.{BatchReads, RecordsAnswer};
ghost use Rattle.records_import.specs.Table.{table_of};

use crate::header::{Column, read_header};
use crate::record::read_record;
use crate::refusal::RecordError;
use crate::table::rows_of;
use csv::ByteRecord;
use item_model::{Batch, Edits};
use std::alloc::Global;

/// The maximum number of records in a batch.
pub const MOST_RECORDS: usize = 65_536;

/// Returns the batch of comma separated records below a header. A text without rows is the empty batch. If a record
/// is malformed, the whole batch is refused.
pub fn read_batch(alloc: Global, bytes: &[u8]) -> Result<Batch, RecordError>
    ensures exact { MatchResult result (λ batch. BatchReads (table_of bytes.now) (Ok batch))
        (λ e. e ≢ RecordError.Memory → BatchReads (table_of bytes.now) (Err e)) }
    ensures valid { IfOk result (λ batch. AreValid batch) }
    ensures few { IfOk result (λ batch. length batch ≤ most_records) }
{
    // The header, the records of the largest batch, and one more, which shows that there are too many.
    let rows = rows_of(alloc, bytes, MOST_RECORDS + 2)?;
    read_rows(alloc, rows.as_slice())
}

#[tactic(auto, unfolding(crate::specs::Records::BatchReads))]
fn read_rows(alloc: Global, rows: &[ByteRecord]) -> Result<Batch, RecordError>
    ensures { MatchResult result (λ batch. BatchReads (map fields_of rows.now) (Ok batch))
        (λ e. e ≢ RecordError.Memory → BatchReads (map fields_of rows.now) (Err e)) }
{
    match rows {
        [] => Ok(Batch {
            edits: Edits::new(alloc),
        }),
        [header, records @ ..] => {
            let header = read_header(alloc, header)?;
            let edits = read_records(alloc, header.columns.as_slice(), records)?;
            Ok(Batch { edits })
        }
    }
}

fn read_records(
    alloc: Global,
    columns: &[Column],
    records: &[ByteRecord],
) -> Result<Edits, RecordError>
    ensures { MatchResult result
        (λ edits. RecordsAnswer columns.now 1 (map fields_of records.now) (Ok edits))
        (λ e. e ≢ RecordError.Memory
        → RecordsAnswer columns.now 1 (map fields_of records.now) (Err e)) }
{
    let mut edits = Edits::new(alloc);
    for (place, cells) in records.iter().enumerate() {
        edits.push(read_record(alloc, place as u64 + 1, columns, cells)?)?;
    }
    Ok(edits)
}
