//! `records_import`: records with their batches, and with their errors.

use csv::ByteRecord;
use dmap_tags::Bytes;
use item_model::Batch;
use records_import::{
    MOST_RECORDS, RecordError, cell, read_batch, read_number, rows_of, write_batch, write_rows,
};
use std::alloc::{AllocError, Global};
use std::process::Abort;
use std::test::Fail;

/// What the default form handles: a byte order mark, three ends of line, a blank line, quotes, and a last row without
/// an end.
const MARKED: &[u8] = b"\xEF\xBB\xBFop,kind\r\n\r\nput,\"a,\"\"b\"\"\"\rx\n,";

/// Cells of these rows, by row and column, and the bytes.
const CELLS: [(usize, usize, &[u8]); 4] = [
    (0, 0, b"op"),
    (0, 1, b"kind"),
    (1, 1, b"a,\"b\""),
    (2, 1, b""),
];

fn cell_at(rows: &[ByteRecord], row: usize, column: usize) -> Option<&[u8]> {
    Some(cell(rows.get(row)?, column))
}

fn have_cells(rt: &impl Abort, rows: &[ByteRecord], cells: &[(usize, usize, &[u8])]) {
    for (row, column, bytes) in cells {
        assert_eq!(rt; cell_at(rows, *row, *column), Some(*bytes));
    }
}

#[test]
fn rows_are_cut_as_csv_does(rt: HostRuntime) -> Result<(), Fail> {
    let rows = rows_of(rt.alloc(), MARKED, 10)?;
    assert_eq!(rt; rows.len(), 4);
    have_cells(&rt, rows.as_slice(), &CELLS);
    Ok(())
}

/// Cells with their numbers.
const NUMBERS: [(&[u8], Option<u128>); 5] = [
    (b"007", Some(7)),
    (b"99999999999999999999", Some(99_999_999_999_999_999_999)),
    (b"", None),
    (b"000000000000000000001", None),
    (b"19x", None),
];

fn are_numbers(rt: &impl Abort, cases: &[(&[u8], Option<u128>)]) {
    for (cell, number) in cases {
        assert_eq!(rt; read_number(*cell, 20), *number);
    }
}

#[test]
fn numbers_are_one_to_twenty_digits(rt: HostRuntime) {
    are_numbers(&rt, &NUMBERS);
}

#[test]
fn rows_are_written_a_line_each(rt: HostRuntime) -> Result<(), Fail> {
    let text = b"op,kind,id\nput,\"a,\"\"b\",7,\n".as_slice();
    let rows = rows_of(rt.alloc(), text, 2)?;
    assert_eq!(rt; write_rows(rt.alloc(), rows.as_slice())?.as_slice(), text);
    Ok(())
}

const HEADER: &str = "op,kind,id,dmap.itemname,daap.songyear,query,list,item\n";

fn below(alloc: Global, header: &str, records: &str) -> Result<String, AllocError> {
    let mut text = String::from_str(alloc, header)?;
    text.push_str(records)?;
    Ok(text)
}

/// Returns the batch of a text, or its error. It has no clauses, so that a test's proof unfolds no batch.
fn batch_of(alloc: Global, text: &[u8]) -> Result<Batch, RecordError> {
    read_batch(alloc, text)
}

/// Returns the error of a text, as it is shown.
fn refusal(alloc: Global, text: &[u8]) -> Result<String, AllocError> {
    let error = batch_of(alloc, text).err();
    format!(in alloc; "{error:?}")
}

#[test]
fn a_batch_ends_at_65536_records(rt: HostRuntime) -> Result<(), Fail> {
    let mut text = Vec::from_slice(rt.alloc(), b"op,kind,id\n")?;
    for _ in 0..MOST_RECORDS {
        text.extend_from_slice(b"drop,item,1\n")?;
    }
    text.extend_from_slice(b"x\n")?;
    assert_eq!(rt;
        refusal(rt.alloc(), text.as_slice())?.as_str(),
        "Some(TooMany { row: 65537 })"
    );
    Ok(())
}

/// The header of written records.
const WRITTEN_HEADER: &str =
    "op,kind,id,dmap.itemname,dmap.itemkind,dmap.persistentid,daap.songartist,daap.songalbum,daap.songalbumartist,daap.songgenre,daap.songcomposer,daap.songcomment,daap.songgrouping,daap.songformat,daap.songyear,daap.songtracknumber,daap.songtrackcount,daap.songdiscnumber,daap.songdisccount,daap.songbitrate,daap.songbeatsperminute,daap.songtime,daap.songsamplerate,daap.songsize,daap.songuserrating,daap.songcompilation,com.apple.itunes.mediakind,daap.songdateadded,daap.songdatemodified,query,list,item\n";

/// Returns the text that is written for the batch of a text.
fn rewritten(alloc: Global, text: &[u8]) -> Result<Bytes, Fail> {
    let batch = read_batch(alloc, text)?;
    Ok(write_batch(alloc, &batch)?)
}

/// Records below the short header, and their written text.
const WRITTEN_RECORDS: [(&str, &str); 9] = [
    (
        "put,item,7,A,,,,\n",
        "put,item,7,A,,,,,,,,,,,,,,,,,,,,,,,,,,,,\n",
    ),
    (
        "put,item,4294967295,,0,,,\n",
        "put,item,4294967295,,,,,,,,,,,,0,,,,,,,,,,,,,,,,,\n",
    ),
    (
        "put,item,007,,0065535,,,\n",
        "put,item,7,,,,,,,,,,,,65535,,,,,,,,,,,,,,,,,\n",
    ),
    (
        "drop,item,2,,,,,\n",
        "drop,item,2,,,,,,,,,,,,,,,,,,,,,,,,,,,,,\n",
    ),
    (
        "put,list,3,\"a,\"\"b\"\"\nc\",,,,\n",
        "put,list,3,\"a,\"\"b\"\"\nc\",,,,,,,,,,,,,,,,,,,,,,,,,,,,\n",
    ),
    (
        "put,rule,4,C,, ( 'a:1' ++'b!:2*' ) ,,\n",
        "put,rule,4,C,,,,,,,,,,,,,,,,,,,,,,,,,,'a:1' 'b!:2*',,\n",
    ),
    (
        "drop,list,5,,,,,\n",
        "drop,list,5,,,,,,,,,,,,,,,,,,,,,,,,,,,,,\n",
    ),
    (
        "put,member,6,,,,7,8\n",
        "put,member,6,,,,,,,,,,,,,,,,,,,,,,,,,,,,7,8\n",
    ),
    (
        "drop,member,9,,,,10,\n",
        "drop,member,9,,,,,,,,,,,,,,,,,,,,,,,,,,,,10,\n",
    ),
];

/// Checks that a text is written as `want`, and `want` as itself.
fn is_written(rt: &impl Abort, alloc: Global, text: &str, want: &str) -> Result<(), Fail> {
    let got = rewritten(alloc, text.as_bytes())?;
    assert!(rt; got.as_slice() == want.as_bytes(), "{text}");
    let again = rewritten(alloc, got.as_slice())?;
    assert!(rt; again.as_slice() == want.as_bytes(), "{text}");
    Ok(())
}

fn are_written(rt: &impl Abort, alloc: Global, cases: &[(&str, &str)]) -> Result<(), Fail> {
    for (record, written) in cases {
        let text = below(alloc, HEADER, *record)?;
        let want = below(alloc, WRITTEN_HEADER, *written)?;
        is_written(rt, alloc, text.as_str(), want.as_str())?;
    }
    Ok(())
}

#[test]
fn each_edit_is_written_by_its_line(rt: HostRuntime) -> Result<(), Fail> {
    are_written(&rt, rt.alloc(), &WRITTEN_RECORDS)
}

#[test]
fn a_header_is_above_all_edits(rt: HostRuntime) -> Result<(), Fail> {
    let text = rewritten(rt.alloc(), b"")?;
    assert!(rt; text.as_slice() == WRITTEN_HEADER.as_bytes());
    Ok(())
}
