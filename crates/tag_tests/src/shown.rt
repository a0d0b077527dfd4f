//! `dmap_show`: tags of a learned table with the lines that show them, and texts with the line at which they are refused.

use crate::tables::learned;
use code_table::CodeTable;
use dmap_show::{ShowError, read_show, show};
use dmap_stream::{Limits, read_tag};
use dmap_tags::{Text, encode_into};
use std::alloc::Global;
use std::process::Abort;
use std::test::Fail;

/// Returns the text of the tag that bytes encode.
fn text_of(alloc: Global, bytes: &[u8], table: &CodeTable) -> Result<Text, Fail> {
    let (tag, _) = read_tag(alloc, bytes, table, Limits { top: 1000 })?;
    Ok(show(alloc, &[tag])?)
}

/// Returns the bytes of the tags that a text shows.
fn bytes_of(alloc: Global, text: &str, table: &CodeTable) -> Result<Vec<u8>, Fail> {
    let tags = read_show(alloc, text, table)?;
    let mut bytes = Vec::new(alloc);
    for tag in tags.as_slice() {
        encode_into(tag, &mut bytes)?;
    }
    Ok(bytes)
}

/// Texts of tags of a learned table, with the bytes of the tags.
const OF_EACH_KIND: [(&str, &[u8]); 12] = [
    ("zzz1 u8 255\n", b"zzz1\0\0\0\x01\xff"),
    ("zzz2 i8 -128\n", b"zzz2\0\0\0\x01\x80"),
    ("zzz3 u16 65535\n", b"zzz3\0\0\0\x02\xff\xff"),
    ("zzz4 i16 -1\n", b"zzz4\0\0\0\x02\xff\xff"),
    ("zzz5 u32 4294967295\n", b"zzz5\0\0\0\x04\xff\xff\xff\xff"),
    ("zzz6 i32 -2147483648\n", b"zzz6\0\0\0\x04\x80\0\0\0"),
    (
        "zzz7 u64 18446744073709551615\n",
        b"zzz7\0\0\0\x08\xff\xff\xff\xff\xff\xff\xff\xff",
    ),
    (
        "zzz8 i64 -9223372036854775808\n",
        b"zzz8\0\0\0\x08\x80\0\0\0\0\0\0\0",
    ),
    (
        "zzz9 text \"a\\\"b\\\\c\\x0a\\x00\\x1f\\x7f \u{e9}\"\n",
        b"zzz9\0\0\0\x0ca\"b\\c\n\0\x1f\x7f \xc3\xa9",
    ),
    ("zzza date 1700000000\n", b"zzza\0\0\0\x04\x65\x53\xf1\0"),
    (
        "zzzb version 65535.255.0\n",
        b"zzzb\0\0\0\x04\xff\xff\xff\0",
    ),
    (
        "zzzc list\n  zzzc list\n    zzz2 i8 0\n  zzz1 u8 7\n",
        b"zzzc\0\0\0\x1azzzc\0\0\0\x09zzz2\0\0\0\x01\0zzz1\0\0\0\x01\x07",
    ),
];

/// Checks that bytes are shown as these texts, and that the texts are read back as the bytes.
fn go_there_and_back(
    rt: &impl Abort,
    alloc: Global,
    table: &CodeTable,
    cases: &[(&str, &[u8])],
) -> Result<(), Fail> {
    for (text, bytes) in cases {
        let shown = text_of(alloc, *bytes, table)?;
        assert_eq!(rt; shown.as_str(), *text);
        let read = bytes_of(alloc, *text, table)?;
        assert_eq!(rt; read.as_slice(), *bytes);
    }
    Ok(())
}

#[test]
fn tags_are_shown_and_read_back(rt: HostRuntime) -> Result<(), Fail> {
    let alloc = rt.alloc();
    go_there_and_back(&rt, alloc, &learned(alloc)?, &OF_EACH_KIND)
}

/// Returns the error of a text.
fn refusal(alloc: Global, text: &str, table: &CodeTable) -> Option<ShowError> {
    read_show(alloc, text, table).err()
}

/// Texts that are refused under the learned table, with the line.
const UNREADABLE_AS_LEARNED: [(&str, u64); 4] = [
    ("zzzz opaque #0102\n", 1),
    ("zzz2 i8 127\nzzz2 i8 128\n", 2),
    ("zzzc list\n  zzz2 i8 0\n  zzz2 i8 -0\n", 3),
    ("zzz7 u64 18446744073709551616\n", 1),
];

fn are_refused(
    rt: &impl Abort,
    alloc: Global,
    table: &CodeTable,
    cases: &[(&str, u64)],
) -> Result<(), Fail> {
    for (text, line) in cases {
        let want = Some(ShowError::Line { line: *line });
        assert_eq!(rt; refusal(alloc, *text, table), want, "{text}");
    }
    Ok(())
}

#[test]
fn a_text_is_refused_at_its_first_bad_line(rt: HostRuntime) -> Result<(), Fail> {
    let alloc = rt.alloc();
    are_refused(&rt, alloc, &learned(alloc)?, &UNREADABLE_AS_LEARNED)
}
