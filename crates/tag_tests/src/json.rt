//! `dmap_json`: tags of a learned table, by the lines that show them, with their JSON texts, and texts with the errors
//! that they get.

use crate::tables::{learned, standard, tag};
use code_table::CodeTable;
use dmap_json::{JsonError, from_json, to_json};
use dmap_show::{read_show, show};
use dmap_tags::{Code, Tags, Text, Value};
use std::alloc::{AllocError, Global};
use std::process::Abort;
use std::test::Fail;

/// Lines of a tag, and its JSON text.
type Pair = (&'static str, &'static str);

/// Tags of the learned table.
const LEARNED: [Pair; 5] = [
    (
        "zzz1 u8 255\n",
        "{\"code\":\"zzz1\",\"kind\":\"u8\",\"value\":255}",
    ),
    (
        "zzz2 i8 -128\n",
        "{\"code\":\"zzz2\",\"kind\":\"i8\",\"value\":-128}",
    ),
    (
        "zzz4 i16 -1\n",
        "{\"code\":\"zzz4\",\"kind\":\"i16\",\"value\":-1}",
    ),
    (
        "zzz7 u64 18446744073709551615\n",
        "{\"code\":\"zzz7\",\"kind\":\"u64\",\"value\":18446744073709551615}",
    ),
    (
        "zzzc list\n",
        "{\"code\":\"zzzc\",\"kind\":\"list\",\"value\":[]}",
    ),
];

/// Texts that are not JSON.
const NO_JSON: [&str; 5] = ["", "{", "{\"code\":\"miid\"}x", "\"\\ud800\"", "1e999"];

/// Texts that are refused at their first value.
const NO_TAG: [&str; 12] = [
    "7",
    "{}",
    "{\"code\":\"miid\",\"kind\":\"u32\"}",
    "{\"code\":\"miid\",\"kind\":\"u32\",\"value\":7,\"x\":0}",
    "{\"code\":7,\"kind\":\"u32\",\"value\":7}",
    "{\"code\":\"x6d696964\",\"kind\":\"u32\",\"value\":7}",
    "{\"code\":\"miid\",\"kind\":\"date\",\"value\":7}",
    "{\"code\":\"miid\",\"kind\":\"opaque\",\"value\":\"00000001\"}",
    "{\"code\":\"miid\",\"kind\":\"u32\",\"value\":-1}",
    "{\"code\":\"miid\",\"kind\":\"u32\",\"value\":7.0}",
    "{\"code\":\"minm\",\"kind\":\"opaque\",\"value\":\"FF\"}",
    "{\"code\":\"mlcl\",\"kind\":\"list\",\"value\":\"\"}",
];

/// Returns the lines of the tag that a text reads as.
fn lines_of(alloc: Global, table: &CodeTable, json: &str) -> Result<Text, Fail> {
    let tag = from_json(alloc, json, table)?;
    Ok(show(alloc, &[tag])?)
}

/// Checks that each text reads as the tag of its lines.
fn all_are_read(
    rt: &impl Abort,
    alloc: Global,
    table: &CodeTable,
    pairs: &[Pair],
) -> Result<(), Fail> {
    for pair in pairs {
        let lines = lines_of(alloc, table, pair.1)?;
        assert_eq!(rt; lines.as_str(), pair.0);
    }
    Ok(())
}

/// Checks that each tag of these lines is written as its text.
fn all_are_written(
    rt: &impl Abort,
    alloc: Global,
    table: &CodeTable,
    pairs: &[Pair],
) -> Result<(), Fail> {
    for pair in pairs {
        let tags = read_show(alloc, pair.0, table)?;
        for tag in tags.as_slice() {
            let text = to_json(alloc, tag, table)?;
            assert_eq!(rt; text.as_str(), pair.1);
        }
    }
    Ok(())
}

/// Checks that each text is refused with this error.
fn all_are_refused(
    rt: &impl Abort,
    alloc: Global,
    table: &CodeTable,
    texts: &[&str],
    error: &JsonError,
) -> Result<(), Fail> {
    for text in texts {
        match from_json(alloc, text, table) {
            Ok(_) => panic!(rt; "{text} is read"),
            Err(cause) => assert!(rt; cause == *error),
        }
    }
    Ok(())
}

/// Returns the text of `levels` lists, each in the one before.
fn nested(alloc: Global, levels: u32) -> Result<String, AllocError> {
    let mut text = String::new(alloc);
    for _ in 0..levels {
        text.push_str("{\"code\":\"mlcl\",\"kind\":\"list\",\"value\":[")?;
    }
    for _ in 0..levels {
        text.push_str("]}")?;
    }
    Ok(text)
}

/// Returns the error of a text.
fn refusal(alloc: Global, table: &CodeTable, text: &str) -> Option<JsonError> {
    from_json(alloc, text, table).err()
}

#[test]
fn tags_of_each_kind_go_there_and_back(rt: HostRuntime) -> Result<(), Fail> {
    let alloc = rt.alloc();
    let table = learned(alloc)?;
    all_are_written(&rt, alloc, &table, &LEARNED)?;
    all_are_read(&rt, alloc, &table, &LEARNED)
}

/// A list whose first member is a tag, whose second has a value outside its kind, and whose third is not an object.
const BAD_MEMBERS: &str =
    "{\"code\":\"mlog\",\"kind\":\"list\",\"value\":[{\"code\":\"mlcl\",\"kind\":\"list\",\"value\":[{\"code\":\"mstt\",\"kind\":\"u32\",\"value\":1}]},{\"code\":\"mlid\",\"kind\":\"u32\",\"value\":-1},7]}";

#[test]
fn other_texts_are_refused_at_their_first_error(rt: HostRuntime) -> Result<(), Fail> {
    let alloc = rt.alloc();
    let table = standard(alloc)?;
    all_are_refused(&rt, alloc, &table, &NO_JSON, &JsonError::Syntax)?;
    all_are_refused(&rt, alloc, &table, &NO_TAG, &JsonError::Shape { index: 0 })?;
    let third = refusal(alloc, &table, BAD_MEMBERS);
    assert!(rt; third == Some(JsonError::Shape { index: 3 }));
    Ok(())
}

/// Returns the text of a list around the tag that a text reads as, or the error of writing it.
fn written_deeper(alloc: Global, table: &CodeTable, text: &str) -> Result<Text, JsonError> {
    let mut members = Tags::new(alloc);
    members.push(from_json(alloc, text, table)?)?;
    to_json(alloc, &tag(Code(*b"mlcl"), Value::List(members)), table)
}

#[test]
fn a_tag_has_32_levels_at_most(rt: HostRuntime) -> Result<(), Fail> {
    let alloc = rt.alloc();
    let table = standard(alloc)?;
    let text = nested(alloc, 32)?;
    assert!(rt; written_deeper(alloc, &table, text.as_str()).err() == Some(JsonError::Unfit));
    let deep = refusal(alloc, &table, nested(alloc, 33)?.as_str());
    assert!(rt; deep == Some(JsonError::Shape { index: 32 }));
    Ok(())
}
