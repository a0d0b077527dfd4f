//! `item_model`: projections byte for byte, folded names, and texts of the `meta` parameter.

use dmap_tags::{Code, Text, encode_into};
use item_model::{Item, ItemError, Meta, MetaError, PropValue, Property, Row, folded, project};
use std::alloc::{AllocError, Global};
use std::process::Abort;
use std::test::Fail;

// Without clauses, so that a test's proof unfolds no call of `put` or `read`.
fn put(item: &mut Item, property: Property, value: PropValue) -> Result<(), ItemError> {
    item.put(property, value)
}

fn read(alloc: Global, text: &str) -> Result<Meta, MetaError> {
    Meta::read(alloc, text)
}

/// A property with a number, or with a text if there is none.
type Value<'a> = (Property, Option<u64>, &'a str);

fn value_of(alloc: Global, value: &Value<'_>) -> Result<PropValue, AllocError> {
    match value.1 {
        Some(number) => Ok(PropValue::Number(number)),
        None => Ok(PropValue::Text(Text::of(alloc, value.2)?)),
    }
}

fn put_values(alloc: Global, item: &mut Item, values: &[Value<'_>]) -> Result<(), ItemError> {
    for value in values {
        put(item, value.0, value_of(alloc, value)?)?;
    }
    Ok(())
}

fn item_of(alloc: Global, values: &[Value<'_>]) -> Result<Item, ItemError> {
    let mut item = Item::new(alloc);
    put_values(alloc, &mut item, values)?;
    Ok(item)
}

fn named_item(alloc: Global, name: &str) -> Result<Item, ItemError> {
    item_of(alloc, &[(Property::Minm, None, name)])
}

const SONG: [Value<'static>; 5] = [
    (Property::Minm, None, "A"),
    (Property::Asdm, Some(4_294_967_295), ""),
    (Property::Asyr, Some(1983), ""),
    (Property::Mikd, Some(2), ""),
    (Property::Mper, Some(1), ""),
];

fn song(alloc: Global) -> Result<Row, ItemError> {
    let item = item_of(alloc, &SONG)?;
    Ok(Row { id: 7, item })
}

/// Values that are not of the property's kind and range.
const OUT_OF_RANGE: [Value<'static>; 4] = [
    (Property::Minm, None, ""),
    (Property::Minm, Some(1), ""),
    (Property::Asyr, Some(65_536), ""),
    (Property::Asar, Some(1), ""),
];

/// Returns the item's entries and folded texts as they are shown.
fn item_shown(alloc: Global, item: &Item) -> Result<String, AllocError> {
    format!(in alloc; "{item:?}")
}

/// Returns whether each value is refused, and the item shown as before.
fn are_out_of_range(
    alloc: Global,
    item: &mut Item,
    values: &[Value<'_>],
    before: &str,
) -> Result<bool, AllocError> {
    for value in values {
        let result = put(item, value.0, value_of(alloc, value)?);
        if result != Err(ItemError::Range) || item_shown(alloc, item)?.as_str() != before {
            return Ok(false);
        }
    }
    Ok(true)
}

#[test]
fn a_refused_value_leaves_the_item_as_it_was(rt: HostRuntime) -> Result<(), Fail> {
    let mut item = named_item(rt.alloc(), "Straße")?;
    let before = item_shown(rt.alloc(), &item)?;
    assert!(rt; are_out_of_range(rt.alloc(), &mut item, &OUT_OF_RANGE, before.as_str())?);
    Ok(())
}

/// Returns the bytes of a row's tag.
fn encoded(
    alloc: Global,
    row: &Row,
    member: Option<u32>,
    meta: &Meta,
) -> Result<Vec<u8>, AllocError> {
    let tag = project(alloc, row, member, meta)?;
    let mut out = Vec::new(alloc);
    match encode_into(&tag, &mut out) {
        Ok(()) => Ok(out),
        Err(_) => Err(AllocError),
    }
}

#[test]
fn a_member_is_listed_by_its_ids_and_name(rt: HostRuntime) -> Result<(), Fail> {
    let item = named_item(rt.alloc(), "A")?;
    let row = Row { id: 7, item };
    let member = encoded(rt.alloc(), &row, Some(10), &Meta::Default)?;
    assert_eq!(rt;
        member.as_slice(),
        b"mlit\0\0\0\x21mcti\0\0\0\x04\0\0\0\x0amiid\0\0\0\x04\0\0\0\x07minm\0\0\0\x01A".as_slice()
    );
    Ok(())
}

/// The tag of the song with the day of its change and then its name.
const CHANGED_AND_NAMED: &[u8] =
    b"mlit\0\0\0\x21miid\0\0\0\x04\0\0\0\x07asdm\0\0\0\x04\xff\xff\xff\xffminm\0\0\0\x01A";

/// The tag of the song with all its properties.
const WHOLE_SONG: &[u8] =
    b"mlit\0\0\0\x44miid\0\0\0\x04\0\0\0\x07minm\0\0\0\x01Amikd\0\0\0\x01\x02mper\0\0\0\x08\0\0\0\0\0\0\0\x01asyr\0\0\0\x02\x07\xbfasdm\0\0\0\x04\xff\xff\xff\xff";

#[test]
fn properties_come_as_asked_and_once(rt: HostRuntime) -> Result<(), Fail> {
    let row = song(rt.alloc())?;
    let meta = read(
        rt.alloc(),
        "daap.songdatemodified,dmap.itemname,daap.songalbum,daap.songdatemodified",
    )?;
    let asked = encoded(rt.alloc(), &row, None, &meta)?;
    assert_eq!(rt; asked.as_slice(), CHANGED_AND_NAMED);
    Ok(())
}

#[test]
fn all_properties_come_in_their_order(rt: HostRuntime) -> Result<(), Fail> {
    let row = song(rt.alloc())?;
    let all = encoded(rt.alloc(), &row, None, &Meta::All)?;
    assert_eq!(rt; all.as_slice(), WHOLE_SONG);
    Ok(())
}

/// Names with their folded texts, as tools/casefold prints them.
const FOLDINGS: [(&str, &str); 12] = [
    ("Hey Jude", "hey jude"),
    ("Björk", "björk"),
    ("Straße", "strasse"),
    ("GROẞE FREIHEIT", "grosse freiheit"),
    ("Ὀδυσσεύς", "ὀδυσσεύσ"),
    ("ΐ", "ι\u{308}\u{301}"),
    ("ᾳ", "αι"),
    ("Чайковский", "чайковский"),
    ("İstanbul", "i\u{307}stanbul"),
    ("ısparta", "ısparta"),
    ("eﬃcient", "efficient"),
    ("\u{212a}elvin", "kelvin"),
];

fn are_folded(rt: &impl Abort, alloc: Global, cases: &[(&str, &str)]) -> Result<(), Fail> {
    for (name, text) in cases {
        assert_eq!(rt; folded(alloc, *name)?.as_str(), *text);
    }
    Ok(())
}

#[test]
fn names_fold_as_in_another_program(rt: HostRuntime) -> Result<(), Fail> {
    are_folded(&rt, rt.alloc(), &FOLDINGS)
}

#[test]
fn names_and_codes_find_their_properties(rt: HostRuntime) -> Result<(), Fail> {
    let kind = Property::by_name("com.apple.itunes.mediakind");
    assert_eq!(rt; kind, Some(Property::Aemk));
    assert_eq!(rt; Property::by_code(Code(*b"aeMK")), kind);
    assert_eq!(rt; Property::Asdm.rank(), 25);
    Ok(())
}

/// Texts of the parameter, what each reads as, and the text that is printed for it.
const METAS: [(&str, &str, &str); 5] = [
    ("", "Ok(Default)", ""),
    ("all", "Ok(All)", "all"),
    (
        "dmap.itemname,no.such,,daap.songyear,dmap.itemname",
        "Ok(Names(Properties { items: [Minm, Asyr] }))",
        "dmap.itemname,daap.songyear",
    ),
    ("no.such", "Ok(Names(Properties { items: [] }))", ","),
    (",", "Ok(Names(Properties { items: [] }))", ","),
];

/// Returns what a text reads as, as it is shown.
fn meta_shown(alloc: Global, text: &str) -> Result<String, AllocError> {
    let meta = read(alloc, text);
    format!(in alloc; "{meta:?}")
}

fn printed(alloc: Global, text: &str) -> Result<Text, MetaError> {
    Ok(read(alloc, text)?.copy()?.print(alloc)?)
}

fn read_and_print(
    rt: &impl Abort,
    alloc: Global,
    cases: &[(&str, &str, &str)],
) -> Result<(), Fail> {
    for (text, meta, again) in cases {
        assert_eq!(rt; meta_shown(alloc, *text)?.as_str(), *meta);
        assert_eq!(rt; printed(alloc, *text)?.as_str(), *again);
    }
    Ok(())
}

#[test]
fn meta_texts_read_and_print(rt: HostRuntime) -> Result<(), Fail> {
    read_and_print(&rt, rt.alloc(), &METAS)
}

#[test]
fn more_names_than_256_are_too_many(rt: HostRuntime) -> Result<(), Fail> {
    let text = ",".repeat(rt.alloc(), 256)?;
    assert_eq!(rt;
        meta_shown(rt.alloc(), text.as_str())?.as_str(),
        "Err(TooMany)"
    );
    Ok(())
}
