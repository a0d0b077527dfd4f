//! `code_table`: the standard table, and tables that responses to `/content-codes` state.

use crate::tables::{code_of, entry, standard, tag};
use code_table::{CodeError, CodeTable};
use dmap_tags::{Code, Kind, Tag, Tags, Value, leaf};
use std::alloc::{AllocError, Global};
use std::process::Abort;
use std::test::Fail;

/// A code with the code of the list around it, and the kind of its values.
type KindOf = (Option<&'static [u8; 4]>, &'static [u8; 4], Kind);

fn has_kinds(rt: &impl Abort, table: &CodeTable, rows: &[KindOf]) {
    for (around, code, kind) in rows {
        let around = match around {
            Some(list) => Some(code_of(*list)),
            None => None,
        };
        assert_eq!(rt; table.kind_of(around, code_of(*code)), *kind);
    }
}

const STANDARD_KINDS: [KindOf; 4] = [
    (None, b"mper", Kind::U64),
    (None, b"mlit", Kind::List),
    (Some(b"abgn"), b"mlit", Kind::Text),
    (Some(b"abgn"), b"zzzz", Kind::Opaque),
];

#[test]
fn the_standard_table_has_the_published_codes(rt: HostRuntime) -> Result<(), Fail> {
    let table = standard(rt.alloc())?.copy()?;
    assert_eq!(rt; table.rows().len(), 73);
    assert!(rt;
        matches!(table.rows(), [first, .., last]
        if first.copy()?.name.as_str() == "dmap.status" && last.code == Code(*b"asdm"))
    );
    has_kinds(&rt, &table, &STANDARD_KINDS);
    assert_eq!(rt; table.by_name("daap.songtime"), Some(Code(*b"astm")));
    assert_eq!(rt; table.by_name("no.such"), None);
    Ok(())
}

#[test]
fn a_tag_fits_if_its_values_have_the_kinds(rt: HostRuntime) -> Result<(), Fail> {
    let table = standard(rt.alloc())?;
    let short = leaf(rt.alloc(), Kind::U32, &[0, 0, 1])?;
    assert!(rt; table.fits(None, &tag(Code(*b"miid"), short)));
    let whole = leaf(rt.alloc(), Kind::Opaque, &[0, 0, 0, 1])?;
    assert!(rt; !table.fits(None, &tag(Code(*b"miid"), whole)));
    let mut members = Tags::new(rt.alloc());
    members.push(tag(Code(*b"miid"), Value::U32(1)))?;
    let list = tag(Code(*b"mlit"), Value::List(members.copy()?));
    assert!(rt; !table.fits(Some(Code(*b"abar")), &list));
    Ok(())
}

/// Returns the table that a response states, or the error if it states none.
fn table_of(alloc: Global, response: &Tag) -> Result<CodeTable, CodeError> {
    CodeTable::from_reply(alloc, response)
}

const ZZZZ_IS_U16: [KindOf; 1] = [(None, b"zzzz", Kind::U16)];

/// Returns the table of the response for the standard table.
fn standard_again(alloc: Global) -> Result<CodeTable, CodeError> {
    let response = standard(alloc)?.reply()?;
    table_of(alloc, &response)
}

#[test]
fn the_standard_table_is_read_from_its_response(rt: HostRuntime) -> Result<(), Fail> {
    let learned = standard_again(rt.alloc())?;
    assert_eq!(rt; learned.rows().len(), 73);
    assert_eq!(rt; learned.by_name("dmap.itemname"), Some(Code(*b"minm")));
    Ok(())
}

#[test]
fn a_response_is_read_as_the_table_that_it_states(rt: HostRuntime) -> Result<(), Fail> {
    let response = response_of(rt.alloc(), &[Member::Status, Member::Entry])?;
    let other = table_of(rt.alloc(), &response)?;
    has_kinds(&rt, &other, &ZZZZ_IS_U16);
    assert_eq!(rt; other.by_name("test.value"), Some(Code(*b"zzzz")));
    Ok(())
}

/// A member of a response.
#[derive(Clone, Copy)]
enum Member {
    Status,
    /// An entry for the code `zzzz`.
    Entry,
    /// A number under an entry's code.
    Leaf,
}

fn tag_of(alloc: Global, member: Member) -> Result<Tag, AllocError> {
    match member {
        Member::Status => Ok(tag(Code(*b"mstt"), Value::U32(200))),
        Member::Entry => entry(alloc, b"zzzz", "test.value", 3),
        Member::Leaf => Ok(tag(Code(*b"mdcl"), Value::U32(3))),
    }
}

/// Returns a response with these members.
fn response_of(alloc: Global, members: &[Member]) -> Result<Tag, AllocError> {
    let mut tags = Tags::new(alloc);
    for member in members {
        tags.push(tag_of(alloc, *member)?)?;
    }
    Ok(tag(Code(*b"mccr"), Value::List(tags)))
}

/// Members of a response that state no table, with the reason.
const NO_TABLE: [(&[Member], CodeError); 4] = [
    (&[Member::Leaf], CodeError::Entry { index: 0 }),
    (
        &[Member::Status, Member::Leaf],
        CodeError::Entry { index: 1 },
    ),
    (
        &[Member::Entry, Member::Status, Member::Entry, Member::Leaf],
        CodeError::Repeated { index: 2 },
    ),
    (
        &[Member::Entry, Member::Leaf, Member::Entry],
        CodeError::Entry { index: 1 },
    ),
];

fn state_no_table(
    rt: &impl Abort,
    alloc: Global,
    cases: &[(&[Member], CodeError)],
) -> Result<(), Fail> {
    for (members, error) in cases {
        let refused = table_of(alloc, &response_of(alloc, *members)?).err();
        assert_eq!(rt; refused, Some(*error));
    }
    Ok(())
}

#[test]
fn a_member_that_states_no_row_is_named_by_its_index(rt: HostRuntime) -> Result<(), Fail> {
    state_no_table(&rt, rt.alloc(), &NO_TABLE)
}

#[test]
fn only_a_list_of_content_codes_states_a_table(rt: HostRuntime) -> Result<(), Fail> {
    let leaf = tag(Code(*b"mccr"), Value::U32(200));
    assert_eq!(rt;
        table_of(rt.alloc(), &leaf).err(),
        Some(CodeError::NotReply)
    );
    Ok(())
}
