//! `song_query`: the shortest texts of queries, and which texts a pattern matches.

use dmap_tags::Text;
use item_model::Query;
use song_query::{is_glob, print, read};
use std::alloc::Global;
use std::process::Abort;
use std::test::Fail;

/// Queries with their shortest texts.
const REPRINTS: [(&str, &str); 12] = [
    (" + 'a:x' + ", "'a:x'"),
    ("'a:x'+'b!:y'", "'a:x' 'b!:y'"),
    ("( ('a:x') )", "'a:x'"),
    ("('a:x' 'b:y'),'c:z'", "'a:x' 'b:y','c:z'"),
    ("('a:x' 'b:y') 'c:z'", "('a:x' 'b:y') 'c:z'"),
    (
        "(('a:x','b:y','c:z')) 'd:w' 'e:v'",
        "('a:x','b:y','c:z') 'd:w' 'e:v'",
    ),
    ("'a:x','b:y','c:z'", "'a:x','b:y','c:z'"),
    ("'a:(,) +!:\"'", "'a:(,) +!:\"'"),
    ("'a:\\'\\*\\\\'", "'a:\\'\\*\\\\'"),
    ("'a:\\\\*\\\\\\*'", "'a:\\\\*\\\\\\*'"),
    ("'a:\u{e9}\\\u{e9}'", "'a:\u{e9}\\\u{e9}'"),
    ("'a<:1'+'b>::'", "'a<:1' 'b>::'"),
];

/// Returns the shortest text of the query in a text.
fn printed(alloc: Global, text: &str) -> Result<Text, Fail> {
    let query = read(alloc, text)?;
    Ok(print(alloc, &query)?)
}

fn are_printed(rt: &impl Abort, alloc: Global, cases: &[(&str, &str)]) -> Result<(), Fail> {
    for (text, wanted) in cases {
        assert_eq!(rt; printed(alloc, *text)?.as_str(), *wanted, "{text}");
    }
    Ok(())
}

#[test]
fn a_text_reads_as_the_query_that_is_printed(rt: HostRuntime) -> Result<(), Fail> {
    are_printed(&rt, rt.alloc(), &REPRINTS)
}

/// Patterns of conditions, each with a text and whether it matches.
const MATCHES: [(&str, &str, bool); 18] = [
    ("'a:ab'", "ab", true),
    ("'a:ab'", "abc", false),
    ("'a:ab'", "xab", false),
    ("'a:a*'", "a", true),
    ("'a:*a'", "a", true),
    ("'a:*a'", "ab", false),
    ("'a:*'", "", true),
    ("'a:*a*'", "bab", true),
    ("'a:*a*'", "bb", false),
    ("'a:a*b*'", "ab", true),
    ("'a:a*b*'", "ba", false),
    ("'a:a*bc*'", "axbc", true),
    ("'a:ab*ba'", "aba", false),
    ("'a:ab*ba'", "abba", true),
    ("'a:*ab*ab'", "abxab", true),
    ("'a:*ab*ab'", "xab", false),
    ("'a:a*b*c'", "acb", false),
    ("'a:A*C'", "abc", true),
];

/// Returns whether the pattern of a query with one condition matches a text.
fn does_match(alloc: Global, query: &str, text: &str) -> Result<bool, Fail> {
    match read(alloc, query)? {
        Query::Cond(cond) => Ok(is_glob(&cond.pattern, text)),
        _ => Ok(false),
    }
}

#[test]
fn a_pattern_matches_its_parts_in_order(rt: HostRuntime) -> Result<(), Fail> {
    for (query, text, wanted) in &MATCHES {
        assert_eq!(rt;
            does_match(rt.alloc(), *query, *text)?,
            *wanted,
            "{query} {text}"
        );
    }
    Ok(())
}
