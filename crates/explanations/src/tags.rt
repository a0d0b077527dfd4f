//! Why bytes are refused as tags, with the head of the tag.

use code_table::CodeTable;
use dmap_show::show_code;
use dmap_stream::{Limits, StreamError, read_tag};
use dmap_tags::Code;
use std::alloc::{AllocError, Global};

/// The maximum payload of a top tag that `check` and `show` read, and that `json` reads, in bytes.
pub const TAG_BYTES: u32 = 1_073_741_824;

pub const JSON_TAG_BYTES: u32 = 67_108_864;

/// The number of bytes of a tag's code and length.
const HEAD_BYTES: usize = 8;

/// Returns why `bytes` are refused as tags, or `None` if they are tags. A top tag has at most `top` bytes.
pub fn tags_reason(alloc: Global, bytes: &[u8], top: u32) -> Result<Option<String>, AllocError> {
    let table = CodeTable::standard(alloc)?;
    let mut rest = bytes;
    for _ in 0..bytes.len() {
        if rest.is_empty() {
            return Ok(None);
        }
        match read_tag(alloc, rest, &table, Limits { top }) {
            Ok((_, len)) => rest = &rest[len..],
            Err(error) => return Ok(Some(error_words(alloc, bytes, rest, &error, top)?)),
        }
    }
    Ok(None)
}

/// Returns the words for an error in `rest`, the end of `bytes`.
fn error_words(
    alloc: Global,
    bytes: &[u8],
    rest: &[u8],
    error: &StreamError,
    top: u32,
) -> Result<String, AllocError> {
    let before = bytes.len().saturating_sub(rest.len()) as u64;
    match error {
        StreamError::TooLarge { at } => {
            let tag = tag_words(alloc, bytes, before.saturating_add(*at))?;
            format!(in alloc;
                "{tag}, and at most {top} are possible: is the input the output of `daapshare list`?"
            )
        }
        StreamError::TooDeep { at } => {
            let tag = tag_words(alloc, bytes, before.saturating_add(*at))?;
            format!(in alloc; "{tag}, and is nested deeper than 32 levels")
        }
        StreamError::Overrun { at, .. } => {
            let tag = tag_words(alloc, bytes, before.saturating_add(*at))?;
            format!(in alloc; "{tag}, and the list around it ends before")
        }
        StreamError::ShortHead { at } => {
            let at = before.saturating_add(*at);
            format!(in alloc;
                "a list ends at byte {at} and a few more, which are too few for a tag"
            )
        }
        StreamError::Truncated { at } => {
            let end = before.saturating_add(*at);
            let tag = tag_words(alloc, bytes, before)?;
            format!(in alloc; "the input ends after {end} bytes: {tag}, and they are not all there")
        }
        StreamError::Memory => Err(AllocError),
    }
}

/// Returns the words for the head of a tag at offset `at`.
fn tag_words(alloc: Global, bytes: &[u8], at: u64) -> Result<String, AllocError> {
    let Some([a, b, c, d, e, f, g, h]) = head_at(bytes, at) else {
        return format!(in alloc; "the tag at byte {at} has no whole head");
    };
    let mut shown = Vec::new(alloc);
    show_code(Code([*a, *b, *c, *d]), &mut shown)?;
    let len = u32::from_be_bytes([*e, *f, *g, *h]);
    let code = crate::quoting::quoted(alloc, shown.as_slice())?;
    format!(in alloc; "the tag {code} at byte {at} has by its head {len} bytes")
}

/// Returns the bytes of a head at offset `at`, or fewer if they end before.
fn head_at(bytes: &[u8], at: u64) -> Option<&[u8]> {
    let at = usize::try_from(at).ok()?;
    let rest = bytes.get(at..)?;
    rest.get(..HEAD_BYTES)
}
