//! Requests that are fed to a reader over and over.

ghost use Rattle.std.specs.Prelude.{◌<◌};

use anyhow::bail;
use http_front::{HeadReader, Role};
use std::alloc::{AllocError, Global};

/// Returns how many asks come when a request of `size` bytes is fed `times` times, in pieces of `piece` bytes.
pub fn asks_fed(alloc: Global, size: usize, piece: usize, times: u32) -> anyhow::Result<u32> {
    if piece == 0 {
        bail!("no pieces");
    }
    let request = request_of(alloc, size)?;
    asks_read(alloc, request.as_slice(), piece, times)
}

/// Returns how many asks a new reader yields.
fn asks_read(alloc: Global, request: &[u8], piece: usize, times: u32) -> anyhow::Result<u32>
    requires { 0 < piece }
{
    let mut reader = HeadReader::new(alloc, Role::Listen)?;
    asks_of(&mut reader, request, piece, times)
}

fn asks_of(reader: &mut HeadReader, request: &[u8], piece: usize, times: u32) -> anyhow::Result<u32>
    requires { 0 < piece }
{
    let mut asks: u32 = 0;
    for _ in 0..times {
        for part in request.chunks(piece) {
            if !takes(reader, part) {
                bail!("refused");
            }
            if has_ask(reader) {
                asks = asks.saturating_add(1);
            }
        }
    }
    Ok(asks)
}

/// Feeds a piece, and returns whether it is accepted.
fn takes(reader: &mut HeadReader, part: &[u8]) -> bool {
    reader.feed(part).is_ok()
}

/// Takes the next ask, and returns whether there was one.
fn has_ask(reader: &mut HeadReader) -> bool {
    reader.next().is_some()
}

/// A request of `size` bytes, at least 120: a header field of no meaning fills it up.
fn request_of(alloc: Global, size: usize) -> Result<Vec<u8>, AllocError> {
    let mut text = Vec::from_slice(
        alloc,
        b"GET /databases/1/items?session-id=1&delta=2&meta=dmap.itemname HTTP/1.1\r\nHost: share.local:3689\r\nFiller: ",
    )?;
    for _ in text.len()..size.saturating_sub(4) {
        text.push(b'a')?;
    }
    text.extend_from_slice(b"\r\n\r\n")?;
    Ok(text)
}
