//! Writes one whole tag.

ghost use Rattle.std.specs.Prelude.{◌≡◌, ◌≢◌, ◌↔◌, false, Err, IfErr, OnOk};
ghost use Rattle.std.specs.Io.KnownBytes.{Appends};
ghost use Rattle.outside_net.specs.Counts.{Rose};
ghost use Rattle.outside_net.specs.Told.{AppendsPrefix};
ghost use Rattle.dmap_tags.specs.Spelling.{spelling, is_spellable};

use dmap_tags::{Tag, TagError, encode_into};
use outside_net::{Sink, put_all};
use std::alloc::Global;
use thiserror::Error;

/// Why a tag was not written whole.
#[derive(Debug, Drop, PartialEq, Eq, Error)]
pub enum WriteError {
    /// A payload is longer than its four bytes of length can state.
    #[error("a payload is longer than 4,294,967,295 bytes")]
    TooLong,
    /// The sink failed; it may have taken some of the first bytes.
    #[error("a write failed")]
    Failed,
    #[error("out of memory")]
    Memory,
}

/// Writes a tag's encoding, which is complete in memory before the first byte is written.
pub fn write_tag<W: Sink>(alloc: Global, tag: &Tag, sink: &mut W) -> Result<(), WriteError>
    ensures written { OnOk result
        (Appends (W.taken sink.old) (W.taken sink.new) (spelling tag.now)) }
    ensures count { OnOk result (W.faults sink.new ≡ W.faults sink.old) }
    ensures too_long { (result ≡ Err WriteError.TooLong) ↔ (is_spellable tag.now ≡ false) }
    ensures untouched { IfErr result (λ e. e ≢ WriteError.Failed → sink.new ≡ sink.old) }
    ensures failed { result ≡ Err WriteError.Failed
        → AppendsPrefix (W.taken sink.old) (W.taken sink.new) (spelling tag.now)
        × Rose (W.faults sink.old) (W.faults sink.new) }
    ensures beside { W.beside_taken sink.new ≡ W.beside_taken sink.old }
{
    let mut spelling = Vec::new(alloc);
    match encode_into(tag, &mut spelling) {
        Ok(()) => {}
        Err(TagError::TooLong) => return Err(WriteError::TooLong),
        Err(TagError::Memory) => return Err(WriteError::Memory),
    }
    match put_all(sink, spelling.as_slice()) {
        Ok(()) => Ok(()),
        Err(_) => Err(WriteError::Failed),
    }
}
