//! Callers that know only the traits, and what they prove of any form.

ghost use Rattle.std.specs.Prelude.{◌≡◌, ◌<◌, ◌++◌, ◌∷◌, [], IfOk, IfSome, OnOk, OnErr, length, drop, false, true, Some};
ghost use Rattle.std.specs.Io.KnownBytes.{Appends};
ghost use Rattle.outside_net.specs.Counts.{Rose};
ghost use Rattle.outside_net.specs.Told.{Grows};

use outside_net::{Failed, Link, Listener, Net, ReadError, Sink, Source, put_all, read_within};
use std::alloc::Global;

/// Copies an input of at most five bytes, and returns the status that a program would.
pub(crate) fn copied_whole<I: Source, W: Sink>(alloc: Global, input: &mut I, output: &mut W) -> u8
    ensures copied { result ≡ 0 → IfSome (I.left input.old)
        (Appends (W.taken output.old) (W.taken output.new)) }
    ensures read { result ≡ 4 → Rose (I.faults input.old) (I.faults input.new) }
    ensures written { result ≡ 5 → Rose (W.faults output.old) (W.faults output.new) }
    ensures long { result ≡ 8 → IfSome (I.left input.old) (λ left. 5 < length left) }
    ensures calm { result ≡ 0 → I.faults input.new ≡ I.faults input.old }
{
    match read_within(alloc, input, 5) {
        Ok(all) => match put_all(output, all.as_slice()) {
            Ok(()) => 0,
            Err(Failed) => 5,
        },
        Err(ReadError::Failed) => 4,
        Err(ReadError::TooLong) => 8,
        Err(ReadError::Memory) => 9,
    }
}

/// Reads from a connection, which leaves what was written to it.
pub(crate) fn heard<L: Link>(link: &mut L, room: &mut [u8]) -> Result<usize, Failed>
    requires { 0 < length room.old }
    ensures { L.taken link.new ≡ L.taken link.old }
{
    link.read(room)
}

/// Sends bytes to an address, and returns the connection to the network.
pub(crate) fn sent<N: Net>(net: &mut N, place: &str, bytes: &[u8]) -> Result<(), Failed>
    ensures asks { Grows (N.asked net.old) (N.asked net.new) ((place.now, 0) ∷ []) }
    ensures count { OnErr result (Rose (N.faults net.old) (N.faults net.new)) }
    ensures told { OnOk result (IfSome (N.written net.new) (λ now.
        IfSome (N.written net.old) (λ before. now ≡ before ++ (bytes.now, false) ∷ []))) }
{
    let mut link = net.connect(place)?;
    match put_all(&mut link, bytes) {
        Ok(()) => {
            net.close(link);
            Ok(())
        }
        Err(fault) => {
            net.close(link);
            Err(fault)
        }
    }
}

/// Sends bytes on the next connection that comes, if one does, and returns it to the listener.
pub(crate) fn greeted<D: Listener>(listener: &mut D, bytes: &[u8]) -> Result<bool, Failed>
    ensures count { OnErr result (Rose (D.faults listener.old) (D.faults listener.new)) }
    ensures none { IfOk result (λ some. IfSome (D.coming listener.old) (λ coming. some ≡ false
        → coming ≡ [])) }
    ensures next { IfOk result (λ some. IfSome (D.coming listener.old) (λ coming.
        some ≡ true → D.coming listener.new ≡ Some (drop 1 coming))) }
{
    let Some(mut link) = listener.accept()? else {
        return Ok(false);
    };
    let _sent = put_all(&mut link, bytes);
    listener.done(link);
    Ok(true)
}
