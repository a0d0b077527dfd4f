//! Runs connections, listeners and networks in memory.

ghost use Rattle.std.specs.Prelude.{IfOk};
ghost use Rattle.outside_net.specs.MemLink.{IsNew};
ghost use Rattle.outside_net.specs.MemListener.{IsNew as is_new_listener};

use crate::callers::{greeted, heard, sent};
use outside_net::{
    Asked, Failed, Files, Link, Listener, MemFiles, MemLink, MemListener, MemNet, MemSink,
    MemSource, Net, NetError, Returned, Sink,
};
use std::alloc::{AllocError, Global};
use std::test::Fail;

/// Reads and writes once, and returns whether each failed.
fn exchanged<L: Link>(link: &mut L) -> (bool, bool) {
    let mut room = [0; 4];
    (heard(link, &mut room).is_err(), link.write(b"xyz").is_err())
}

fn is_back(link: &Returned, bytes: &[u8], faulted: bool) -> bool {
    link.bytes.as_slice() == bytes && link.faulted == faulted
}

/// Whether a listener records `bytes` and `faulted` of a connection that is returned to it.
fn comes_back(
    alloc: Global,
    link: MemLink,
    bytes: &[u8],
    faulted: bool,
) -> Result<bool, AllocError> {
    let mut listener = MemListener::new(alloc, &[], 1)?;
    listener.done(link);
    Ok(matches!(listener.written(), Some([back]) if is_back(back, bytes, faulted)))
}

/// A connection of five bytes whose read and write with this number fail.
fn failing_link(alloc: Global, failing: u64) -> Result<MemLink, AllocError> {
    let input = MemSource::new(alloc, b"abcde", 2, &[failing])?;
    let output = MemSink::new(alloc, 9, 2, &[failing])?;
    Ok(MemLink::new(input, output))
}

/// Whether three reads and three writes fail only at this number.
fn fails_only_at<L: Link>(link: &mut L, failing: u64) -> bool {
    for call in 1..4 {
        let fails = call == failing;
        if exchanged(link) != (fails, fails) {
            return false;
        }
    }
    true
}

/// Whether a connection whose calls with this number fail is returned with what the others wrote.
fn fails_at(alloc: Global, failing: u64) -> Result<bool, AllocError> {
    let mut link = failing_link(alloc, failing)?;
    let fails = fails_only_at(&mut link, failing);
    Ok(comes_back(alloc, link, b"xyxy", true)? && fails)
}

#[test]
fn a_link_fails_at_each_read_and_each_write_in_turn(rt: HostRuntime) -> Result<(), Fail> {
    for failing in 1..4 {
        assert!(rt; fails_at(rt.alloc(), failing)?);
    }
    Ok(())
}

/// A connection of three bytes whose second probe fails.
fn probed_link(alloc: Global) -> Result<MemLink, AllocError> {
    let input = MemSource::new(alloc, b"abc", 2, &[])?;
    let output = MemSink::new(alloc, 9, 2, &[])?;
    MemLink::with_failing_probes(alloc, input, output, &[2])
}

/// The results of three probes, and of a read and a write between the first two.
fn answers<L: Link>(link: &mut L) -> (bool, (bool, bool), bool, bool) {
    (
        link.probe().is_ok(),
        exchanged(link),
        link.probe().is_ok(),
        link.probe().is_ok(),
    )
}

/// Whether a connection whose second probe fails is returned with what was written before it.
fn fails_at_second_probe(alloc: Global) -> Result<bool, AllocError> {
    let mut link = probed_link(alloc)?;
    let fails = answers(&mut link) == (true, (false, false), false, true);
    Ok(comes_back(alloc, link, b"xy", true)? && fails)
}

#[test]
fn a_link_fails_at_the_probes_that_are_set_to(rt: HostRuntime) -> Result<(), Fail> {
    assert!(rt; fails_at_second_probe(rt.alloc())?);
    Ok(())
}

/// A connection with an input, and capacity for 9 bytes.
fn linked(alloc: Global, input: &[u8]) -> Result<MemLink, AllocError>
    ensures { IfOk result IsNew }
{
    let source = MemSource::new(alloc, input, 4, &[])?;
    Ok(MemLink::new(source, MemSink::new(alloc, 9, 4, &[])?))
}

/// A listener with two connections, whose second wait fails, with capacity for `room` returned ones.
fn opened(alloc: Global, room: usize) -> Result<MemListener, AllocError>
    ensures { IfOk result is_new_listener }
{
    let mut listener = MemListener::new(alloc, &[2], room)?;
    listener.add(linked(alloc, b"one")?)?;
    listener.add(linked(alloc, b"two")?)?;
    Ok(listener)
}

/// The same listener, of which nothing is known.
fn some_listener(alloc: Global, room: usize) -> Result<MemListener, AllocError> {
    opened(alloc, room)
}

/// What is sent at a listener, and the outcome: whether a connection came, or `None` if the wait failed.
const GREETINGS: [(&[u8], Option<bool>); 4] = [
    (b"first", Some(true)),
    (b"not sent", None),
    (b"second, too long", Some(true)),
    (b"not sent", Some(false)),
];

fn greets<D: Listener>(listener: &mut D, rows: &[(&'static [u8], Option<bool>)]) -> bool {
    for (bytes, answer) in rows {
        if greeted(listener, bytes).ok() != *answer {
            return false;
        }
    }
    true
}

/// Whether a listener gives its two connections, and records what was written to each.
fn greets_in_order(listener: &mut MemListener) -> bool {
    greets(listener, &GREETINGS)
        && matches!(listener.written(), Some([first, second])
            if is_back(first, b"first", false) && is_back(second, b"second, t", true))
}

#[test]
fn a_listener_gives_its_links_in_order(rt: HostRuntime) -> Result<(), Fail> {
    let mut listener = some_listener(rt.alloc(), 2)?;
    assert!(rt; greets_in_order(&mut listener));
    Ok(())
}

fn is_asked(asked: &Asked, place: &[u8], listeners: u32) -> bool {
    asked.place() == place && asked.listeners() == listeners
}

/// A network with two listeners, two connections at the first of them, and one connection to make, whose second call
/// fails.
fn filled(alloc: Global) -> Result<MemNet, AllocError> {
    let mut net = MemNet::with_room(alloc, &[2], 4, 4)?;
    net.add_listener(opened(alloc, 2)?)?;
    net.add_listener(MemListener::new(alloc, &[], 0)?)?;
    net.add_link(linked(alloc, b"three")?)?;
    Ok(net)
}

/// Whether a network of two listeners does not open three of them, and fails next.
fn refuses<N: Net>(net: &mut N) -> bool {
    matches!(net.listen("here", 3), Err(NetError::Failed))
        && matches!(net.connect("set to fail"), Err(Failed))
}

/// Whether a network opens a listener to which a connection comes, and closes it.
fn greets_once<N: Net>(net: &mut N) -> Result<bool, NetError> {
    let mut listeners = net.listen("here", 1)?;
    let Some(mut listener) = listeners.pop() else {
        return Ok(false);
    };
    let is_greeted = matches!(greeted(&mut listener, b"hello"), Ok(true));
    net.close_listener(listener);
    Ok(is_greeted)
}

/// Whether its requested addresses are known.
fn is_told_asked(net: &MemNet) -> bool {
    matches!(net.asked(), Some([too_many, fails, here, there])
        if is_asked(too_many, b"here", 3) && is_asked(fails, b"set to fail", 0)
            && is_asked(here, b"here", 1) && is_asked(there, b"there", 0))
}

/// Whether what was written is known.
fn is_told_written(net: &MemNet) -> bool {
    matches!(net.written(), Some([hello, bye])
        if is_back(hello, b"hello", false) && is_back(bye, b"bye", false))
}

/// Whether a network of two listeners and one connection gives them, and states what was requested and written.
fn gives_all(net: &mut MemNet) -> Result<bool, Fail> {
    let begins = refuses(net) && greets_once(net)?;
    sent(net, "there", b"bye")?;
    let is_told = is_told_asked(net) && is_told_written(net);
    Ok(begins && is_told && net.connect("there").is_err())
}

#[test]
fn a_net_gives_what_was_put_there(rt: HostRuntime) -> Result<(), Fail> {
    let mut net = filled(rt.alloc())?;
    assert!(rt; gives_all(&mut net)?);
    Ok(())
}

/// Whether a listener without capacity states what was written until a connection is returned to it.
fn tells_until_written(listener: &mut MemListener) -> bool {
    listener.written().is_some()
        && matches!(greeted(listener, b"lost"), Ok(true))
        && listener.written().is_none()
}

/// Whether a network with capacity for one address states what was requested until there are two.
fn tells_until_asked(net: &mut MemNet) -> bool {
    net.connect("first").is_err()
        && net.asked().is_some()
        && net.connect("second").is_err()
        && net.asked().is_none()
}

/// Closes a listener, and returns whether the network states what was written.
fn tells_after(net: &mut MemNet, listener: MemListener) -> bool {
    net.close_listener(listener);
    net.written().is_some()
}

#[test]
fn a_list_without_room_is_told_no_more(rt: HostRuntime) -> Result<(), Fail> {
    let mut net = MemNet::with_room(rt.alloc(), &[], 1, 1)?;
    assert!(rt; tells_until_asked(&mut net));
    let mut listener = some_listener(rt.alloc(), 0)?;
    assert!(rt; tells_until_written(&mut listener));
    assert!(rt; !tells_after(&mut net, listener));
    Ok(())
}

/// Whether a network without listeners and connections gives none.
fn gives_none<N: Net>(net: &mut N) -> bool {
    matches!(net.listen("127.0.0.1:3689", 2), Err(NetError::Failed))
        && matches!(sent(net, "127.0.0.1:3689", b"hello"), Err(Failed))
}

#[test]
fn nothing_is_reached_where_nothing_is_held(rt: HostRuntime) {
    assert!(rt; gives_none(&mut MemNet::new(rt.alloc())));
    assert!(rt; matches!(MemFiles::new().open("edits"), Err(Failed)));
}
