//! Connections, listeners and networks over std's TCP sockets: the edge, whose std contracts are trusted. Their bytes
//! are unknown to contracts; only the error counters and the number of open objects are known.
ghost use Rattle.std.specs.Prelude.{◌≡◌, All, None, IfOk, length};
ghost use Rattle.outside_net.specs.Counts.{Rose};

pub mod accepting;
mod address;
pub mod cause;
pub mod link;
mod log;

use crate::net::{Listener, Net, NetError};
use crate::tcp::accepting::next_stream;
use crate::tcp::address::{Address, clones};
use crate::tcp::cause::{Action, Cause};
use crate::tcp::link::{Origin, TcpLink, set_options};
use crate::tcp::log::LinkLog;
use outside_disks::{Failed, Faulted, counted};
use std::alloc::{AllocError, Global};
use std::io::{Eprint, ErrorKind};
use std::net::{SocketAddr, TcpListener, TcpStream};
use std::string::String;
use std::sync::Arc;
use std::time::{Clock, Duration};
use std::{io, net};

/// How long an update may be pending, in seconds, before its connection may end for one that waits at its address while
/// no worker is free. A peer that vanished silently sends no end, and this frees its worker. A peer that is still there
/// sees its connection closed, and may request again.
pub const HELD_SECONDS: u64 = 300;

// How long `wake_acceptors` tries to reach an address. One that takes longer has enough callers to wake it.
const WAKE_SECONDS: u64 = 1;

/// One of the listeners of its address. It never returns that no more connections will come.
#[derive(Drop)]
pub struct TcpAcceptor<R> {
    rt: R,
    // All listeners of the address share it.
    listener: Arc<TcpListener, Global>,
    address: Arc<Address, Global>,
    // The addresses at which its network has opened listeners, its own among them.
    addresses: Vec<Arc<Address, Global>>,
    is_logged: bool,
    cause: Option<io::Error>,
    faults: u64,
}

impl<R> Faulted for TcpAcceptor<R> {
    ghost faults = { λ listener. listener.faults };
}

impl<R: Copy> TcpAcceptor<R> {
    // Returns a connection that was accepted here.
    fn link_of(
        &self,
        stream: TcpStream,
        peer: SocketAddr,
        log: Option<LinkLog>,
    ) -> io::Result<TcpLink<R>>
        ensures { IfOk result (λ link. link.faults ≡ 0) }
    {
        let origin = Origin {
            listener: Arc::try_clone(&self.listener)?,
            address: Arc::try_clone(&self.address)?,
        };
        Ok(TcpLink::accepted(self.rt, stream, peer, origin, log))
    }
}

impl<R: Clock + Copy + Eprint> TcpAcceptor<R> {
    // Waits for the next connection.
    fn next_link(&self) -> io::Result<TcpLink<R>>
        ensures { IfOk result (λ link. link.faults ≡ 0) }
    {
        self.address.begin_wait(&self.listener);
        let next = next_stream(&self.rt, &self.listener);
        self.address.end_wait();
        let (stream, peer) = next?;
        let log = self
            .is_logged
            .then(|| LinkLog::begin(&self.rt, peer, &self.address));
        self.link_of(stream, peer, log)
    }
}

impl<R> Listener for TcpAcceptor<R>
where
    R: net::Net<Listener = TcpListener, Stream = TcpStream> + Clock + Copy + Eprint + Send,
{
    type L = TcpLink<R>;

    ghost coming = { λ _. None };

    ghost written = { λ _. None };

    fn accept(&mut self) -> Result<Option<TcpLink<R>>, Failed> {
        match self.next_link() {
            Ok(link) => Ok(Some(link)),
            Err(error) => {
                self.cause = Some(error);
                Err(counted(&mut self.faults))
            }
        }
    }

    // The program wakes its threads only if it ends, so silent connections are not waited for much longer either.
    fn wake_acceptors(&mut self) {
        for address in &self.addresses {
            address.stop(&self.rt);
        }
        for address in &self.addresses {
            let _reached = TcpStream::connect_timeout(
                &self.rt,
                &address.place,
                Duration::from_secs(WAKE_SECONDS),
            );
        }
    }

    fn done(&mut self, mut link: TcpLink<R>) {
        if link.faults == 0 {
            link.goodbye();
        }
        if let Some(log) = &link.log {
            log.end(&self.rt, link.faults > 0);
        }
    }
}

/// Opens listeners and makes connections with std's sockets. An address is an IP address or a host name, a colon, and
/// a port.
#[derive(Drop)]
pub struct TcpNet<R> {
    rt: R,
    alloc: Global,
    addresses: Vec<Arc<Address, Global>>,
    is_logged: bool,
    cause: Option<Cause>,
    open_count: u64,
    faults: u64,
}

impl<R: Copy> TcpNet<R> {
    /// Returns a network whose error counter is 0 and with nothing open.
    pub fn new(rt: R, alloc: Global) -> TcpNet<R>
        ensures faults { result.faults ≡ 0 }
        ensures open_count { result.open_count ≡ 0 }
    {
        TcpNet {
            rt,
            alloc,
            addresses: Vec::new(alloc),
            is_logged: false,
            cause: None,
            open_count: 0,
            faults: 0,
        }
    }
}

impl<R> TcpNet<R> {
    /// Writes a line on standard error for each connection that listeners opened from now on accept, for each of its
    /// requests, and for its end.
    pub fn log_connections(&mut self)
        ensures faults { self.new.faults ≡ self.old.faults }
        ensures open_count { self.new.open_count ≡ self.old.open_count }
    {
        self.is_logged = true;
    }

    /// Returns what failed last at this network, or on what was opened there and closed since.
    pub fn cause(&self) -> Option<&Cause> {
        self.cause.as_ref()
    }

    // Counts an error, and keeps it.
    fn fail(&mut self, action: Action, place: &str, error: io::Error) -> Failed
        ensures faults { Rose self.old.faults self.new.faults }
        ensures open_count { self.new.open_count ≡ self.old.open_count }
    {
        let place = String::from_str(self.alloc, place).unwrap_or(String::new(self.alloc));
        self.cause = Some(Cause {
            action,
            place,
            error,
        });
        counted(&mut self.faults)
    }

    // The same at the address of a socket.
    fn fail_at(&mut self, action: Action, place: Option<SocketAddr>, error: io::Error)
        ensures faults { Rose self.old.faults self.new.faults }
        ensures open_count { self.new.open_count ≡ self.old.open_count }
    {
        let text = match place {
            Some(place) => format!(in self.alloc; "{place}").unwrap_or(String::new(self.alloc)),
            None => String::new(self.alloc),
        };
        self.fail(action, text.as_str(), error);
    }
}

impl<R> TcpNet<R>
where
    R: net::Net<Listener = TcpListener, Stream = TcpStream> + Copy,
{
    // Listens at an address, for a number of listeners.
    fn bound(&self, place: &str, number: u32) -> io::Result<(TcpListener, Address)> {
        let listener = TcpListener::bind(&self.rt, place)?;
        let address = Address::new(listener.local_addr()?, number);
        Ok((listener, address))
    }

    // Returns `number` listeners of one address, and the addresses with their own.
    fn opened(
        &self,
        place: &str,
        number: u32,
    ) -> io::Result<(Vec<TcpAcceptor<R>>, Vec<Arc<Address, Global>>)>
        ensures as_many { IfOk result (λ opened. length opened.0.items ≡ number) }
        ensures fresh { IfOk result (λ opened. All
            (λ listener. listener.faults ≡ 0) opened.0.items) }
    {
        let (listener, address) = self.bound(place, number)?;
        let listener = shared(self.alloc, listener)?;
        let address = shared(self.alloc, address)?;
        let mut addresses = clones(self.alloc, self.addresses.as_slice())?;
        addresses.push(Arc::try_clone(&address)?)?;
        let mut listeners = Vec::with_capacity(self.alloc, number as usize)?;
        for _ in 0..number {
            listeners.push_reserved(TcpAcceptor {
                rt: self.rt,
                listener: Arc::try_clone(&listener)?,
                address: Arc::try_clone(&address)?,
                addresses: clones(self.alloc, addresses.as_slice())?,
                is_logged: self.is_logged,
                cause: None,
                faults: 0,
            });
        }
        Ok((listeners, addresses))
    }
}

impl<R> Faulted for TcpNet<R> {
    ghost faults = { λ net. net.faults };
}

impl<R> Net for TcpNet<R>
where
    R: net::Net<Listener = TcpListener, Stream = TcpStream> + Clock + Copy + Eprint + Send,
{
    type L = TcpLink<R>;

    type D = TcpAcceptor<R>;

    ghost asked = { λ _. None };

    ghost written = { λ _. None };

    ghost listener_links = { λ _. None };

    ghost next_input = { λ _. None };

    ghost open_count = { λ net. net.open_count };

    fn listen(&mut self, place: &str, number: u32) -> Result<Vec<TcpAcceptor<R>>, NetError> {
        let Some(open_count) = self.open_count.checked_add(u64::from(number)) else {
            return Err(NetError::from(counted(&mut self.faults)));
        };
        match self.opened(place, number) {
            Ok((listeners, addresses)) => {
                self.addresses = addresses;
                self.open_count = open_count;
                Ok(listeners)
            }
            Err(error) if error.kind() == ErrorKind::OutOfMemory => Err(NetError::Memory),
            Err(error) => Err(NetError::from(self.fail(Action::Listen, place, error))),
        }
    }

    fn connect(&mut self, place: &str) -> Result<TcpLink<R>, Failed> {
        let Some(open_count) = self.open_count.checked_add(1) else {
            return Err(counted(&mut self.faults));
        };
        match connected(&self.rt, place) {
            Ok(stream) => {
                self.open_count = open_count;
                let peer = stream.peer_addr().ok();
                Ok(TcpLink::made(self.rt, stream, peer))
            }
            Err(error) => Err(self.fail(Action::Connect, place, error)),
        }
    }

    fn close_listener(&mut self, listener: TcpAcceptor<R>) {
        self.open_count = self.open_count.saturating_sub(1);
        if listener.faults > 0 {
            match listener.cause {
                Some(error) => self.fail_at(Action::Accept, Some(listener.address.place), error),
                None => {
                    counted(&mut self.faults);
                }
            }
        }
    }

    fn close(&mut self, link: TcpLink<R>) {
        self.open_count = self.open_count.saturating_sub(1);
        if link.faults > 0 {
            match link.cause {
                Some((action, error)) => self.fail_at(action, link.peer, error),
                None => {
                    counted(&mut self.faults);
                }
            }
        }
    }
}

// Returns a value that several owners share.
fn shared<T: Drop>(alloc: Global, value: T) -> Result<Arc<T, Global>, AllocError> {
    match Arc::new(alloc, value) {
        Ok(shared) => Ok(shared),
        Err(_) => Err(AllocError),
    }
}

// Returns a connection whose reads wait for the peer without a limit.
fn connected<R: net::Net<Stream = TcpStream>>(rt: &R, place: &str) -> io::Result<TcpStream> {
    let stream = TcpStream::connect(rt, place)?;
    set_options(&stream, None)?;
    Ok(stream)
}
