//! All input and output of the program: byte streams, network and files. Each object has an error counter, which
//! increases if a call returns `Failed`, and may have known bytes for contracts. The forms in memory know them; the
//! forms over std's readers and writers know what these know.
#![tactic(auto)]

mod adapters;
mod link;
mod memory;
mod net;
mod reading;
mod sink;
mod source;
mod tcp;

pub use adapters::{Reading, Writing};
pub use link::Link;
pub use memory::asked::Asked;
pub use memory::link::{MemLink, Returned};
pub use memory::listener::MemListener;
pub use memory::net::MemNet;
pub use memory::sink::MemSink;
pub use memory::source::MemSource;
pub use net::{Listener, Net, NetError};
pub use outside_disks::{
    Disk, DiskCall, DiskOp, Failed, Faulted, FileDisk, Files, MemDisk, MemFiles, SystemFiles,
};
pub use reading::{ReadError, read_within};
pub use sink::{Sink, put_all};
pub use source::Source;
pub use tcp::accepting::{Remedy, remedy_of};
pub use tcp::cause::{Action, Cause};
pub use tcp::link::{CROWDED_SECONDS, READ_SECONDS, TcpLink, WRITE_SECONDS};
pub use tcp::{HELD_SECONDS, TcpAcceptor, TcpNet};
