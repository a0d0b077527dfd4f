//! Errors of `serve`, before its share is served.

ghost use Rattle.std.specs.Prelude.{◌≡◌};
ghost use Rattle.serve_command.specs.Faults.{serve_line, serve_status, net_fault, input_fault, open_fault};

use command_core::{Fault, InputFault, Refusal};
use fault_lines::records_line;
use outside_net::NetError;
use records_import::RecordError;
use share_core::OpenError;
use std::alloc::{AllocError, Global};

/// Errors of `serve`, before its share is served. Out of memory is `Fault::Memory`, and a read that failed
/// `Fault::Read`.
#[derive(Drop)]
pub enum ServeFault {
    /// An address could not be opened.
    Network,
    /// The input has more than 4,194,304 bytes.
    TooLong,
    /// Its records are refused.
    Records(RecordError),
    /// They leave more lists than a share may have.
    TooManyLists,
}

impl Refusal for ServeFault {
    ghost error_line = { serve_line };

    ghost error_status = { serve_status };

    fn line(&self, alloc: Global) -> Result<Vec<u8>, AllocError> {
        match self {
            ServeFault::Network => Vec::from_slice(alloc, b"network failed\n"),
            ServeFault::TooLong => Vec::from_slice(alloc, b"limit: input\n"),
            ServeFault::Records(error) => records_line(alloc, error),
            ServeFault::TooManyLists => Vec::from_slice(alloc, b"limit: library\n"),
        }
    }

    fn status(&self) -> u8 {
        match self {
            ServeFault::Network => 6,
            ServeFault::Records(_) => 3,
            ServeFault::TooLong | ServeFault::TooManyLists => 8,
        }
    }
}

/// Returns the error of `serve` for an address that was not opened.
pub(crate) fn net_fault(error: NetError) -> Fault<ServeFault>
    ensures { result ≡ net_fault error }
{
    match error {
        NetError::Failed => Fault::Own(ServeFault::Network),
        NetError::Memory => Fault::Memory,
    }
}

/// Returns the error of `serve` for one of the input.
pub(crate) fn input_fault(fault: Fault<InputFault>) -> Fault<ServeFault>
    ensures { result ≡ input_fault fault }
{
    match fault {
        Fault::Own(InputFault::TooLong) => Fault::Own(ServeFault::TooLong),
        Fault::Own(InputFault::Records(error)) => Fault::Own(ServeFault::Records(error)),
        Fault::Read => Fault::Read,
        Fault::Memory => Fault::Memory,
    }
}

/// Returns the error of `serve` for a share that could not be opened.
pub(crate) fn open_fault(error: OpenError) -> Fault<ServeFault>
    ensures { result ≡ open_fault error }
{
    match error {
        OpenError::Edits | OpenError::Lists => Fault::Own(ServeFault::TooManyLists),
        OpenError::Memory => Fault::Memory,
    }
}
