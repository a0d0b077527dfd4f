//! Why a command failed.

ghost use Rattle.std.specs.Prelude.{◌≡◌, ℕ, List, IfOk};
ghost use Rattle.command_core.specs.Faults.{fault_line, fault_status, read_fault};

use outside_net::{Failed, ReadError};
use std::alloc::{AllocError, Global};

/// What ended a command early: one of its own errors, or what may end any command.
#[derive(Drop)]
pub enum Fault<E> {
    Own(E),
    /// The input could not be read.
    Read,
    Memory,
}

/// A command's own errors: the line that the user sees for each, and the status.
pub trait Refusal {
    ghost error_line: { Self → List ℕ };

    ghost error_status: { Self → ℕ };

    /// Returns the line, with its line feed.
    fn line(&self, alloc: Global) -> Result<Vec<u8>, AllocError>
        ensures { IfOk result (λ line. line.items ≡ error_line self.now) };

    /// Returns the status that the program ends with.
    fn status(&self) -> u8
        ensures { result ≡ error_status self.now };
}

impl<E> From<AllocError> for Fault<E> {
    ghost use Rattle.command_core.specs.declared.fault.Fault.TheVariants.{Memory};

    ghost from_gives = { λ _ f. f ≡ Memory };

    fn from(_error: AllocError) -> Fault<E> {
        Fault::Memory
    }
}

impl<E> From<Failed> for Fault<E> {
    ghost use Rattle.command_core.specs.declared.fault.Fault.TheVariants.{Read as read};

    ghost from_gives = { λ _ f. f ≡ read };

    fn from(_fault: Failed) -> Fault<E> {
        Fault::Read
    }
}

impl<E: Refusal> Fault<E> {
    /// Returns the line that the user sees, with its line feed.
    pub fn line(&self, alloc: Global) -> Result<Vec<u8>, AllocError>
        ensures { IfOk result (λ line. line.items ≡ fault_line E.error_line self.now) }
    {
        match self {
            Fault::Own(own) => own.line(alloc),
            Fault::Read => Vec::from_slice(alloc, b"read failed\n"),
            Fault::Memory => Vec::from_slice(alloc, b"memory\n"),
        }
    }

    /// Returns the status that the program ends with.
    pub fn status(&self) -> u8
        ensures { result ≡ fault_status E.error_status self.now }
    {
        match self {
            Fault::Own(own) => own.status(),
            Fault::Read => 4,
            Fault::Memory => 9,
        }
    }
}

/// Returns the error of a command whose input was not read to its end; `too_long` is the one of a long input.
pub fn read_fault<E: Drop>(error: ReadError, too_long: E) -> Fault<E>
    ensures { result ≡ read_fault too_long error }
{
    match error {
        ReadError::Failed => Fault::Read,
        ReadError::TooLong => Fault::Own(too_long),
        ReadError::Memory => Fault::Memory,
    }
}
