//! The error counter of each object of the outside, and the error that increases it.
ghost use Rattle.std.specs.Prelude.{ℕ};
ghost use Rattle.outside_disks.specs.Counts.{Rose};

use thiserror::Error;

/// A call failed, and increased the error counter of its object.
///
/// It does not say why. Where the system gave a reason, the object keeps it: `SystemFiles::cause` returns it.
#[derive(Debug, Drop, Error)]
#[error("a read or a write failed")]
pub struct Failed;

/// Has a counter of the errors so far, at most `u64::MAX`, where it stays.
pub trait Faulted {
    ghost faults: { Self → ℕ };
}

/// Counts one more error, up to the maximum of the type, and returns the error to report.
pub fn counted(faults: &mut u64) -> Failed
    ensures { Rose faults.old faults.new }
{
    *faults = faults.saturating_add(1);
    Failed
}
