//! The line of a malformed parameter of a request.

ghost use Rattle.std.specs.Prelude.{◌≡◌, IfOk};
ghost use Rattle.fault_lines.specs.Parameters.{parameter_line};

use std::alloc::{AllocError, Global};

/// Returns the line of the parameter with this name.
pub fn parameter_line(alloc: Global, name: &str) -> Result<Vec<u8>, AllocError>
    ensures text { IfOk result (λ line. line.items ≡ parameter_line name.now) }
{
    let mut line = Vec::from_slice(alloc, b"parameter: ")?;
    line.extend_from_slice(name.as_bytes())?;
    line.push(b'\n')?;
    Ok(line)
}
