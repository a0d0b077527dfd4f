//! The error of arguments that are not a command's.

ghost use Rattle.std.specs.Prelude.{◌≡◌};
ghost use Rattle.command_runs.specs.Usage.{usage_line, usage_status};

use command_core::Refusal;
use daapshare_words::usage_text;
use std::alloc::{AllocError, Global};

/// Why no command is run.
#[derive(Drop)]
pub enum UsageFault {
    /// The arguments are not a command's.
    NoCommand,
}

impl Refusal for UsageFault {
    ghost error_line = { usage_line };

    ghost error_status = { usage_status };

    fn line(&self, alloc: Global) -> Result<Vec<u8>, AllocError> {
        usage_text(alloc)
    }

    fn status(&self) -> u8 {
        2
    }
}
