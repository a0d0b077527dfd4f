//! Errors of a file that keeps the edits of a share.

ghost use Rattle.std.specs.Prelude.{◌≡◌, IfOk};
ghost use Rattle.kept_library.specs.Faults.{file_line, file_status, file_fault, open_fault};

use command_core::{Fault, Refusal};
use edit_file::FileError;
use fault_lines::push_number;
use share_core::OpenError;
use std::alloc::{AllocError, Global};

/// Errors of a file that keeps the edits of a share. Out of memory is `Fault::Memory`.
#[derive(Drop)]
pub enum FileFault {
    /// The file is not an edit file: its bytes break at the offset `at`.
    NotEditFile { at: u64 },
    /// A call on the file, or on what opens files, failed.
    Failed,
    /// The batches have more edits than a share may have.
    TooManyEdits,
    /// The batches leave more lists than a share may have.
    TooManyLists,
}

impl Refusal for FileFault {
    ghost error_line = { file_line };

    ghost error_status = { file_status };

    fn line(&self, alloc: Global) -> Result<Vec<u8>, AllocError> {
        match self {
            FileFault::NotEditFile { at } => not_edit_file(alloc, *at),
            FileFault::Failed => Vec::from_slice(alloc, b"file failed\n"),
            FileFault::TooManyEdits | FileFault::TooManyLists => {
                Vec::from_slice(alloc, b"limit: library\n")
            }
        }
    }

    fn status(&self) -> u8 {
        match self {
            FileFault::NotEditFile { .. } => 3,
            FileFault::Failed => 10,
            FileFault::TooManyEdits | FileFault::TooManyLists => 8,
        }
    }
}

// Returns the line of a file that is not an edit file.
fn not_edit_file(alloc: Global, at: u64) -> Result<Vec<u8>, AllocError>
    ensures { IfOk result (λ line. line.items ≡ file_line (FileFault.NotEditFile at)) }
{
    let mut line = Vec::new(alloc);
    push_number(&mut line, b"file: not an edit file at ", at)?;
    line.push(b'\n')?;
    Ok(line)
}

/// Returns the error of a file that could not be opened.
pub(crate) fn file_fault(error: FileError) -> Fault<FileFault>
    ensures { result ≡ file_fault error }
{
    match error {
        FileError::NotEditFile { at } => Fault::Own(FileFault::NotEditFile { at }),
        FileError::Failed => Fault::Own(FileFault::Failed),
        FileError::Memory => Fault::Memory,
    }
}

/// Returns the error of a share that could not be opened.
pub(crate) fn open_fault(error: OpenError) -> Fault<FileFault>
    ensures { result ≡ open_fault error }
{
    match error {
        OpenError::Edits => Fault::Own(FileFault::TooManyEdits),
        OpenError::Lists => Fault::Own(FileFault::TooManyLists),
        OpenError::Memory => Fault::Memory,
    }
}
