//! Theorems about all bytes. Each function has an empty body; its contract is the theorem.

ghost use Rattle.edit_file.specs.Laws.{BrokenFilesStandForNone, FilesStandOnce};

/// Bytes represent at most one list of batches.
pub fn files_stand_once()
    ensures { FilesStandOnce }
{}

/// Bytes that break at some offset represent no list of batches.
pub fn broken_files_stand_for_none()
    ensures { BrokenFilesStandForNone }
{}
