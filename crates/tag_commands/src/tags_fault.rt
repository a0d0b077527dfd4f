//! Why bytes are not accepted as tags: the errors of `check` and `show`.

ghost use Rattle.std.specs.Prelude.{◌≡◌, ◌++◌, ◌∷◌, [], IfOk, OnOk};
ghost use Rattle.tag_commands.specs.TopTags.{tags_text, tags_fault};

use command_core::{Fault, Refusal};
use dmap_stream::StreamError;
use fault_lines::push_number;
use std::alloc::{AllocError, Global};

/// Why an input is not accepted as tags.
#[derive(Drop)]
pub enum TagsFault {
    /// Its bytes are not tags. An allocation failure is not one of these errors.
    Broken(StreamError),
    /// It has more bytes than are read.
    TooLong,
}

impl Refusal for TagsFault {
    ghost use Rattle.tag_commands.specs.TopTags.{tags_line, tags_status};

    ghost error_line = { tags_line };

    ghost error_status = { tags_status };

    fn line(&self, alloc: Global) -> Result<Vec<u8>, AllocError> {
        match self {
            TagsFault::Broken(error) => broken_line(alloc, error),
            TagsFault::TooLong => Vec::from_slice(alloc, b"limit: input\n"),
        }
    }

    fn status(&self) -> u8 {
        match self {
            TagsFault::Broken(_) => 3,
            TagsFault::TooLong => 8,
        }
    }
}

/// Returns the error of `check` and `show` for a refusal of the reader.
pub fn tags_fault(error: StreamError) -> Fault<TagsFault>
    ensures { result ≡ tags_fault error }
{
    match error {
        StreamError::Memory => Fault::Memory,
        refusal => Fault::Own(TagsFault::Broken(refusal)),
    }
}

/// Returns the line of a refusal of tags.
pub fn broken_line(alloc: Global, error: &StreamError) -> Result<Vec<u8>, AllocError>
    ensures { IfOk result (λ line. line.items ≡ tags_text error.now ++ 10 ∷ []) }
{
    let mut line = Vec::new(alloc);
    push_tags(&mut line, error)?;
    line.push(b'\n')?;
    Ok(line)
}

fn push_tags(line: &mut Vec<u8>, error: &StreamError) -> Result<(), AllocError>
    ensures { OnOk result (line.new.items ≡ line.old.items ++ tags_text error.now) }
{
    match error {
        StreamError::TooLarge { at } => push_number(line, b"tags: too large at ", *at),
        StreamError::TooDeep { at } => push_number(line, b"tags: too deep at ", *at),
        StreamError::Overrun { at, .. } => push_number(line, b"tags: overrun at ", *at),
        StreamError::ShortHead { at } => push_number(line, b"tags: short head at ", *at),
        StreamError::Truncated { at } => push_number(line, b"tags: truncated at ", *at),
        StreamError::Memory => line.extend_from_slice(b"memory"),
    }
}
