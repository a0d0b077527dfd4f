//! Lines that both commands write.

ghost use Rattle.std.specs.Prelude.{◌≡◌, ◌++◌, ◌∷◌, [], decimal, IfOk};
ghost use Rattle.link_commands.specs.Links.{link_line, link_status};

use fault_lines::push_number;
use mirror_client::FollowError;
use std::alloc::{AllocError, Global};

/// Returns `words`, then `number` in decimal, then a line feed.
pub(crate) fn number_line(alloc: Global, words: &[u8], number: u64) -> Result<Vec<u8>, AllocError>
    ensures { IfOk result (λ line. line.items ≡ words.now ++ (decimal number ++ 10 ∷ [])) }
{
    let mut line = Vec::new(alloc);
    push_number(&mut line, words, number)?;
    line.push(b'\n')?;
    Ok(line)
}

/// Returns the line of the error that ended an exchange with a share.
pub(crate) fn link_line(alloc: Global, error: &FollowError) -> Result<Vec<u8>, AllocError>
    ensures { IfOk result (λ line. line.items ≡ link_line error.now) }
{
    match error {
        FollowError::Refused { status } => {
            number_line(alloc, b"peer: refused ", u64::from(*status))
        }
        FollowError::BadReply { at } => number_line(alloc, b"peer: bad reply at ", *at),
        FollowError::Ended { at } => number_line(alloc, b"peer: ended at ", *at),
        FollowError::Listing(_) => Vec::from_slice(alloc, b"peer: listing\n"),
        FollowError::Codes(_) => Vec::from_slice(alloc, b"peer: codes\n"),
        FollowError::LinkFault => Vec::from_slice(alloc, b"network failed\n"),
        FollowError::Memory => Vec::from_slice(alloc, b"memory\n"),
    }
}

/// Returns the status that the program then ends with.
pub(crate) fn link_status(error: &FollowError) -> u8
    ensures { result ≡ link_status error.now }
{
    match error {
        FollowError::Refused { .. } | FollowError::BadReply { .. } | FollowError::Ended { .. } => 7,
        FollowError::Listing(_) | FollowError::Codes(_) => 7,
        FollowError::LinkFault => 6,
        FollowError::Memory => 9,
    }
}
