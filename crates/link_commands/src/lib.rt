//! The commands that reach a share over a connection: `edit` sends it records or a stop, `follow` mirrors one of its
//! listings for some rounds. Each has its specification in a file of `specs/`, and its function ends as that says,
//! over any network.
#![tactic(auto)]

mod answer;
mod edit;
mod follow;
mod look;
mod rounds;
mod shown;

pub use edit::{EditFault, edit_share};
pub use follow::{FollowFault, follow_share};
