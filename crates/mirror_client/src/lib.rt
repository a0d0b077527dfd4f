//! A client that follows one listing of a share over a connection, and one that sends edits. They write the requests
//! of `http_client`. The mirror holds the listings that were read, applied one after another.
#![tactic(auto)]

mod asking;
mod exchanging;
mod fetching;
mod follower;
mod following;
mod incoming;
pub mod laws;
mod pushing;
mod receiving;
mod refusal;

pub use follower::Follower;
pub use following::follow_link;
pub use pushing::{Pushed, push_link};
pub use refusal::FollowError;
