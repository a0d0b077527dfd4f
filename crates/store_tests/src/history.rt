//! `reference_share`: the definitions of `share_history`, computed for known histories.

mod bodies;
mod histories;
mod limits;
mod listings;
