//! What clients read of a share over a connection that it served: what a mirror holds, when runs of `follow`, `edit` and
//! `relay` go on, and what runs of `follow` write of a run of `serve` or `relay`. The crate has no code that runs; it
//! joins the specifications of both ends.
#![tactic(auto)]

pub mod laws;
