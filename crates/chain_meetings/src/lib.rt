//! Laws of chains of relays, and of two runs of `serve` with one file. The crate has no code that runs; it joins the
//! specifications of these commands.
#![tactic(auto)]

pub mod laws;
