//! Definitions of what a share replies and what it adds to its history, as functions of its settings, its history and
//! the request. The definitions are in `specs/`; `laws` has theorems about them.
#![tactic(auto)]

pub mod laws;
