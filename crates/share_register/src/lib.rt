//! The history of a share with what every answer needs of it: the last-answered lengths of the live sessions, and
//! counts. No call searches the history. Before the stop, a logout and the stop do not allocate.
#![tactic(auto)]

mod register;

pub use register::Register;
