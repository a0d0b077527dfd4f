//! Tests of the commands that need no network, and of the command line. Nothing here is for other crates.
#![tactic(auto)]

#[cfg(test)]
mod listings;
#[cfg(test)]
mod outcomes;
#[cfg(test)]
mod read_errors;
#[cfg(test)]
mod rehearsals;
#[cfg(test)]
mod replays;
#[cfg(test)]
mod runs;
#[cfg(test)]
mod words;
