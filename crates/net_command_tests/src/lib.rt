//! Tests of the commands that use the network, in memory and over sockets. Nothing here is for other crates.
#![tactic(auto)]

#[cfg(test)]
mod edits;
#[cfg(test)]
mod follows;
#[cfg(test)]
mod kept_shares;
#[cfg(test)]
mod known;
#[cfg(test)]
mod loopback;
#[cfg(test)]
mod meetings;
#[cfg(test)]
mod nets;
#[cfg(test)]
mod relays;
#[cfg(test)]
mod runs;
#[cfg(test)]
mod shares;
