//! Tests of the outside: streams, connections, listeners and networks, in memory and over sockets; disks, and files of
//! batches on them. Other crates do not use this one.
#![tactic(auto)]

#[cfg(test)]
mod callers;
#[cfg(test)]
mod disks;
#[cfg(test)]
mod edit_files;
#[cfg(test)]
mod places;
#[cfg(test)]
mod probes;
#[cfg(test)]
mod remedies;
#[cfg(test)]
mod runtimes;
#[cfg(test)]
mod silence;
#[cfg(test)]
mod sockets;
#[cfg(test)]
mod streams;
#[cfg(test)]
mod waits;
