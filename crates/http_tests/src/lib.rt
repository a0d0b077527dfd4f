//! Tests of HTTP's heads, requests, clients and replies, of clients that follow a share, of replayed scripts, and of a
//! file that keeps a share's edits. Nothing here is for other crates.
#![tactic(auto)]

#[cfg(test)]
mod clients;
#[cfg(test)]
mod followers;
#[cfg(test)]
mod heads;
#[cfg(test)]
mod kept_libraries;
#[cfg(test)]
mod plays;
#[cfg(test)]
mod pushes;
#[cfg(test)]
mod replies;
#[cfg(test)]
mod requests;
#[cfg(test)]
mod scripts;
#[cfg(test)]
mod wants;
