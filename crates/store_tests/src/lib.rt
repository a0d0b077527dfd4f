//! Tests of a share's history, stores, listings and mirrors. No crate uses this one.
#![tactic(auto)]

#[cfg(test)]
mod batches;
#[cfg(test)]
mod history;
#[cfg(test)]
mod index;
#[cfg(test)]
mod items;
#[cfg(test)]
mod listing_bodies;
#[cfg(test)]
mod listings;
#[cfg(test)]
mod lists;
#[cfg(test)]
mod logs;
#[cfg(test)]
mod mirrors;
#[cfg(test)]
mod registers;
#[cfg(test)]
mod rehearsals;
#[cfg(test)]
mod relays;
#[cfg(test)]
mod stores;
#[cfg(test)]
mod versions;
