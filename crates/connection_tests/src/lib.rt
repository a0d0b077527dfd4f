//! Tests of whole connections, of workers, each by itself and in threads, and of requests at the limits of a share.
//! Nothing here is for other crates.
#![tactic(auto)]

#[cfg(test)]
mod alone;
#[cfg(test)]
mod connections;
#[cfg(test)]
mod crowd;
#[cfg(test)]
mod gated;
#[cfg(test)]
mod held;
#[cfg(test)]
mod hiring;
#[cfg(test)]
mod hostile;
#[cfg(test)]
mod keepers;
#[cfg(test)]
mod kept;
#[cfg(test)]
mod limits;
#[cfg(test)]
mod many;
#[cfg(test)]
mod marks;
#[cfg(test)]
mod shares;
