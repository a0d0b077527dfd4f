//! Tests of the crates for tags and for the catalogue, through their public calls. Nothing here is for other crates.
#![tactic(auto)]

#[cfg(test)]
mod codes;
#[cfg(test)]
mod items;
#[cfg(test)]
mod json;
#[cfg(test)]
mod lines;
#[cfg(test)]
mod queries;
#[cfg(test)]
mod records;
#[cfg(test)]
mod shown;
#[cfg(test)]
mod streams;
#[cfg(test)]
mod tables;
#[cfg(test)]
mod tags;
