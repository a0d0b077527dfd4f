//! One connection, served to its end.

mod ending;
mod exchanging;
mod reading;
mod serving;
mod writing;

pub use serving::{keep_link, serve_link};
