//! The addresses that a network in memory was asked to listen at or to connect to.
ghost use Rattle.std.specs.Prelude.{◌≡◌, ◌≤◌, length};

use std::marker::Model;

/// The most bytes of a known address: a host name of 253, a colon, and a port of five digits.
pub(crate) const PLACE_ROOM: usize = 259;

/// The address of a call of `listen`, with the number of listeners, or of a call of `connect`, with 0.
#[derive(Drop)]
pub struct Asked {
    text: [u8; PLACE_ROOM],
    len: usize,
    listeners: u32,
}

impl Model for Asked {
    ghost use Rattle.std.specs.Prelude.{List, ℕ, ◌≤◌, take, length};

    ghost Value = { List ℕ × ℕ };

    ghost view = { λ a. (take a.len a.text, a.listeners) };

    ghost invariant = { λ a. a.len ≤ length a.text };
}

impl Asked {
    pub(crate) fn new(place: &str, listeners: u32) -> Asked
        requires { length place.now ≤ PLACE_ROOM }
        ensures { result ≡ (place.now, listeners) }
    {
        let mut text = [0; PLACE_ROOM];
        text[..place.len()].copy_from_slice(place.as_bytes());
        Asked {
            text,
            len: place.len(),
            listeners,
        }
    }

    /// Returns the address as it was passed in.
    pub fn place(&self) -> &[u8]
        ensures { result.now ≡ self.now.0 }
    {
        &self.text[..self.len]
    }

    /// Returns the number of listeners, or 0 for a connection.
    pub fn listeners(&self) -> u32
        ensures { result ≡ self.now.1 }
    {
        self.listeners
    }
}
