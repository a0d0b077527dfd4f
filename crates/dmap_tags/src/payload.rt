//! Texts and byte strings in payloads.

ghost use Rattle.std.specs.Prelude.{◌≡◌, ℕ, List, IfOk, MatchResult, string_bytes, true, false};
ghost use Rattle.std.specs.Str.{is_utf8};

use std::alloc::{AllocError, Global};
use std::marker::Model;

/// A text in UTF-8, which contracts see as its bytes.
#[derive(Debug)]
pub struct Text {
    text: String,
}

impl Drop for Text {
    fn drop(self) {
        let Text { text: _ } = self;
    }
}

impl Model for Text {
    ghost Value = { List ℕ };

    ghost view = { λ a. string_bytes a.text };
}

impl Text {
    /// Returns a copy of `text`.
    pub fn of(alloc: Global, text: &str) -> Result<Text, AllocError>
        ensures { IfOk result (λ t. t ≡ text.now) }
    {
        Ok(Text {
            text: String::from_str(alloc, text)?,
        })
    }

    /// Returns `bytes` as a text, without copying them, or as `Bytes` if they aren't UTF-8.
    pub fn from_utf8(bytes: Vec<u8>) -> Result<Text, Bytes>
        ensures { MatchResult result (λ t. (t ≡ bytes.items) × (is_utf8 bytes.items ≡ true))
            (λ b. (b ≡ bytes.items) × (is_utf8 bytes.items ≡ false)) }
    {
        match String::from_utf8(bytes) {
            Ok(text) => Ok(Text { text }),
            Err(error) => Err(Bytes {
                bytes: error.into_bytes(),
            }),
        }
    }

    pub fn as_str(&self) -> &str
        ensures { result.now ≡ self.now }
    {
        self.text.as_str()
    }

    /// Returns a copy of the text.
    pub fn copy(&self) -> Result<Text, AllocError>
        ensures { IfOk result (λ t. t ≡ self.now) }
    {
        Ok(Text {
            text: self.text.clone()?,
        })
    }
}

/// Bytes that no kind interprets.
#[derive(Debug)]
pub struct Bytes {
    bytes: Vec<u8>,
}

impl Drop for Bytes {
    fn drop(self) {
        let Bytes { bytes: _ } = self;
    }
}

impl Model for Bytes {
    ghost Value = { List ℕ };

    ghost view = { λ a. a.bytes.items };
}

impl Bytes {
    /// Returns a copy of `bytes`.
    pub fn of(alloc: Global, bytes: &[u8]) -> Result<Bytes, AllocError>
        ensures { IfOk result (λ b. b ≡ bytes.now) }
    {
        Ok(Bytes {
            bytes: Vec::from_slice(alloc, bytes)?,
        })
    }

    pub fn as_slice(&self) -> &[u8]
        ensures { result.now ≡ self.now }
    {
        self.bytes.as_slice()
    }

    /// Returns a copy of the bytes.
    pub fn copy(&self) -> Result<Bytes, AllocError>
        ensures { IfOk result (λ b. b ≡ self.now) }
    {
        Ok(Bytes {
            bytes: self.bytes.clone()?,
        })
    }
}

/// Takes ownership of the vector, without copying it.
impl From<Vec<u8>> for Bytes {
    ghost from_gives = { λ v b. b ≡ v.items };

    fn from(bytes: Vec<u8>) -> Bytes {
        Bytes { bytes }
    }
}
