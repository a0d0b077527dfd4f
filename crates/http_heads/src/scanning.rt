//! The end of a head, found byte by byte.

ghost use Rattle.std.specs.Prelude.{◌≡◌, ◌≢◌, ◌<◌, ◌≤◌, ◌+◌, ◌-◌, ◌^◌, length, take, slice_index, Some, None, IfSome, IfNone};
ghost use Rattle.http_heads.specs.Scanning.{start, begun_with, at_line_end, after_byte, after};

/// What the current line has so far.
#[derive(Clone, Copy, PartialEq, Eq)]
pub enum Begun {
    Nothing,
    /// Only a carriage return.
    Return,
    /// More, so that the line is not empty.
    Text,
}

/// The number of complete nonempty lines, and the start of the next line.
#[derive(Clone, Copy, PartialEq, Eq)]
pub struct Scan {
    pub full: u64,
    pub begun: Begun,
}

impl Scan {
    /// Returns the state before the first byte.
    pub fn new() -> Scan
        ensures { result ≡ start }
    {
        Scan {
            full: 0,
            begun: Begun::Nothing,
        }
    }

    /// Scans for the end of the head. Returns the number of bytes of `piece` up to and with it, or `None`.
    pub fn find_end(&mut self, piece: &[u8]) -> Option<usize>
        requires { self.old.full + length piece.now < 2 ^ 64 }
        ensures none { IfNone result (after self.old piece.now ≡ Some self.new) }
        ensures within { IfSome result (λ n. (0 < n) × (n ≤ length piece.now)) }
        ensures front { IfSome result
            (λ n. after self.old (take (n - 1) piece.now) ≡ Some self.new) }
        ensures end { IfSome result (λ n. after_byte self.new (slice_index piece.now (n - 1))
            ≡ None) }
    {
        for (i, byte) in piece.iter().enumerate() {
            match self.behind(*byte) {
                Some(scan) => *self = scan,
                None => return Some(i + 1),
            }
        }
        None
    }

    // Returns the state after `byte`, or `None` if the head ends with it.
    fn behind(self, byte: u8) -> Option<Scan>
        requires { self.full + 1 < 2 ^ 64 }
        ensures { result ≡ after_byte self byte }
    {
        if byte == b'\n' {
            return self.at_line_end();
        }
        Some(Scan {
            full: self.full,
            begun: self.begun.with(byte),
        })
    }

    fn at_line_end(self) -> Option<Scan>
        requires { self.full + 1 < 2 ^ 64 }
        ensures { result ≡ at_line_end self.begun self.full }
    {
        match self.begun {
            Begun::Text => Some(Scan {
                full: self.full + 1,
                begun: Begun::Nothing,
            }),
            Begun::Nothing | Begun::Return => self.unless_last(),
        }
    }

    // Returns the state after an empty line.
    fn unless_last(self) -> Option<Scan>
        requires { self.begun ≢ Begun.Text }
        ensures { result ≡ at_line_end self.begun self.full }
    {
        if self.full == 0 {
            Some(Scan::new())
        } else {
            None
        }
    }
}

impl Begun {
    fn with(self, byte: u8) -> Begun
        ensures { result ≡ begun_with self byte }
    {
        match self {
            Begun::Nothing if byte == b'\r' => Begun::Return,
            _ => Begun::Text,
        }
    }
}
