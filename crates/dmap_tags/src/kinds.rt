//! Kinds of values.

ghost use Rattle.std.specs.Prelude.{◌≡◌};

/// The kind of a tag's value. A `List` has tags, an `Opaque` value has bytes that no kind interprets.
#[derive(Clone, Copy, Debug, PartialEq, Eq)]
pub enum Kind {
    U8,
    I8,
    U16,
    I16,
    U32,
    I32,
    U64,
    I64,
    Text,
    Date,
    Version,
    List,
    Opaque,
}

impl Kind {
    ghost use Rattle.dmap_tags.specs.Kinds.{kind_number, IsKindOf};

    /// Returns the kind's number in `/content-codes`, 1 to 12, or `None` for `Opaque`.
    pub fn number(self) -> Option<u16>
        ensures { result ≡ kind_number self }
    {
        match self {
            Kind::U8 => Some(1),
            Kind::I8 => Some(2),
            Kind::U16 => Some(3),
            Kind::I16 => Some(4),
            Kind::U32 => Some(5),
            Kind::I32 => Some(6),
            Kind::U64 => Some(7),
            Kind::I64 => Some(8),
            Kind::Text => Some(9),
            Kind::Date => Some(10),
            Kind::Version => Some(11),
            Kind::List => Some(12),
            Kind::Opaque => None,
        }
    }

    /// Returns the kind with number `n` in `/content-codes`, or `Opaque` if there is none.
    pub fn of_number(n: u16) -> Kind
        ensures { IsKindOf n result }
    {
        match n {
            1 => Kind::U8,
            2 => Kind::I8,
            3 => Kind::U16,
            4 => Kind::I16,
            5 => Kind::U32,
            6 => Kind::I32,
            7 => Kind::U64,
            8 => Kind::I64,
            9 => Kind::Text,
            10 => Kind::Date,
            11 => Kind::Version,
            12 => Kind::List,
            _ => Kind::Opaque,
        }
    }
}
