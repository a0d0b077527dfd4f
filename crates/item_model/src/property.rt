//! The properties that an item may have.

ghost use Rattle.std.specs.Prelude.{◌≡◌, map};
ghost use Rattle.std.specs.List.{find};
ghost use Rattle.std.specs.Str.{bytes_eq};
ghost use Rattle.dmap_tags.specs.Codes.{code_bytes, code_of};
ghost use Rattle.item_model.specs.Properties.{all_properties, rank_of, property_row, property_code, property_name, property_kind, property_named, property_coded};

use dmap_tags::{Code, Kind};

/// A property of an item, named for its content code.
#[derive(Clone, Copy, Debug, PartialEq, Eq)]
pub enum Property {
    Minm,
    Mikd,
    Mper,
    Asar,
    Asal,
    Asaa,
    Asgn,
    Ascp,
    Ascm,
    Agrp,
    Asfm,
    Asyr,
    Astn,
    Astc,
    Asdn,
    Asdc,
    Asbr,
    Asbt,
    Astm,
    Assr,
    Assz,
    Asur,
    Asco,
    Aemk,
    Asda,
    Asdm,
}

/// The properties in the order of listings.
pub const PROPERTIES: [Property; 26] = [
    Property::Minm,
    Property::Mikd,
    Property::Mper,
    Property::Asar,
    Property::Asal,
    Property::Asaa,
    Property::Asgn,
    Property::Ascp,
    Property::Ascm,
    Property::Agrp,
    Property::Asfm,
    Property::Asyr,
    Property::Astn,
    Property::Astc,
    Property::Asdn,
    Property::Asdc,
    Property::Asbr,
    Property::Asbt,
    Property::Astm,
    Property::Assr,
    Property::Assz,
    Property::Asur,
    Property::Asco,
    Property::Aemk,
    Property::Asda,
    Property::Asdm,
];

/// The properties that a listing shows if the request names none, in order.
pub const DEFAULT_PROJECTION: [Property; 6] = [
    Property::Mikd,
    Property::Minm,
    Property::Asar,
    Property::Asal,
    Property::Astn,
    Property::Astm,
];

/// The content code, the name and the kind of a property.
#[derive(Clone, Copy)]
struct PropertyRow([u8; 4], &'static str, Kind);

/// The rows of the properties, in the order of listings.
static ROWS: [PropertyRow; 26] = [
    PropertyRow(*b"minm", "dmap.itemname", Kind::Text),
    PropertyRow(*b"mikd", "dmap.itemkind", Kind::U8),
    PropertyRow(*b"mper", "dmap.persistentid", Kind::U64),
    PropertyRow(*b"asar", "daap.songartist", Kind::Text),
    PropertyRow(*b"asal", "daap.songalbum", Kind::Text),
    PropertyRow(*b"asaa", "daap.songalbumartist", Kind::Text),
    PropertyRow(*b"asgn", "daap.songgenre", Kind::Text),
    PropertyRow(*b"ascp", "daap.songcomposer", Kind::Text),
    PropertyRow(*b"ascm", "daap.songcomment", Kind::Text),
    PropertyRow(*b"agrp", "daap.songgrouping", Kind::Text),
    PropertyRow(*b"asfm", "daap.songformat", Kind::Text),
    PropertyRow(*b"asyr", "daap.songyear", Kind::U16),
    PropertyRow(*b"astn", "daap.songtracknumber", Kind::U16),
    PropertyRow(*b"astc", "daap.songtrackcount", Kind::U16),
    PropertyRow(*b"asdn", "daap.songdiscnumber", Kind::U16),
    PropertyRow(*b"asdc", "daap.songdisccount", Kind::U16),
    PropertyRow(*b"asbr", "daap.songbitrate", Kind::U16),
    PropertyRow(*b"asbt", "daap.songbeatsperminute", Kind::U16),
    PropertyRow(*b"astm", "daap.songtime", Kind::U32),
    PropertyRow(*b"assr", "daap.songsamplerate", Kind::U32),
    PropertyRow(*b"assz", "daap.songsize", Kind::U32),
    PropertyRow(*b"asur", "daap.songuserrating", Kind::U8),
    PropertyRow(*b"asco", "daap.songcompilation", Kind::U8),
    PropertyRow(*b"aeMK", "com.apple.itunes.mediakind", Kind::U8),
    PropertyRow(*b"asda", "daap.songdateadded", Kind::Date),
    PropertyRow(*b"asdm", "daap.songdatemodified", Kind::Date),
];

impl Property {
    /// Returns the property's index in the order of listings, from 0.
    pub fn rank(self) -> usize
        ensures { result ≡ rank_of self }
    {
        self as usize
    }

    /// Returns the property's row.
    fn row(self) -> PropertyRow
        ensures { (code_of result.0, result.1.now, result.2) ≡ property_row self }
    {
        row_in(&ROWS, self)
    }

    /// Returns the content code of the property's tags.
    pub fn code(self) -> Code
        ensures { result ≡ property_code self }
    {
        Code(self.row().0)
    }

    /// Returns the property's name in queries, records and the `meta` parameter.
    pub fn name(self) -> &'static str
        ensures { result.now ≡ property_name self }
    {
        self.row().1
    }

    /// Returns the kind of the property's values.
    pub fn kind(self) -> Kind
        ensures { result ≡ property_kind self }
    {
        self.row().2
    }

    /// Returns the property with the name.
    pub fn by_name(name: &str) -> Option<Property>
        ensures { result ≡ property_named name.now }
    {
        property_of_name(name.as_bytes())
    }

    /// Returns the property with the content code.
    pub fn by_code(code: Code) -> Option<Property>
        ensures { result ≡ property_coded code }
    {
        first_coded(&PROPERTIES, code)
    }
}

/// Returns the row of a property in a table that has the rows of all in order.
fn row_in(rows: &[PropertyRow], property: Property) -> PropertyRow
    requires { map (λ row. (code_of row.0, row.1.now, row.2)) rows.now
        ≡ map property_row all_properties }
    ensures { (code_of result.0, result.1.now, result.2) ≡ property_row property }
{
    rows[property.rank()]
}

pub(crate) fn property_of_name(name: &[u8]) -> Option<Property>
    ensures { result ≡ property_named name.now }
{
    first_named(&PROPERTIES, name)
}

fn first_named(properties: &[Property], name: &[u8]) -> Option<Property>
    ensures { result ≡ find (λ p. bytes_eq (property_name p) name.now) properties.now }
{
    properties
        .iter()
        .copied()
        .find(|p| p.name().as_bytes() == name)
}

fn first_coded(properties: &[Property], code: Code) -> Option<Property>
    ensures { result ≡ find (λ p. bytes_eq (code_bytes (property_code p)) (code_bytes code))
        properties.now }
{
    properties.iter().copied().find(|p| p.code() == code)
}
