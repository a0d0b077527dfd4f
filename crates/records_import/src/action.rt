// The action of a record.

ghost use Rattle.std.specs.Prelude.{◌≡◌};
ghost use Rattle.records_import.specs.Actions.{drop_of_kind, is_property, least_id, put_of_kind, uses};

use crate::header::Column;
use item_model::Property;

/// An operation on a kind of thing.
#[derive(Clone, Copy, PartialEq, Eq)]
pub enum Action {
    PutItem,
    DropItem,
    PutList,
    PutRule,
    DropList,
    PutMember,
    DropMember,
}

impl Action {
    /// Returns the action that puts this kind of thing.
    pub fn put_of_kind(kind: &[u8]) -> Option<Action>
        ensures { result ≡ put_of_kind kind.now }
    {
        if kind == b"item".as_slice() {
            return Some(Action::PutItem);
        }
        if kind == b"list".as_slice() {
            return Some(Action::PutList);
        }
        if kind == b"rule".as_slice() {
            return Some(Action::PutRule);
        }
        if kind == b"member".as_slice() {
            return Some(Action::PutMember);
        }
        None
    }

    /// Returns the action that drops this kind of thing.
    pub fn drop_of_kind(kind: &[u8]) -> Option<Action>
        ensures { result ≡ drop_of_kind kind.now }
    {
        if kind == b"item".as_slice() {
            return Some(Action::DropItem);
        }
        if kind == b"list".as_slice() {
            return Some(Action::DropList);
        }
        if kind == b"member".as_slice() {
            return Some(Action::DropMember);
        }
        None
    }

    /// Returns the least id that may be put or dropped. List 1 always exists, and no record names it.
    pub fn least_id(self) -> u32
        ensures { result ≡ least_id self }
    {
        match self {
            Action::PutItem | Action::DropItem | Action::PutMember | Action::DropMember => 1,
            Action::PutList | Action::PutRule | Action::DropList => 2,
        }
    }

    /// Returns whether the action uses the cells of a column.
    pub fn uses(self, column: Column) -> bool
        ensures { result ≡ uses self column }
    {
        match self {
            Action::PutItem => is_property(column),
            Action::DropItem => false,
            Action::PutList => column.is_same(Column::Property(Property::Minm)),
            Action::PutRule => {
                column.is_same(Column::Property(Property::Minm)) || column.is_same(Column::Query)
            }
            Action::DropList => false,
            Action::PutMember => column.is_same(Column::List) || column.is_same(Column::Item),
            Action::DropMember => column.is_same(Column::List),
        }
    }
}

fn is_property(column: Column) -> bool
    ensures { result ≡ is_property column }
{
    match column {
        Column::Property(_) => true,
        _ => false,
    }
}
