//! What queries are evaluated on.

ghost use Rattle.std.specs.Prelude.{◌≡◌};
ghost use Rattle.item_model.specs.declared.item.Row.{Row as ItemRow};
ghost use Rattle.item_model.specs.Items.{value_of};
ghost use Rattle.item_model.specs.Folds.{IsSoughtIfAny};

use item_model::{Property, Row, Sought};

/// A row, or something that has a row's values in another form.
pub trait Searched {
    // The row that it represents.
    ghost represents: { Self → ItemRow };

    /// Returns the row's id.
    fn id(&self) -> u32
        ensures id { result ≡ (represents self.now).id };

    /// Returns the value of the row's property that a condition compares. Does not allocate.
    fn sought(&self, property: Property) -> Option<Sought<'_>>
        ensures sought { IsSoughtIfAny (value_of property (represents self.now).item) result };
}

impl Searched for Row {
    ghost represents = { λ row. row };

    fn id(&self) -> u32 {
        self.id
    }

    fn sought(&self, property: Property) -> Option<Sought<'_>> {
        self.item.sought(property)
    }
}
