//! Lists of properties.

ghost use Rattle.std.specs.Prelude.{◌≡◌, ◌++◌, ◌∷◌, [], OnOk, OnErr, IfOk};

use crate::property::Property;
use std::alloc::{AllocError, Global};
use std::marker::Model;

/// A list of properties, in the order in which a request names them.
#[derive(Debug)]
pub struct Properties {
    items: Vec<Property>,
}

impl Drop for Properties {
    fn drop(self) {
        let Properties { items: _ } = self;
    }
}

impl Model for Properties {
    ghost use Rattle.std.specs.Prelude.{List};
    ghost use Rattle.item_model.specs.declared.property.Property.{Property};

    ghost Value = { List Property };

    ghost view = { λ a. a.items.items };
}

impl Properties {
    /// Returns an empty list. Does not allocate.
    pub fn new(alloc: Global) -> Properties
        ensures { result ≡ [] }
    {
        Properties {
            items: Vec::new(alloc),
        }
    }

    /// Returns the properties of the vector, without copying them.
    pub fn of(items: Vec<Property>) -> Properties
        ensures { result ≡ items.items }
    {
        Properties { items }
    }

    pub fn as_slice(&self) -> &[Property]
        ensures { result.now ≡ self.now }
    {
        self.items.as_slice()
    }

    /// Returns the properties as a vector. Does not allocate.
    pub fn into_vec(self) -> Vec<Property>
        ensures { result.items ≡ self }
    {
        let Properties { items } = self;
        items
    }

    /// Appends a property. If it fails, the properties are unchanged.
    pub fn push(&mut self, property: Property) -> Result<(), AllocError>
        ensures ok { OnOk result (self.new ≡ self.old ++ property ∷ []) }
        ensures err { OnErr result (self.new ≡ self.old) }
    {
        self.items.push(property)?;
        Ok(())
    }

    /// Returns a copy of the list.
    pub fn copy(&self) -> Result<Properties, AllocError>
        ensures { IfOk result (λ c. c ≡ self.now) }
    {
        Ok(Properties {
            items: self.items.clone()?,
        })
    }
}
