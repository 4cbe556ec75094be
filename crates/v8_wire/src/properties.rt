//! The properties of an object, while they are read.
ghost use Rattle.std.specs.Prelude.{◌≡◌, ◌∷◌, [], ◌++◌, ℕ, List, IfOk, IsTrue, not, length};
ghost use Rattle.v8_wire.specs.Contents.{is_new};

use indexmap::IndexSet;
use parcel::Item;
use sqlite_items::Items;
use std::alloc::{AllocError, Global};
use std::marker::Model;
use wl_text::Units;

/// Keys and values in order, with a table of the keys: a contract sees them as the list of pairs.
#[derive(Drop)]
pub(crate) struct Properties {
    items: Items<(Units, Item)>,
    names: IndexSet<Units>,
}

impl Model for Properties {
    ghost use Rattle.std.specs.Prelude.{ℕ, List, map, ◌≡◌};
    ghost use Rattle.parcel.specs.declared.parcel.Item.{Item};

    ghost Value = { List (List ℕ × Item) };

    ghost view = { λ properties. properties.items };

    ghost invariant = { λ properties. properties.names.keys ≡ map (λ property. property.0) properties.items };
}

impl Properties {
    /// No properties.
    pub fn new(alloc: Global) -> Properties
        ensures { result ≡ [] }
    {
        Properties {
            items: Items::new(alloc),
            names: IndexSet::new(alloc),
        }
    }

    /// How many properties there are.
    pub fn len(&self) -> usize
        ensures { result ≡ length self.now }
    {
        self.items.len()
    }

    /// Whether no property has this key. The cost doesn't grow with the number of properties.
    pub fn lacks(&self, key: &Units) -> bool
        ensures { result ≡ is_new key.now self.now }
    {
        !self.names.contains(key)
    }

    /// A property more, with a key that is new.
    pub fn with(self, alloc: Global, key: Units, value: Item) -> Result<Properties, AllocError>
        requires { IsTrue (is_new key self) }
        ensures { IfOk result (λ properties. properties ≡ self ++ (key, value) ∷ []) }
    {
        let Properties {
            mut items,
            mut names,
        } = self;
        let name = key.copy(alloc)?;
        names.insert(name)?;
        items.push((key, value))?;
        Ok(Properties { items, names })
    }

    /// The properties.
    pub fn into_items(self) -> Items<(Units, Item)>
        ensures { result ≡ self }
    {
        let Properties { items, names: _ } = self;
        items
    }
}
