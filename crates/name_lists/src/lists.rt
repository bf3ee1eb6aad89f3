// A list of names, with a map from bytes to numbers.

ghost use Rattle.std.specs.Prelude.{◌≡◌, ◌++◌, [], ◌∷◌, IfOk, OnOk, length, slice_get};
ghost use Rattle.std.specs.Option.{option_copied};
ghost use Rattle.name_lists.specs.Names.{last_place};

use slang_names::Name;
use sqlite_items::{Items, at as item_at};
use std::alloc::{AllocError, Global};
use std::collections::BTreeMap;
use std::marker::Model;
use std::mem;

/// Names in order. A contract sees the list of their bytes.
#[derive(Drop)]
pub struct NameList {
    names: Items<Name>,
    places: BTreeMap<Vec<u8>, usize>,
}

impl Model for NameList {
    ghost use Rattle.std.specs.Prelude.{ℕ, List};
    ghost use Rattle.name_lists.specs.Inside.{names_of, IsFound};

    ghost Value = { List (List ℕ) };

    ghost view = { names_of };

    ghost invariant = { IsFound };
}

impl NameList {
    /// No names.
    pub fn new(alloc: Global) -> NameList
        ensures { result ≡ [] }
    {
        NameList {
            names: Items::new(alloc),
            places: BTreeMap::new(alloc),
        }
    }

    /// The list with one more name at its end.
    pub fn with(self, alloc: Global, name: &[u8]) -> Result<NameList, AllocError>
        ensures { IfOk result (λ list. list ≡ self ++ name.now ∷ []) }
    {
        let NameList {
            mut names,
            mut places,
        } = self;
        let at = names.len();
        let key = Vec::from_slice(alloc, name)?;
        places.insert(key, at)?;
        names.push(Name::from_slice(alloc, name)?)?;
        Ok(NameList { names, places })
    }

    /// One more name at the end.
    pub fn push(&mut self, alloc: Global, name: &[u8]) -> Result<(), AllocError>
        ensures { OnOk result (self.new ≡ self.old ++ name.now ∷ []) }
    {
        let names = mem::replace(self, NameList::new(alloc));
        *self = names.with(alloc, name)?;
        Ok(())
    }

    /// How many names there are.
    pub fn len(&self) -> usize
        ensures { result ≡ length self.now }
    {
        self.names.len()
    }

    /// The name of that number, counted from 0.
    pub fn get(&self, at: usize) -> Option<&Name>
        ensures { option_copied result ≡ slice_get self.now at }
    {
        item_at(self.names.as_slice(), at)
    }

    /// The number of the last name that has these bytes, counted from 0.
    pub fn find(&self, name: &[u8]) -> Option<usize>
        ensures { result ≡ last_place name.now self.now 0 }
    {
        self.places.get(name).copied()
    }
}
