//! Values grouped by names.
//!
//! `values_of` (`specs/Values.antt`) are the values of a name, in the order in which they were added.
use std::alloc::{AllocError, Global};
use std::collections::BTreeMap;

/// Values by their names.
#[derive(Drop)]
pub struct Groups<'a, T: Drop> {
    by_name: BTreeMap<&'a [u8], Vec<T>>,
}

impl<'a, T: Drop> Groups<'a, T> {
    ghost use Rattle.std.specs.Prelude.{◌≡◌, ℕ, List, [], ◌∷◌, ◌++◌, OnOk, if◌then◌else◌};
    ghost use Rattle.ixp_lang.specs.Meaning.{same_name};
    ghost use Rattle.ixp_lang.specs.Values.{values_of};

    /// No values.
    pub fn new(alloc: Global) -> Groups<'a, T>
        ensures { (name : List ℕ) → values_of result name ≡ [] }
    {
        Groups {
            by_name: BTreeMap::new(alloc),
        }
    }

    /// The values of a name.
    pub fn of(&self, name: &'a [u8]) -> &[T]
        ensures { result.now ≡ values_of self.now name.now }
    {
        match self.by_name.get(&name) {
            Some(values) => values.as_slice(),
            None => &[],
        }
    }

    /// Takes the values of a name out.
    pub fn take(&mut self, alloc: Global, name: &'a [u8]) -> Vec<T>
        ensures values { result.items ≡ values_of self.old name.now }
        ensures others { (n : List ℕ)
            → values_of self.new n ≡ (if same_name name.now n then [] else values_of self.old n) }
    {
        match self.by_name.remove(&name) {
            Some(values) => values,
            None => Vec::new(alloc),
        }
    }

    /// Adds a value behind those of the name.
    pub fn add(&mut self, alloc: Global, name: &'a [u8], value: T) -> Result<(), AllocError>
        ensures { OnOk result
            ((n : List ℕ) → values_of self.new n
            ≡ (if same_name name.now n then values_of self.old n ++ value ∷ []
            else values_of self.old n)) }
    {
        let mut values = self.take(alloc, name);
        values.push(value)?;
        let _ = self.by_name.insert(name, values)?;
        Ok(())
    }
}
