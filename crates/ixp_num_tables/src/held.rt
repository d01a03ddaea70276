//! A value that several owners hold, seen as the value.
ghost use Rattle.std.specs.Prelude.{◌≡◌, IfOk, MatchResult};
ghost use Rattle.std.specs.Arc.{arc_value};

use std::alloc::{AllocError, Global};
use std::marker::Model;
use std::sync::Arc;

/// A value that several owners hold. To share it costs the same whatever it holds.
#[derive(Drop)]
pub struct Held<T: Drop> {
    arc: Arc<T>,
}

impl<T: Drop> Model for Held<T> {
    ghost use Rattle.std.specs.Arc.{arc_value};

    ghost Value = { T };

    ghost coded = { T.code };

    ghost view = { λ h. arc_value h.arc };
}

impl<T: Drop> Held<T> {
    /// The value, with one owner.
    pub fn new(alloc: Global, value: T) -> Result<Held<T>, AllocError>
        ensures { IfOk result (λ h. h ≡ value) }
    {
        let arc = Arc::new(alloc, value)?;
        Ok(Held { arc })
    }

    /// The same value for one more owner. It does not allocate; it is refused where no more owners can be
    /// counted.
    pub fn shared(&self) -> Result<Held<T>, AllocError>
        ensures { IfOk result (λ h. h ≡ self.now) }
    {
        let arc = Arc::try_clone(&self.arc)?;
        Ok(Held { arc })
    }

    /// The value.
    pub fn get(&self) -> &T
        ensures { result.now ≡ self.now }
    {
        &*self.arc
    }

    /// The value itself, where this is its sole owner, else the owner again. It does not allocate.
    pub fn into_inner(self) -> Result<T, Held<T>>
        ensures { MatchResult result (λ v. v ≡ self) (λ h. h ≡ self) }
    {
        match Arc::try_unwrap(self.arc) {
            Ok(value) => Ok(value),
            Err(arc) => Err(Held { arc }),
        }
    }
}
