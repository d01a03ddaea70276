//! Copies of names that do not allocate.
ghost use Rattle.std.specs.Prelude.{◌≡◌};

use arrayvec::ArrayVec;
use ixp_num::Name;
use std::marker::Model;

/// The bytes of a name, held in place, so that a refusal can carry them where no memory may be taken.
#[derive(Debug, Drop)]
pub struct Handle {
    bytes: ArrayVec<u8, 64>,
}

impl Model for Handle {
    ghost use Rattle.std.specs.Prelude.{List, ℕ};

    ghost Value = { List ℕ };

    ghost view = { λ h. h.bytes.items };
}

impl Handle {
    /// A copy of the name.
    pub fn of(name: &Name) -> Handle
        ensures { result ≡ name.now }
    {
        let mut bytes = ArrayVec::new();
        if bytes.try_extend_from_slice(name.as_bytes()).is_err() {
            unreachable!();
        }
        Handle { bytes }
    }

    /// The bytes of the name.
    pub fn as_bytes(&self) -> &[u8]
        ensures { result.now ≡ self.now }
    {
        self.bytes.as_slice()
    }
}
