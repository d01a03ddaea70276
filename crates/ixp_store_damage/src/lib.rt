//! Which row of a store is damaged.
//!
//! A store that holds no state of a registry has a first row, in the order of names, that is none or is
//! missing; or its rows break a rule, and one of them has the first line that breaks it
//! (`specs/Damages.antt`). The rows of a registry are put together as its dump, which `ixp_rows` reads.
#![tactic(auto)]

mod breaking;
mod decode;
mod dumped;
mod kept;
mod lines;
mod sections;

pub use breaking::sound_registry;
pub use decode::{damaged, sets};
pub use dumped::registry_told;
pub use kept::behind_kept;
pub use lines::{Left, missing, registry_rows};
