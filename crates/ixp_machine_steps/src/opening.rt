//! The first state.
ghost use Rattle.std.specs.Prelude.{◌≡◌};
ghost use Rattle.ixp_machine_steps.specs.Openings.{first_state};
ghost use Rattle.ixp_registry.specs.Valid.{Valid};
ghost use Rattle.ixp_machine_steps.specs.States.{ValidState};

use crate::State;
use crate::weighing::{prefixes_of, weight_of};
use ixp_num_tables::Table;
use ixp_registry::Registry;
use std::alloc::Global;

/// The state of a registry before any request. It does not allocate.
pub fn first_state(alloc: Global, registry: Registry) -> State
    requires { Valid registry }
    ensures state { result ≡ first_state registry }
    ensures valid { ValidState result }
{
    let weight = weight_of(&registry);
    let prefixes = prefixes_of(&registry.irr);
    State {
        registry,
        kept: Table::new(alloc),
        accepted: 0,
        weight,
        prefixes,
    }
}
