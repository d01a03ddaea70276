//! The requests by which the demo exchange is edited.
ghost use Rattle.std.specs.Prelude.{◌≡◌, ◌<◌, IfOk};
ghost use Rattle.ixp_build_demo.specs.Builds.{demo_request};

use ixp_machine_edits::{Edit, NewRule};
use ixp_machine_steps::Entry;
use ixp_num_tables::Items;
use ixp_registry::{Action, Way};
use std::alloc::{AllocError, Global};

/// The secret of the staff's API key.
const SECRET: &[u8] = b"staff00000000001";

/// The request to set the rules of member k + 1.
#[tactic(auto, using(crate::proofs::SameRequests::is_request))]
pub(crate) fn request_of(alloc: Global, k: u32) -> Result<Entry, AllocError>
    requires { k < 100 }
    ensures { IfOk result (λ e. e ≡ demo_request k) }
{
    let rule = NewRule {
        way: Way::Advertise,
        peer: None,
        prefix: None,
        action: Action::AsIs,
    };
    Ok(Entry {
        secret: Items::from_slice(alloc, SECRET)?,
        number: u64::from(k % 100) + 1,
        edit: Edit::SetRules {
            member: k % 100 + 1,
            rules: Items::from_slice(alloc, &[rule])?,
        },
    })
}
