//! The demo exchange in a store, and a request to change it.
ghost use Rattle.std.specs.Prelude.{◌<◌, ◌^◌};

use ixp_io::{MemKeeper, Plan};
use ixp_machine_edits::{Edit, NewRule};
use ixp_machine_steps::{Entry, first_state};
use ixp_num::{Asn, Items, Name};
use ixp_registry::{Action, Way, is_handle};
use ixp_registry_demo::demo_registry;
use ixp_store_rows::fill;
use std::alloc::{AllocError, Global};

/// The secret of the staff's key.
pub const STAFF: &[u8] = b"staff00000000001";

/// A store that has the demo exchange with three members.
pub fn stored(alloc: Global) -> Option<MemKeeper> {
    let registry = demo_registry(alloc, 3).ok()?;
    let state = first_state(alloc, registry);
    let mut keeper = MemKeeper::new(alloc, Plan::smooth(alloc));
    fill(alloc, &mut keeper, &state).ok()?;
    Some(keeper)
}

/// The peer of the rule of the request with this number: as a number, and as the session's text has it.
fn peer_of(number: u64) -> (u32, &'static str) {
    if number % 2 == 0 {
        (65102, "65102")
    } else {
        (65101, "65101")
    }
}

/// The peer of the request's rule, as the text of the session of member 1 has it then.
pub fn peer_text(number: u64) -> &'static str {
    let (_, text) = peer_of(number);
    text
}

/// The request with this number to give member 1 one rule, by which its routes aren't sent to a peer. It
/// changes the text of the member's session, which names the peer.
pub fn request(alloc: Global, number: u64) -> Result<Entry, AllocError>
    requires some { 0 < number }
    requires small { number < 10 ^ 16 }
{
    let secret = Items::from_slice(alloc, STAFF)?;
    let (peer, _) = peer_of(number);
    let rule = NewRule {
        way: Way::Advertise,
        peer: Some(Asn(peer)),
        prefix: None,
        action: Action::Stop,
    };
    let rules = Items::from_slice(alloc, &[rule])?;
    Ok(Entry {
        secret,
        number,
        edit: Edit::SetRules { member: 1, rules },
    })
}

/// The handle that a text is.
#[tactic(auto, using(ixp_registry::proofs::HandleNames::handle_is_name))]
pub fn handle(alloc: Global, text: &[u8]) -> Option<Name> {
    if !is_handle(text) {
        return None;
    }
    Name::new(alloc, text).ok()
}
