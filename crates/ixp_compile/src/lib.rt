//! The text of a route server by the rows of a registry, as trees, and what each part of it does.
//!
//! `specs/Header.antt`, `specs/Fragment.antt` and `specs/MemberRules.antt` have the text,
//! `specs/Generated.antt` the whole of it by the rows. Each law is the contract of a function without a body.
#![tactic(auto)]

mod example_laws;
mod import_laws;
mod inputs;
mod pipe_laws;
mod shared_laws;
mod walk_laws;

pub use example_laws::{example_is_printed, plain_example_is_printed};
pub use import_laws::import_tags;
pub use inputs::{HeaderInputs, Inputs};
pub use pipe_laws::{down_passes_on, receive_is_receives, rules_decide, up_passes};
pub use shared_laws::{
    blackhole_is_blackhole, bogon_as_refuses, count_is_prepends, drop_refuses, head_is_shared,
    net_refuses, out_cleans, pad_pads, sends_is_sends, transit_refuses,
};
pub use walk_laws::{own_part_tells, walk_is_fate};
