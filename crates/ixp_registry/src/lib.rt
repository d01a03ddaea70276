//! The rows of an exchange's registry, and which registries are valid.
//!
//! [`Registry`] is what the program keeps: the site, its members with their contacts, API keys, ports and
//! interfaces, the VLANs, the route servers, the lists that filters are made of, and the public lists.
//! [`Rows`] are the same rows as they stand in a dump or a store, one kind of row after the other, each with
//! its key. `specs/Valid.antt` says which registries are valid, table by table; `specs/Rules.antt` the same
//! as rules over rows, with the line of the first row that breaks one; `specs/Registries.antt` what a
//! registry's rows are.
//!
//! The tests that those rules are made of stand here too: alphabets of texts, rows that are named, hosts of a
//! VLAN. [`first`] and [`first_beyond`] find the first row that breaks a sentence, and [`earliest`] joins
//! several sentences' answers. Places are the numbers of lines in a dump.
#![tactic(auto)]

mod alphabets;
mod breach;
mod copies;
mod counts;
mod edit_kind;
mod handle;
mod keys;
mod kind;
mod lines;
mod lists;
mod lookups;
mod members;
mod network;
mod places;
mod public_kind;
mod refusal;
mod registry;
mod router;
mod rows;
mod rules;
mod sessions;
mod site;
mod weights;

pub use alphabets::{is_handle, is_key_secret, is_label, is_macro, is_note, is_session_secret};
pub use breach::Breach;
pub use counts::{Counted, first_beyond};
pub use edit_kind::EditKind;
pub use handle::Handle;
pub use keys::Key;
pub use kind::{KINDS, Kind};
pub use lines::{
    addresses_at, bogon_as_at, bogons_at, contacts_at, has_lines, interfaces_at, keys_at,
    members_at, origins_at, ports_at, prefixes_at, roas_at, routers_at, rules_at, site_at,
    switches_at, transit_at, vlans_at,
};
pub use lists::{IrrList, MemberOrigin, MemberPrefix, OriginList, PublicLists};
pub use lookups::{
    column, has_addr, has_blackhole, has_interface, has_left, has_member, has_owner, has_port,
    has_switch, has_vlan, is_connected, is_host, is_host_at, is_host_in, is_host_of,
    is_member_connected, is_port_of, prefix_in,
};
pub use members::{ApiKey, Contact, Member, Owner, Status};
pub use network::{AddressRow, IfAddr, Interface, InterfaceRow, Port, Switch, Vlan};
pub use places::{earliest, first};
pub use public_kind::PublicKind;
pub use refusal::{Limited, Refusal, Right, RowKey, TextField};
pub use registry::Registry;
pub use router::Router;
pub use rows::Rows;
pub use rules::{Action, MemberRule, RuleList, Way};
pub use sessions::{address_of, is_session};
pub use site::Site;
pub use weights::{list_length, router_weight, vlan_weight};
