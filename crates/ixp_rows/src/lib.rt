//! Dumps of a registry.
//!
//! [`read_dump`], [`read_dump_1`] and [`read_any_dump`] read the dump of a valid registry in version 2 or 1
//! of the format, or in the one that its first line says; `specs/Dumps.antt` says what they answer.
//! [`print_dump`] prints a registry. [`read_rows`] reads rows whether or not they are valid:
//! `specs/Answers.antt` says which fault a text has and on which line. `one_answer` says that no text has two
//! answers, `one_registry` the same of registries, `printed_is_read` that the text of lawful rows is read as
//! these rows, and `dumps_of_valid_registries_are_read` that the dump of a valid registry is read as this
//! registry. The rows' types are given out here, so that crates above name this crate alone.
#![tactic(auto)]

mod dump;
mod ending;
mod fault;
mod gathering;
mod groups;
mod laws;
mod misread;
mod printing;
mod read;
mod reading;
mod section;

pub use dump::{read_any_dump, read_dump, read_dump_1};
pub use fault::DumpFault;
pub use ixp_registry::{
    Action, AddressRow, ApiKey, Breach, Contact, EditKind, Handle, IfAddr, Interface, InterfaceRow,
    IrrList, Kind, Limited, Member, MemberOrigin, MemberPrefix, MemberRule, OriginList, Owner,
    Port, PublicLists, Refusal, Registry, Right, Router, RowKey, Rows, RuleList, Site, Status,
    Switch, TextField, Vlan, Way,
};
pub use laws::{dumps_of_valid_registries_are_read, one_answer, one_registry, printed_is_read};
pub use printing::{print_dump, rows_count};
pub use read::read_rows;
