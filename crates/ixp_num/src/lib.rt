//! The numbers of the trade: addresses, prefixes, patterns, AS numbers, ROAs and names; and why a text is
//! refused.
//!
//! Every value of a type here is lawful: an address fits its family, a prefix has no host bits, a name has
//! its alphabet and length. Texts are read and printed; the printed text of a value is its one spelling.
//!
//! A form (`specs/Forms.antt`) says how a text goes on, and so which texts there are and what each says. The
//! readers answer by it: the value, the place where no text of the form goes on, or the first number above
//! its bound. `one_answer` says that no text has two answers, `printed_is_read` that what is printed is read
//! as what it was, and `any_spelling` that every IPv6 text of RFC 4291 is read as its eight groups.
//!
//! A fault of a reader that isn't out of memory has a [`Cause`]: a code, and the place in the input
//! (`specs/Causes.antt`).
#![tactic(auto)]

mod addr;
mod asn;
mod bits;
mod cause;
mod family;
mod fault;
mod laws;
mod name;
mod pattern;
mod prefix;
mod prefix_order;
mod print;
mod read;
mod reading;
mod roa;
mod same;
mod texts;
mod texts6;

pub use addr::Addr;
pub use asn::Asn;
pub use cause::{Cause, Code, Place, code_text};
pub use family::Family;
pub use fault::NumFault;
pub use ixp_num_tables::Items;
pub use laws::{any_spelling, one_answer, printed_is_read};
pub use name::Name;
pub use pattern::Pattern;
pub use prefix::Prefix;
pub use print::{print_addr, print_asn, print_pattern, print_pattern_bounds, print_prefix};
pub use read::{read_addr, read_asn, read_pattern, read_prefix};
pub use roa::{Roa, Validity};
pub use same::{same_addr, same_prefix};
pub use texts::{mark_of, number_of};
