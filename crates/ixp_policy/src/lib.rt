//! What becomes of a route that a session of a route server brings, by the rows of the registry alone.
//!
//! `specs/Import.antt` has the table of what is refused, `specs/Tags.antt` what the server writes on a route,
//! `specs/Export.antt` what a receiver gets, and `specs/Fates.antt` the whole. [`fate_plain`] is that
//! definition as a program: plain and slow, for comparing what the text of a configuration does with a route.
#![tactic(auto)]

mod blackholes;
mod export;
mod fates;
mod findings;
mod line;
mod places;
mod registered;
mod session_rows;
mod table;

pub use fates::{ask_plain, fate_plain, number_plain};
pub use line::Reason;
pub use session_rows::{SessionRows, session, session_at};
