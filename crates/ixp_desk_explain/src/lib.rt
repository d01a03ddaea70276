//! What callers of a desk are told of routes: what becomes of a route, and what a looking glass shows.
//!
//! [`explained`] tells the staff a route's fate by the configuration that is handed out, and a member what
//! its session's own text says of its own route. A [`LookingGlass`] has the routes that sessions are known
//! to announce: [`hold`] says which ones a session holds, [`shown`] tells what becomes of each of them now,
//! and [`fate_shown`] the whole fate of one by the configuration that is handed out.
//!
//! Each is answered by texts that the desk hands out, with no look at the registry. Configurations that
//! were read are kept. `specs/Explanations.antt` and `specs/Glass.antt` say which turns of the seat stand
//! in the desk's history for each, and that what is told is what the rules over that version's rows say.
#![tactic(auto)]

mod crossing;
mod explaining;
mod fates;
mod faults;
mod glass;
mod holding;
mod printing;
mod readings;
mod showing;

pub use crossing::looking_glass_crosses_threads;
pub use explaining::explained;
pub use fates::fate_shown;
pub use faults::fault_outcome;
pub use glass::{LinkSeats, LookingGlass};
pub use holding::hold;
pub use showing::shown;
