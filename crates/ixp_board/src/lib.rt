//! A board: one published history, which readers look at without waiting.
//!
//! A [`Story`] says what turns do: its histories begin with a first state, and the view of a history is the
//! fold of its turns. [`open`] gives one [`Pen`] and some [`Seat`]s. The pen adds turns, one at a time, and
//! publishes the view after each; a seat looks at what was published last. Each look gives the view of one
//! legal history that begins with all that the seat had seen before, and so does what it learns from a
//! [`Note`]. No look waits for the pen, and `look` takes neither the pen nor a handle to wait with.
//!
//! The history itself stands in proofs alone: no list of turns is kept in memory. What a pen, a seat or a
//! note is known to have seen of it is what contracts see of them.
#![tactic(auto)]

mod entry;
mod front;
mod note;
mod opening;
mod pen;
mod seat;
mod story;
mod writer;

pub use entry::Entry;
pub use front::BoardName;
pub use note::Note;
pub use opening::{Opened, begin, open};
pub use pen::{OpenPen, Pen};
pub use seat::Seat;
pub use story::Story;
pub use writer::{Copies, Publish};
