//! The outside of the program, as traits whose contracts say what each object holds and how often it failed.
//!
//! A [`Source`] is read, a [`Sink`] is written, a [`Keeper`] stores rows, a [`Clock`] gives seconds. What an
//! object holds is a ghost member that may tell nothing: what is promised of content holds where it is told.
//! Each object has a count of faults that never falls, and a call answers a fault only where the count rose
//! in it. The objects in memory tell all; those over the system keep the count and tell no content.
#![tactic(auto)]

mod clock;
mod door;
mod joined;
mod keeper;
mod mem_door;
mod mem_keeper;
mod mem_sink;
mod mem_source;
mod plan;
mod standard;
mod stream;
mod whole;

pub use clock::{Clock, LAST_SECOND, SetClock};
pub use door::{Door, FreeGate, Gate};
pub use joined::Joined;
pub use keeper::{Change, KeepFault, Keeper, Row, RowName, rows_in_order};
pub use mem_door::{MemDoor, MemLink};
pub use mem_keeper::MemKeeper;
pub use mem_sink::MemSink;
pub use mem_source::MemSource;
pub use plan::Plan;
pub use standard::{ReadSource, WriteSink};
pub use stream::{Failed, Sink, Source, Stream};
pub use whole::{CHUNK, WholeFault, read_whole, write_all};
