//! Turns, and what readers see after them.
use ixp_build::Bundle;
use ixp_machine::{Answer, Decision, Query};
use ixp_machine_steps::{Entry, State};
use ixp_num::{Items, Name};
use ixp_num_tables::{Held, Table};
use ixp_registry::{ApiKey, Owner, Refusal};
use ixp_roa::RoaTable;
use std::snapshot::Snapshot;

/// What readers see: enough to answer who asks for a configuration without the desk's lock.
pub struct Shown {
    /// How many edits were accepted.
    pub accepted: u64,
    /// The API keys.
    pub keys: Held<Table<ApiKey>>,
    /// The texts that were installed last.
    pub bundle: Held<Bundle>,
}

// It is written out, so that crates above don't prove again how each part is dropped.
impl Drop for Shown {
    fn drop(self) {
        let Shown {
            accepted: _,
            keys: _,
            bundle: _,
        } = self;
    }
}

/// What readers see. To share it costs the same whatever it holds.
pub type View = Held<Shown>;

/// What a history begins with.
#[derive(Drop)]
pub struct First {
    pub state: State,
    /// The store's count of faults.
    pub faults: u64,
    pub view: View,
}

/// A text that a desk hands out.
#[derive(Drop)]
pub struct Text {
    /// How many edits were accepted before the version that it is of.
    pub built: u64,
    pub bytes: Items<u8>,
    /// The ROAs of that version.
    pub roas: Held<RoaTable>,
}

/// What is asked.
#[derive(Debug, Drop)]
pub enum Asked {
    /// A question by who has the secret.
    Query {
        secret: Items<u8>,
        query: Query,
    },
    /// The text of the router's session at the interface, by who has the secret.
    OwnText {
        secret: Items<u8>,
        router: Name,
        interface: u32,
    },
    /// Whether the owner's edit with the number was made, and at which place.
    Seen {
        owner: Owner,
        number: u64,
    },
}

/// What is answered.
#[derive(Drop)]
pub enum Answered {
    Answer(Answer),
    Text(Text),
    Place(Option<u64>),
    Refused(Refusal),
    /// The interface is no session of the router.
    NoSession,
}

/// What a turn does. Values that are gone by then stand in it for proofs alone, and take no memory.
#[derive(Drop)]
pub enum Event {
    /// An edit, and what was decided of it.
    Edit(Snapshot<Entry>, Snapshot<Decision>),
    /// A question, and what was answered.
    Question(Asked, Snapshot<Answered>),
    /// Texts of the version with this count were installed.
    Install(u64),
    /// The store failed; it counted so many faults then.
    Fault(u64),
}

/// A turn of a seat.
pub struct Turn {
    /// The seat's number.
    pub seat: u64,
    /// How many turns the seat had made before.
    pub number: u64,
    pub event: Event,
    /// What readers see after it.
    pub view: View,
}

// It is written out, so that crates above don't prove again how each part is dropped.
impl Drop for Turn {
    fn drop(self) {
        let Turn {
            seat: _,
            number: _,
            event: _,
            view: _,
        } = self;
    }
}
