//! What a session holds.
ghost use Rattle.std.specs.Prelude.{◌≡◌, IfOk};

use ixp_lang::Route;
use ixp_num::{Items, Name};
use ixp_num_tables::{Copied, Held, Row, Table};
use std::alloc::{AllocError, Global};
use std::cmp::Ordering;

/// The most routes that a session holds.
pub const MOST_ROUTES: usize = 1_000;

/// The most sessions that hold routes at a time.
pub const MOST_SESSIONS: usize = 16;

/// The routes that a session holds, in the order in which they were supplied. To share them costs the same
/// however many they are.
pub type Routes = Held<Items<Route>>;

/// What names a session: the number of its interface, and its router's handle.
#[derive(Debug, Drop)]
pub struct SessionKey {
    pub interface: u32,
    pub router: Name,
}

impl SessionKey {
    ghost use Rattle.ixp_num_tables.specs.Tables.{order};
    ghost use Rattle.ixp_glass_holds.specs.Keys.{session_key};

    /// The name of the router's session at the interface.
    pub fn new(alloc: Global, router: &Name, interface: u32) -> Result<SessionKey, AllocError>
        ensures { IfOk result (λ k. k ≡ record { interface = interface; router = router.now }) }
    {
        let router = router.copied(alloc)?;
        Ok(SessionKey { interface, router })
    }

    /// By the interfaces' numbers, then by the handles.
    fn order(&self, other: &SessionKey) -> Ordering
        ensures { result ≡ order (session_key self.now) (session_key other.now) }
    {
        self.interface
            .cmp(&other.interface)
            .then(self.router.as_bytes().cmp(other.router.as_bytes()))
    }
}

/// What a session holds from a turn on.
#[derive(Drop)]
pub struct Hold {
    pub session: SessionKey,
    /// None where the session holds nothing any more.
    pub routes: Routes,
}

impl Row for Hold {
    ghost use Rattle.ixp_glass_holds.specs.Keys.{hold_key, session_key};

    type Key = SessionKey;

    ghost key_of = { hold_key };

    ghost named = { session_key };

    fn compare(&self, key: &SessionKey) -> Ordering {
        self.session.order(key)
    }

    fn order(&self, other: &Hold) -> Ordering {
        self.session.order(&other.session)
    }
}

impl Copied for Hold {
    fn copied(&self, alloc: Global) -> Result<Hold, AllocError> {
        let session = SessionKey::new(alloc, &self.session.router, self.session.interface)?;
        let routes = self.routes.shared()?;
        Ok(Hold { session, routes })
    }
}

/// What all sessions hold, in the order of the sessions. A seat's own view counts its owners in its outer
/// part.
pub type HoldView = Held<Held<Table<Hold>>>;
