//! Links of a further door, which helpers serve: threads each of which accepts a link and serves it to its
//! end.
ghost use Rattle.std.specs.Prelude.{◌≡◌, ◌<◌, None};
ghost use Rattle.ixp_io.specs.Told.{WhereTold};
ghost use Rattle.ixp_io_workers.specs.Doors.{HasEnded, Taken};

use ixp_io::Door;
use std::marker::Model;
use std::sync::{Mutex, Wait};
use std::thread::Scope;

/// How many helpers there are at most, and so how many links of the further door are served at a time.
pub const HELPERS: u32 = 16;

/// What helpers do with a link. Threads share it.
pub trait Help<L> {
    /// What became of a link: before, and after.
    ghost helped: { L → L → Type 0 };

    /// Serves a link to its end.
    fn help<R: Wait>(&self, rt: &R, link: &mut L)
        ensures { helped link.old link.new };
}

/// A door that gives links to helpers. It isn't asked again once it has failed.
#[derive(Drop)]
struct Taking<D: Door> {
    door: D,
    given: u64,
    failed: bool,
}

impl<D: Door> Model for Taking<D> {
    ghost use Rattle.std.specs.Prelude.{◌≡◌, ◌<◌, true};
    ghost use Rattle.ixp_io.specs.Told.{WhereTold};
    ghost use Rattle.ixp_io_workers.specs.Doors.{Taken};

    ghost Value = { Taken };

    ghost view = { λ it. record { links = D.links it.door; faults = D.faults it.door; given = it.given } };

    ghost invariant = { λ it. WhereTold (D.links it.door) (λ n. n ≡ it.given)
        × (it.failed ≡ true → 0 < D.faults it.door) };
}

impl<D: Door> Taking<D> {
    // The next link, unless so many were given.
    fn next(&mut self, most: u64) -> Option<D::Link>
        ensures ended { result ≡ None → HasEnded most self.new }
    {
        if self.failed || self.given >= most {
            return None;
        }
        match self.door.accept() {
            Ok(link) => {
                self.given += 1;
                Some(link)
            }
            Err(_) => {
                self.failed = true;
                None
            }
        }
    }
}

/// A door of which helpers serve up to so many links.
#[derive(Drop)]
pub struct Helpers<D: Door, H> {
    taking: Mutex<Taking<D>>,
    most: u64,
    help: H,
}

impl<D: Door, H> Model for Helpers<D, H> {
    ghost use Rattle.std.specs.Prelude.{ℕ};

    ghost Value = { ℕ };

    ghost view = { λ it. it.most };
}

impl<D: Door, H: Help<D::Link>> Helpers<D, H> {
    /// Helpers who are to serve so many links of a door that gave none yet. It does not allocate.
    pub fn new(door: D, most: u64, help: H) -> Helpers<D, H>
        requires fresh { WhereTold (D.links door) (λ n. n ≡ 0) }
        ensures most { result ≡ most }
    {
        Helpers {
            taking: Mutex::new(Taking {
                door,
                given: 0,
                failed: false,
            }),
            most,
            help,
        }
    }

    // Serves links until no more are to be taken.
    fn work<R: Wait>(&self, rt: &R)
    where
        D::Link: Drop,
    {
        for _ in rt.forever() {
            let next = self.taking.lock(rt).next(self.most);
            let Some(mut link) = next else {
                break;
            };
            self.help.help(rt, &mut link);
        }
    }

    /// Serves the links that are left, and tells how many the door gave: fewer than it was to give only where
    /// it failed.
    pub fn finish<R: Wait>(self, rt: &R) -> (u64, D)
    where
        D::Link: Drop,
        H: Drop,
        ensures given { WhereTold (D.links result.1) (λ n. n ≡ result.0) }
        ensures cause { result.0 < self → 0 < D.faults result.1 }
    {
        let Helpers { taking, most, help } = self;
        let mut taking = taking.into_inner();
        for _ in rt.forever() {
            let Some(mut link) = taking.next(most) else {
                break;
            };
            help.help(rt, &mut link);
        }
        let Taking {
            door,
            given,
            failed: _failed,
        } = taking;
        (given, door)
    }
}

/// Starts the helpers, as many as can be started.
pub(crate) fn start_helpers<'s, E, R: Wait + Sync, D: Door + Send, H: Help<D::Link> + Sync>(
    scope: &Scope<'s, E>,
    rt: &'s R,
    helpers: &'s Helpers<D, H>,
)
where
    D::Link: Drop + Send,
{
    for _ in 0..HELPERS {
        let _started = scope.spawn(move || helpers.work(rt));
    }
}
