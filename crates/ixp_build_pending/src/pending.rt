//! What is pending.
ghost use Rattle.std.specs.Prelude.{◌≡◌, ◌<◌, ◌==◌, ◌++◌, not, IfOk, OnOk, OnErr, IsTrue, map};
ghost use Rattle.ixp_build_pending.specs.Pendings.{IsLater, IsListed, IsNoted, IsNothing};
ghost use Rattle.ixp_build_pending.specs.Rows.{rows_of};

use crate::name::TextName;
use crate::rows::{PendingText, PendingTexts};
use crate::touch::Touch;
use std::alloc::{AllocError, Global};

/// The texts that edits touched, each with the count of the last edit that touched it. It grows with the
/// number of texts, and not with that of edits.
#[derive(Drop)]
pub struct Pending {
    /// Headers and sessions' parts.
    pub(crate) texts: PendingTexts,
    /// The count of the last edit that touched the ROAs; 0 where none did.
    pub(crate) roas: u64,
}

/// The rows that note a touch.
fn rows_of(alloc: Global, touch: &Touch, count: u64) -> Result<Vec<PendingText>, AllocError>
    ensures { IfOk result (λ v. v.items ≡ rows_of count touch.now) }
{
    let mut rows = Vec::new(alloc);
    let mut headers = touch.headers.as_slice();
    'headers: while let Some((handle, others)) = headers.split_first() {
        let router = handle.copied(alloc)?;
        rows.push(PendingText {
            text: TextName {
                router,
                session: None,
            },
            count,
        })?;
        headers = others;
    }
    let mut sessions = touch.sessions.as_slice();
    'sessions: while let Some((session, others)) = sessions.split_first() {
        let router = session.0.copied(alloc)?;
        rows.push(PendingText {
            text: TextName {
                router,
                session: Some(session.1),
            },
            count,
        })?;
        sessions = others;
    }
    Ok(rows)
}

impl Pending {
    /// Nothing.
    pub fn new(alloc: Global) -> Pending
        ensures { IsNothing result }
    {
        Pending {
            texts: PendingTexts::new(alloc),
            roas: 0,
        }
    }

    /// Adds what an edit touched, with its count. Where memory runs out, what was pending is pending, and
    /// nothing else.
    pub fn note(&mut self, alloc: Global, touch: &Touch, count: u64) -> Result<(), AllocError>
        requires { 0 < count }
        ensures ok { OnOk result (IsNoted count touch.now self.old self.new) }
        ensures err { OnErr result (self.new ≡ self.old) }
    {
        let rows = rows_of(alloc, touch, count)?;
        self.texts.put_all(alloc, rows)?;
        if touch.roas {
            self.roas = count;
        }
        Ok(())
    }

    /// Whether nothing is pending.
    #[tactic(auto, using(crate::proofs::Listing::nothing_pending))]
    pub fn is_nothing(&self) -> bool
        ensures { IsTrue result → IsNothing self.now }
    {
        self.texts.is_empty() && self.roas == 0
    }

    /// Whether the ROAs are pending.
    pub fn has_roas(&self) -> bool
        ensures { result ≡ not (self.now.roas == 0) }
    {
        self.roas != 0
    }

    /// All that is pending, each text once, those of one router side by side.
    pub fn listed(&self, alloc: Global) -> Result<Touch, AllocError>
        ensures { IfOk result (IsListed self.now) }
    {
        self.texts.in_order();
        let headers = self.texts.headers(alloc)?;
        let sessions = self.texts.sessions(alloc)?;
        Ok(Touch {
            headers,
            sessions,
            roas: self.roas != 0,
        })
    }

    /// Drops what no edit after this count touched: that which is settled when texts of the version with this
    /// count are installed. It doesn't allocate.
    pub fn settle(&mut self, alloc: Global, upto: u64)
        ensures { IsLater upto self.old self.new }
    {
        self.texts.in_order();
        self.texts.drop_upto(alloc, upto);
        if self.roas <= upto {
            self.roas = 0;
        }
    }
}
