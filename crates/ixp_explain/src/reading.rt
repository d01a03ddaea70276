//! A text that is read once and explains many routes.
ghost use Rattle.std.specs.Prelude.{◌≡◌, ◌↔◌, IsTrue, MatchResult};
ghost use Rattle.ixp_lang.specs.Views.{config_view};
ghost use Rattle.ixp_read.specs.Answers.{SpellsText};
ghost use Rattle.ixp_explain.specs.Answers.{Answers, IsUnread, in_bytes};
ghost use Rattle.ixp_explain.specs.Explained.{fate_text_told};

use crate::fates::text_by;
use crate::report::ExplainFault;
use crate::session::config_of;
use ixp_lang::{Config, Route};
use ixp_num::{Items, Name};
use ixp_num_tables::Held;
use ixp_roa::RoaTable;
use std::alloc::Global;
use std::marker::Model;

/// A text that was read. Contracts see the text.
pub struct Reading {
    text: Items<u8>,
    config: Config,
}

// It is written out, so that crates above don't prove again how each part is dropped.
impl Drop for Reading {
    fn drop(self) {
        let Reading { text: _, config: _ } = self;
    }
}

impl Model for Reading {
    ghost use Rattle.std.specs.Prelude.{ℕ, List};
    ghost use Rattle.ixp_lang.specs.Views.{config_view};
    ghost use Rattle.ixp_read.specs.Answers.{SpellsText};

    ghost Value = { List ℕ };

    ghost view = { λ r. r.text };

    ghost invariant = { λ r. SpellsText r.text (config_view r.config) };
}

impl Reading {
    /// Reads a text, and keeps a copy of it.
    pub fn of(alloc: Global, text: &[u8]) -> Result<Reading, ExplainFault>
        ensures { MatchResult result (λ r. r ≡ text.now) (IsUnread text.now) }
    {
        let config = config_of(alloc, text)?;
        let text = Items::from_slice(alloc, text)?;
        Ok(Reading { text, config })
    }

    /// Whether it is this text that was read. It does not allocate.
    pub fn is_of(&self, text: &[u8]) -> bool
        ensures { IsTrue result ↔ (self.now ≡ text.now) }
    {
        self.text.as_slice() == text
    }

    /// A route's fate as a text, as [`crate::explain_text`] gives it for the text that was read.
    #[tactic(auto, using(crate::proofs::Telling::told_of))]
    pub fn fate_text(
        &self,
        alloc: Global,
        roas: &[(Name, Held<RoaTable>)],
        interface: u32,
        route: &Route,
    ) -> Result<Vec<u8>, ExplainFault>
        ensures { Answers self.now (λ items. fate_text_told items roas.now interface route.now)
            (in_bytes result) }
    {
        text_by(alloc, &self.config, roas, interface, route)
    }
}
