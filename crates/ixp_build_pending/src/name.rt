//! What names a text.
ghost use Rattle.std.specs.Prelude.{◌≡◌, IfOk};
ghost use Rattle.ixp_build_pending.specs.Names.{part_number, text_key};
ghost use Rattle.ixp_num_tables.specs.Tables.{order};

use ixp_num::Name;
use std::alloc::{AllocError, Global};
use std::cmp::Ordering;

/// The name of a text: a router's header, or the part of one of its sessions.
#[derive(Debug, Drop)]
pub struct TextName {
    /// The router's handle.
    pub router: Name,
    /// The number of the session's interface; None stands for the header.
    pub session: Option<u32>,
}

/// The header comes first, then the sessions by their interfaces' numbers.
fn part_number(session: Option<u32>) -> u64
    ensures { result ≡ part_number session }
{
    match session {
        Some(number) => u64::from(number) + 1,
        None => 0,
    }
}

impl TextName {
    /// An equal name.
    pub fn copied(&self, alloc: Global) -> Result<TextName, AllocError>
        ensures { IfOk result (λ t. t ≡ self.now) }
    {
        Ok(TextName {
            router: self.router.copied(alloc)?,
            session: self.session,
        })
    }

    /// Shorter handles come first, then handles in the order of their bytes, and then a router's texts.
    #[tactic(auto, using(crate::proofs::NameOrder::by_length))]
    pub(crate) fn order(&self, other: &TextName) -> Ordering
        ensures { result ≡ order (text_key self.now) (text_key other.now) }
    {
        let mine = self.router.as_bytes();
        let others = other.router.as_bytes();
        match mine.len().cmp(&others.len()) {
            Ordering::Equal => {}
            decided => return decided,
        }
        match mine.cmp(others) {
            Ordering::Equal => part_number(self.session).cmp(&part_number(other.session)),
            decided => decided,
        }
    }
}
