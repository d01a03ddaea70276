//! The member export that was made last.
ghost use Rattle.std.specs.Prelude.{IfOk, IfSome};
ghost use Rattle.ixp_machine.specs.declared.question.Answer.TheVariants.{Json};
ghost use Rattle.ixp_machine.specs.declared.question.Query.TheVariants.{Ixf};
ghost use Rattle.ixp_machine.specs.Questions.{IsAnswer};
ghost use Rattle.ixp_registry.specs.declared.registry.Registry.{Registry as Of};
ghost use Rattle.ixp_desk_lock.specs.Facts.{KeepsExport};

use ixp_machine::{Answer, Query, ask};
use ixp_num::Items;
use ixp_registry::Registry;
use std::alloc::{AllocError, Global};

/// The export that was made last. Anybody may ask for it, without a key, and to make it costs tens of
/// milliseconds where there are thousands of members, while all others wait for the lock. So it is made only
/// where the state or the second is another than last time; who asks for the same again costs a copy.
#[derive(Drop)]
pub struct KeptExport {
    pub(crate) second: u64,
    pub(crate) text: Items<u8>,
}

/// The export's text at a second.
fn made_export(alloc: Global, registry: &Registry, second: u64) -> Result<Items<u8>, AllocError>
    ensures { IfOk result (λ t. IsAnswer registry.now (Ixf second) (Json t)) }
{
    match ask(alloc, registry, &[], Query::Ixf { second }) {
        Ok(Answer::Json(text)) => Ok(text),
        _ => Err(AllocError),
    }
}

/// The text that is kept, where it is of this second.
fn kept_text(kept: &Option<KeptExport>, second: u64) -> Option<&Items<u8>>
    ensures { IfSome result
        (λ t. (r : Of) → KeepsExport r kept.now → IsAnswer r (Ixf second) (Json t.now)) }
{
    match kept {
        Some(export) if export.second == second => Some(&export.text),
        _ => None,
    }
}

/// The export to be kept, where there is memory for it.
fn to_keep(alloc: Global, second: u64, text: &Items<u8>) -> Option<KeptExport>
    ensures { (r : Of) → IsAnswer r (Ixf second) (Json text.now) → KeepsExport r result }
{
    match text.copied(alloc) {
        Ok(text) => Some(KeptExport { second, text }),
        Err(_) => None,
    }
}

/// The export's text at a second: the one that is kept, or else it is made, and kept.
pub(crate) fn export_at(
    alloc: Global,
    registry: &Registry,
    kept: &mut Option<KeptExport>,
    second: u64,
) -> Result<Items<u8>, AllocError>
    requires kept { KeepsExport registry.now kept.old }
    ensures text { IfOk result (λ t. IsAnswer registry.now (Ixf second) (Json t)) }
    ensures kept { KeepsExport registry.now kept.new }
{
    if let Some(text) = kept_text(kept, second) {
        let text = text.copied(alloc)?;
        return Ok(text);
    }
    *kept = None;
    let text = made_export(alloc, registry, second)?;
    *kept = to_keep(alloc, second, &text);
    Ok(text)
}
