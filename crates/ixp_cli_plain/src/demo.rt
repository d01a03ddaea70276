//! The command `demo`: how large the demo exchange is, and that its text follows edits.
ghost use Rattle.std.specs.Prelude.{◌≡◌, ◌≤◌, IfOk};
ghost use Rattle.ixp_cli_plain.specs.Demos.{demo_text};
ghost use Rattle.ixp_cli_plain.specs.Runs.{DemoEnds, Flow};

use crate::end::End;
use ixp_build_demo::{builds, counts, put_builds, put_counts};
use ixp_io::{Sink, write_all};
use ixp_registry_demo::demo_registry;
use std::alloc::{AllocError, Global};

/// What is written of the demo exchange with so many members.
fn demo_text(alloc: Global, members: u32) -> Result<Vec<u8>, AllocError>
    requires { members ≤ 4000 }
    ensures { IfOk result (λ text. text.items ≡ demo_text members) }
{
    let registry = demo_registry(alloc, members)?;
    let counted = counts(alloc, &registry)?;
    let built = builds(alloc, registry, members)?;
    let mut text = Vec::new(alloc);
    put_counts(&mut text, &counted)?;
    put_builds(&mut text, &built)?;
    Ok(text)
}

/// Makes the demo exchange with so many members, edits it, and writes how large it is and what was
/// regenerated.
pub(crate) fn run_demo<K: Sink>(alloc: Global, output: &mut K, members: u32) -> End
    requires { members ≤ 4000 }
    ensures { DemoEnds members (record { bytes = K.written output.old; faults = K.write_faults output.old })
        (record { bytes = K.written output.new; faults = K.write_faults output.new }) result }
{
    let Ok(text) = demo_text(alloc, members) else {
        return End::NoMemory;
    };
    match write_all(output, text.as_slice()) {
        Ok(()) => End::Done,
        Err(_) => End::WriteFault,
    }
}
