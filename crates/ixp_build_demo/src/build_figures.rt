//! What is told of the builds.
ghost use Rattle.std.specs.Prelude.{◌≡◌, ◌++◌, OnOk, OnErr};
ghost use Rattle.ixp_build_demo.specs.Builds.{builds_text, equal_text};

use ixp_num_tables::{put, put_number, put_whole};
use std::alloc::AllocError;

/// What came of the edits of an exchange.
#[derive(Clone, Copy, Debug, PartialEq, Eq)]
pub struct Builds {
    /// The parts that were regenerated after the first build.
    pub rebuilt: u64,
    /// Whether the last texts are those of full generation.
    pub is_equal: bool,
}

fn put_equal(text: &mut Vec<u8>, is_equal: bool) -> Result<(), AllocError>
    ensures { OnOk result (text.new.items ≡ text.old.items ++ equal_text is_equal) }
{
    if is_equal {
        put(text, b"equal yes\n")
    } else {
        put(text, b"equal no\n")
    }
}

/// Adds what came of the edits, in two lines: `rebuilt` with the number of parts, and `equal` with `yes` or
/// `no`.
pub fn put_builds(out: &mut Vec<u8>, builds: &Builds) -> Result<(), AllocError>
    ensures ok { OnOk result
        (out.new.items ≡ out.old.items ++ builds_text builds.now.rebuilt builds.now.is_equal) }
    ensures err { OnErr result (out.new.items ≡ out.old.items) }
{
    let mut text = Vec::new(*out.allocator());
    put(&mut text, b"rebuilt ")?;
    put_number(&mut text, builds.rebuilt)?;
    put(&mut text, b"\n")?;
    put_equal(&mut text, builds.is_equal)?;
    put_whole(out, text)
}
