//! What is counted, and the text that tells it.
ghost use Rattle.std.specs.Prelude.{◌≡◌, ◌++◌, OnOk, OnErr};
ghost use Rattle.ixp_build_demo.specs.Counts.{counts_text, line};

use ixp_num_tables::{put, put_number, put_whole};
use std::alloc::AllocError;

/// How large an exchange is.
#[derive(Clone, Copy, Debug, PartialEq, Eq)]
pub struct Counts {
    pub members: u64,
    /// The sessions of all route servers.
    pub sessions: u64,
    /// The patterns of the merged prefix sets of all sessions, as the texts of the route servers have them.
    pub patterns: u64,
}

fn put_line(out: &mut Vec<u8>, word: &[u8], number: u64) -> Result<(), AllocError>
    ensures { OnOk result (out.new.items ≡ out.old.items ++ line word.now number) }
{
    put(out, word)?;
    put_number(out, number)?;
    put(out, b"\n")
}

/// Adds the counts, a line each: `members`, `sessions` and `patterns`, each with its number.
pub fn put_counts(out: &mut Vec<u8>, counts: &Counts) -> Result<(), AllocError>
    ensures ok { OnOk result (out.new.items ≡ out.old.items ++ counts_text counts.now) }
    ensures err { OnErr result (out.new.items ≡ out.old.items) }
{
    let mut text = Vec::new(*out.allocator());
    put_line(&mut text, b"members ", counts.members)?;
    put_line(&mut text, b"sessions ", counts.sessions)?;
    put_line(&mut text, b"patterns ", counts.patterns)?;
    put_whole(out, text)
}
