//! Names that are made of a word and a number.
ghost use Rattle.std.specs.Prelude.{◌++◌, ◌≤◌, ◌≡◌, ◌^◌, ◌<◌, length, decimal, IsTrue, IfOk};
ghost use Rattle.ixp_num.specs.Names.{is_name};

use ixp_num::Name;
use ixp_num_tables::put_number;
use std::alloc::{AllocError, Global};

/// The name that begins with `word` and ends with the number in decimal.
#[tactic(auto, using(crate::proofs::NumberedNames::numbered_is_name))]
pub fn numbered(alloc: Global, word: &[u8], number: u32) -> Result<Name, AllocError>
    requires lawful { IsTrue (is_name word.now) }
    requires short { length word.now ≤ 54 }
    ensures { IfOk result (λ n. n ≡ word.now ++ decimal number) }
{
    let mut bytes = Vec::from_slice(alloc, word)?;
    put_number(&mut bytes, u64::from(number))?;
    Name::new(alloc, bytes.as_slice())
}
