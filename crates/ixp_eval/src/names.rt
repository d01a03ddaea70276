//! Names compared.
ghost use Rattle.std.specs.Prelude.{◌≡◌};
ghost use Rattle.ixp_lang.specs.Meaning.{same_name};

use ixp_num::Name;

/// Whether two names are the same bytes.
pub fn same_name(a: &Name, b: &Name) -> bool
    ensures { result ≡ same_name a.now b.now }
{
    a.as_bytes() == b.as_bytes()
}
