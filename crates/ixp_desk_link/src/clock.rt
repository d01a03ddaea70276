//! Questions at a second.
ghost use Rattle.std.specs.Prelude.{◌≡◌, ℕ};
ghost use Rattle.ixp_desk_link.specs.Turns.{AsksClock, at_second};

use ixp_io::Clock;
use ixp_machine::Query;

/// The question at the clock's second, which the export alone has: for another question the clock isn't
/// asked.
pub(crate) fn at_second<C: Clock>(clock: &mut C, query: Query) -> Query
    ensures { (second : ℕ) × AsksClock query second (C.given clock.old) (C.given clock.new)
        × (result ≡ at_second second query) }
{
    match query {
        Query::Ixf { .. } => Query::Ixf {
            second: clock.now(),
        },
        Query::Member(member) => Query::Member(member),
        Query::Contacts(member) => Query::Contacts(member),
        Query::Rules(member) => Query::Rules(member),
        Query::Use(vlan, family) => Query::Use(vlan, family),
        Query::Dump => Query::Dump,
    }
}
