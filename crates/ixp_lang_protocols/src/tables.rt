//! Tables, and who has them.
ghost use Rattle.std.specs.Prelude.{◌≡◌, ◌<◌, length, IfOk};
ghost use Rattle.ixp_lang_tokens.specs.Reading.{read, kinds, Gives};
ghost use Rattle.ixp_lang_exprs.specs.Names.{names_of};
ghost use Rattle.ixp_lang_protocols.specs.Protocols.{was_taken, now_taken, owned_table};
ghost use Rattle.ixp_lang_protocols.specs.Views.{owner_of, owned_of};

use ixp_lang_exprs::{Declared, Env, Table};
use ixp_lang_tokens::{Cause, Fault, Mark, Token, mark_at, name_at, word_at};
use ixp_num::Name;
use std::alloc::Global;

/// Who wants a table.
#[derive(Clone, Copy)]
pub(crate) enum Owner {
    /// A pipe, as the table that it fills.
    Pipe,
    /// A pipe, as its peer: the only one.
    Peer,
    /// A session: the only one.
    Session,
}

/// Whether the table has such an owner already.
fn was_taken(owner: Owner, table: Table) -> bool
    ensures { result ≡ was_taken (owner_of owner) table }
{
    match owner {
        Owner::Pipe => false,
        Owner::Peer => table.in_pipe,
        Owner::Session => table.in_session,
    }
}

/// The table with such an owner.
fn now_taken(owner: Owner, table: Table) -> Table
    ensures { result ≡ now_taken (owner_of owner) table }
{
    match owner {
        Owner::Pipe => table,
        Owner::Peer => Table {
            in_pipe: true,
            ..table
        },
        Owner::Session => Table {
            in_session: true,
            ..table
        },
    }
}

/// `table NAME;`
pub(crate) fn table_of_at<'t>(
    alloc: Global,
    env: &mut Env,
    owner: Owner,
    tokens: &'t [Token],
) -> Result<(Name, &'t [Token]), Fault>
    ensures reads { Gives (λ x. (owned_of x.0 (names_of env.new), kinds x.1.now)) result
        (read (owned_table (owner_of owner) (names_of env.old)) (kinds tokens.now)) }
    ensures shorter { IfOk result (λ x. length x.1.now < length tokens.now) }
{
    let tokens = word_at(b"table", tokens)?;
    let (name, rest) = name_at(tokens)?;
    let Some(table) = env.table(name) else {
        return Err(Fault::Stop(Cause::Unknown, tokens.len()));
    };
    if was_taken(owner, table) {
        return Err(Fault::Stop(Cause::Foreign, tokens.len()));
    }
    let name = name.copied(alloc)?;
    let rest = mark_at(Mark::Semicolon, rest)?;
    env.declare(alloc, &name, Declared::Table(now_taken(owner, table)))?;
    Ok((name, rest))
}
