//! Pipes and devices.
ghost use Rattle.std.specs.Prelude.{◌<◌, length, IfOk};
ghost use Rattle.ixp_lang.specs.Views.{item_view};
ghost use Rattle.ixp_lang_tokens.specs.Reading.{read, kinds, Gives};
ghost use Rattle.ixp_lang_exprs.specs.Names.{names_of};
ghost use Rattle.ixp_lang_protocols.specs.Protocols.{ends_form, pipe_end, device_end};
ghost use Rattle.ixp_lang_protocols.specs.Views.{ends_of};

use crate::tables::{Owner, table_of_at};
use crate::ways::ways_at;
use ixp_lang::{Item, Pipe};
use ixp_lang_exprs::{Declared, Env};
use ixp_lang_tokens::{Fault, Mark, Token, after_mark, mark_at, word_at};
use ixp_num::Name;
use std::alloc::Global;

/// The two tables of a pipe.
#[derive(Drop)]
struct Ends {
    table: Name,
    peer: Name,
}

/// `table NAME; peer table NAME;`
fn ends_at<'t>(
    alloc: Global,
    env: &mut Env,
    tokens: &'t [Token],
) -> Result<(Ends, &'t [Token]), Fault>
    ensures reads { Gives (λ x. (ends_of x.0 (names_of env.new), kinds x.1.now)) result
        (read (ends_form (names_of env.old)) (kinds tokens.now)) }
    ensures shorter { IfOk result (λ x. length x.1.now < length tokens.now) }
{
    let (table, rest) = table_of_at(alloc, env, Owner::Pipe, tokens)?;
    let rest = word_at(b"peer", rest)?;
    let (peer, rest) = table_of_at(alloc, env, Owner::Peer, rest)?;
    Ok((Ends { table, peer }, rest))
}

/// What follows `protocol pipe`.
pub(crate) fn pipe_at<'t>(
    alloc: Global,
    env: &mut Env,
    tokens: &'t [Token],
) -> Result<(Item, &'t [Token]), Fault>
    ensures reads { Gives (λ x. ((item_view x.0, names_of env.new), kinds x.1.now)) result
        (read (pipe_end (names_of env.old)) (kinds tokens.now)) }
    ensures shorter { IfOk result (λ x. length x.1.now < length tokens.now) }
{
    let (name, rest) = env.free_name_at(alloc, tokens)?;
    let rest = mark_at(Mark::BlockOpen, rest)?;
    let (ends, rest) = ends_at(alloc, env, rest)?;
    let (ways, rest) = ways_at(alloc, env, rest)?;
    let rest = mark_at(Mark::BlockClose, rest)?;
    env.declare(alloc, &name, Declared::Protocol)?;
    let pipe = Pipe {
        name,
        table: ends.table,
        peer: ends.peer,
        import: ways.import,
        export: ways.export,
    };
    Ok((Item::of_pipe(alloc, pipe)?, rest))
}

/// What follows `protocol device`.
pub(crate) fn device_at<'t>(
    alloc: Global,
    env: &mut Env,
    tokens: &'t [Token],
) -> Result<(Item, &'t [Token]), Fault>
    ensures reads { Gives (λ x. ((item_view x.0, names_of env.new), kinds x.1.now)) result
        (read (device_end (names_of env.old)) (kinds tokens.now)) }
    ensures shorter { IfOk result (λ x. length x.1.now < length tokens.now) }
{
    if let Some(rest) = after_mark(Mark::BlockOpen, tokens) {
        let rest = mark_at(Mark::BlockClose, rest)?;
        return Ok((Item::Device { name: None }, rest));
    }
    let (name, rest) = env.free_name_at(alloc, tokens)?;
    let rest = mark_at(Mark::BlockOpen, rest)?;
    let rest = mark_at(Mark::BlockClose, rest)?;
    env.declare(alloc, &name, Declared::Protocol)?;
    Ok((Item::Device { name: Some(name) }, rest))
}
