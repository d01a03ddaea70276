//! Protocols.
ghost use Rattle.std.specs.Prelude.{◌<◌, length, IfOk};
ghost use Rattle.ixp_lang.specs.Views.{item_view};
ghost use Rattle.ixp_lang_tokens.specs.Reading.{read, kinds, Gives};
ghost use Rattle.ixp_lang_exprs.specs.Names.{names_of};
ghost use Rattle.ixp_lang_protocols.specs.Protocols.{protocol_end};

use crate::pipe::{device_at, pipe_at};
use crate::session::bgp_at;
use ixp_lang::Item;
use ixp_lang_exprs::Env;
use ixp_lang_tokens::{Fault, Token, after_word, word_at};
use std::alloc::Global;

/// What follows `protocol`.
pub fn protocol_at<'t>(
    alloc: Global,
    env: &mut Env,
    tokens: &'t [Token],
) -> Result<(Item, &'t [Token]), Fault>
    ensures reads { Gives (λ x. ((item_view x.0, names_of env.new), kinds x.1.now)) result
        (read (protocol_end (names_of env.old)) (kinds tokens.now)) }
    ensures shorter { IfOk result (λ x. length x.1.now < length tokens.now) }
{
    if let Some(rest) = after_word(b"device", tokens) {
        return device_at(alloc, env, rest);
    }
    if let Some(rest) = after_word(b"pipe", tokens) {
        return pipe_at(alloc, env, rest);
    }
    let rest = word_at(b"bgp", tokens)?;
    bgp_at(alloc, env, rest)
}
