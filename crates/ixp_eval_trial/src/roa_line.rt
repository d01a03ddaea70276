//! Lines of ROAs.
ghost use Rattle.std.specs.Prelude.{◌≡◌, ◌≤◌, ◌++◌, List, ℕ, codes, MatchOption, true};
ghost use Rattle.ixp_num.specs.declared.roa.Roa.{Roa};
ghost use Rattle.ixp_num.specs.declared.prefix.Prefix.{Prefix};
ghost use Rattle.ixp_num.specs.Names.{is_name};
ghost use Rattle.ixp_num.specs.Forms.{IsDecimal};
ghost use Rattle.ixp_eval_trial.specs.Cutting.{AreFields};
ghost use Rattle.ixp_eval_trial.specs.Readings.{RoaFieldsAnswer, RoaLineAnswer, IsMax};

use crate::cutting::cut;
use crate::fault::Unread;
use crate::number::number_up_to;
use ixp_num::{Name, Roa, read_asn, read_prefix};
use std::alloc::Global;

/// The four fields of a ROA.
#[derive(Clone, Copy)]
struct Fields<'a> {
    table: &'a [u8],
    net: &'a [u8],
    max: &'a [u8],
    asn: &'a [u8],
}

/// The fields of a text, with single blanks between them.
#[tactic(auto, using(crate::proofs::Fields::no_table, crate::proofs::Fields::no_net, crate::proofs::Fields::no_max, crate::proofs::Fields::fields_are))]
fn fields_of(t: &[u8]) -> Option<Fields<'_>>
    ensures { MatchOption result ((table net max asn : List ℕ) → ¬ (AreFields t.now table net max asn))
        (λ f. AreFields t.now f.table.now f.net.now f.max.now f.asn.now) }
{
    let (table, rest) = cut(b' ', t)?;
    let (net, rest) = cut(b' ', rest)?;
    let (max, asn) = cut(b' ', rest)?;
    Some(Fields {
        table,
        net,
        max,
        asn,
    })
}

/// A decimal number of at most 255.
fn max_of(field: &[u8]) -> Option<u8>
    ensures { MatchOption result ((n : ℕ) → ¬ (IsMax field.now n)) (λ n. IsMax field.now n) }
{
    match number_up_to(field, 255) {
        Some(number) => Some(number as u8),
        None => None,
    }
}

/// The ROA of the fields behind the table's name.
fn roa_in(fields: &Fields<'_>) -> Option<Roa>
    ensures { RoaFieldsAnswer fields.now.net.now fields.now.max.now fields.now.asn.now result }
{
    let prefix = match read_prefix(fields.net) {
        Ok(prefix) => prefix,
        Err(_) => return None,
    };
    let Some(max) = max_of(fields.max) else {
        return None;
    };
    match read_asn(fields.asn) {
        Ok(asn) => Some(Roa { prefix, max, asn }),
        Err(_) => None,
    }
}

/// The table's name and the ROA of a line, from what is behind its first word and blank.
pub(crate) fn roa_of(alloc: Global, rest: &[u8]) -> Result<(Name, Roa), Unread>
    ensures { RoaLineAnswer (codes "roa " ++ rest.now) result }
{
    let Some(fields) = fields_of(rest) else {
        return Err(Unread::Bad);
    };
    if !Name::is_name(fields.table) {
        return Err(Unread::Bad);
    }
    let Some(roa) = roa_in(&fields) else {
        return Err(Unread::Bad);
    };
    Ok((Name::new(alloc, fields.table)?, roa))
}
