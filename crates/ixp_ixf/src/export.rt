//! The export as a whole.
ghost use Rattle.std.specs.Prelude.{◌≡◌, ◌++◌, OnOk, OnErr, codes};
ghost use Rattle.ixp_ixf.specs.Texts as spec;
ghost use Rattle.ixp_ixf.specs.Views.{ixf_text_of};

use crate::fabric::put_exchange;
use crate::lists::{put_name, put_shown_member};
use crate::members::{Wiring, connected};
use crate::moment::moment_text;
use ixp_api_json::put_text_member;
use ixp_num_tables::{put, put_whole};
use ixp_registry::Registry;
use std::alloc::{AllocError, Global};

#[tactic(auto, unfolding(crate::specs::Texts::single_member))]
fn put_exchange_list(out: &mut Vec<u8>, registry: &Registry) -> Result<(), AllocError>
    ensures { OnOk result
        (out.new.items ≡ out.old.items
        ++ spec.single_member (codes "{") (codes "ixp_list") (spec.exchange_text registry.now)) }
{
    put_name(out, b"{", b"ixp_list")?;
    put(out, b"[")?;
    put_exchange(out, registry)?;
    put(out, b"]")
}

fn put_export(out: &mut Vec<u8>, registry: &Registry, second: u64) -> Result<(), AllocError>
    ensures { OnOk result (out.new.items ≡ out.old.items ++ spec.export_text registry.now second) }
{
    let alloc = *out.allocator();
    let moment = moment_text(alloc, second)?;
    let wiring = Wiring::of(alloc, registry)?;
    let members = connected(alloc, registry.members.as_slice())?;
    put_exchange_list(out, registry)?;
    put_shown_member(out, b",", b"member_list", &wiring, members.as_slice())?;
    put_text_member(out, b",", b"timestamp", moment.as_bytes())?;
    put_text_member(out, b",", b"version", b"1.0")?;
    put(out, b"}")
}

/// Adds the export at a second since 1970. Seconds above [`LAST_SECOND`](crate::LAST_SECOND) count as that
/// one.
pub fn ixf_text(
    alloc: Global,
    registry: &Registry,
    second: u64,
    out: &mut Vec<u8>,
) -> Result<(), AllocError>
    ensures ok { OnOk result (out.new.items ≡ out.old.items ++ ixf_text_of registry.now second) }
    ensures err { OnErr result (out.new.items ≡ out.old.items) }
{
    let mut text = Vec::new(alloc);
    put_export(&mut text, registry, second)?;
    put_whole(out, text)
}
