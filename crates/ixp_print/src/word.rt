//! Words.
ghost use Rattle.std.specs.Prelude.{◌≡◌};
ghost use Rattle.ixp_print.specs.Texts.{bool_text, state_text, attr_text, op_text, kind_text, ty_text};

use ixp_lang::{Attr, Kind, Op, Ty};
use ixp_num::Validity;

pub fn bool_word(b: bool) -> &'static [u8]
    ensures { result.now ≡ bool_text b }
{
    if b { b"true" } else { b"false" }
}

pub fn state_word(state: Validity) -> &'static [u8]
    ensures { result.now ≡ state_text state }
{
    match state {
        Validity::Valid => b"ROA_VALID",
        Validity::Invalid => b"ROA_INVALID",
        Validity::Unknown => b"ROA_UNKNOWN",
    }
}

pub fn attr_word(attr: Attr) -> &'static [u8]
    ensures { result.now ≡ attr_text attr }
{
    match attr {
        Attr::Net => b"net",
        Attr::NetLen => b"net.len",
        Attr::From => b"from",
        Attr::NextHop => b"bgp_next_hop",
        Attr::Path => b"bgp_path",
        Attr::First => b"bgp_path.first",
        Attr::Last => b"bgp_path.last",
        Attr::Len => b"bgp_path.len",
        Attr::Pairs => b"bgp_community",
        Attr::PairsLen => b"bgp_community.len",
        Attr::Triples => b"bgp_large_community",
        Attr::TriplesLen => b"bgp_large_community.len",
    }
}

pub fn op_word(op: Op) -> &'static [u8]
    ensures { result.now ≡ op_text op }
{
    match op {
        Op::Eq => b"=",
        Op::Ne => b"!=",
        Op::Lt => b"<",
        Op::Le => b"<=",
        Op::Gt => b">",
        Op::Ge => b">=",
        Op::In => b"~",
        Op::NotIn => b"!~",
    }
}

pub fn kind_word(kind: Kind) -> &'static [u8]
    ensures { result.now ≡ kind_text kind }
{
    match kind {
        Kind::Ipv4 => b"ipv4",
        Kind::Ipv6 => b"ipv6",
        Kind::Roa4 => b"roa4",
        Kind::Roa6 => b"roa6",
    }
}

pub fn ty_word(ty: Ty) -> &'static [u8]
    ensures { result.now ≡ ty_text ty }
{
    match ty {
        Ty::Int => b"int",
        Ty::Bool => b"bool",
        Ty::Ip => b"ip",
        Ty::Prefix => b"prefix",
        Ty::Pair => b"pair",
        Ty::Lc => b"lc",
        Ty::IntSet => b"int set",
        Ty::IpSet => b"ip set",
        Ty::PrefixSet => b"prefix set",
        Ty::PairSet => b"pair set",
        Ty::LcSet => b"lc set",
    }
}
