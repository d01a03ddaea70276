//! Lines of the members' lists and rules, and of the public lists.
ghost use Rattle.std.specs.Prelude.{◌∷◌, [], ℕ, refl};
ghost use Rattle.std.proofs.Common.{ap};
ghost use Rattle.ixp_registry.specs.Keys.{member_prefix_key, member_origin_key, rule_key};
ghost use Rattle.ixp_num_sorted.specs.Keys.{pattern_key, asn_key, range_key, roa_key};
ghost use Rattle.ixp_registry.specs.declared.kind.Kind.TheVariants as of;
ghost use Rattle.ixp_rows_lines.specs.Lines.{
  IsAction,
  prefix_line,
  origin_line,
  rule_line,
  bogon_line,
  bogon_as_line,
  transit_line,
  roa_line,
  version_again,
};

use crate::fields::end_of;
use crate::numbers::{asn_of, asn_or_star, bounds_of, net_of, net_or_star, number_of, octet_of};
use crate::printing::{Shown, asn_shown, net_shown, put_line};
use crate::words::{Worded, action_of, by_word};
use crate::{Kind, Lined, Unread, Version};
use ixp_num::{Asn, Pattern, Roa};
use ixp_num_tables::Row;
use ixp_registry::{MemberOrigin, MemberPrefix, MemberRule};
use std::alloc::{AllocError, Global};
use std::cmp::Ordering;

impl Lined for MemberPrefix {
    ghost row_kind = { of.Prefixes };

    ghost fields = { λ version row. (prefix_line row).fields };

    ghost key = { member_prefix_key };

    fn kind() -> Kind {
        Kind::Prefixes
    }

    fn read(
        alloc: Global,
        _version: Version,
        rest: &[u8],
    ) -> Result<(MemberPrefix, &[u8]), Unread> {
        let (member, rest) = number_of(rest)?;
        let (prefix, rest) = net_of(alloc, rest)?;
        let rest = end_of(rest)?;
        let row = MemberPrefix { member, prefix };
        Ok((row, rest))
    }

    fn print(&self, _version: Version, out: &mut Vec<u8>) -> Result<(), AllocError> {
        let fields = [Shown::Number(self.member), Shown::Net(self.prefix)];
        put_line(Kind::Prefixes, &fields, out)
    }

    fn order_lines(&self, other: &MemberPrefix) -> Ordering {
        self.order(other)
    }

    ghost keyed = { λ version row. refl };
}

impl Lined for MemberOrigin {
    ghost row_kind = { of.Origins };

    ghost fields = { λ version row. (origin_line row).fields };

    ghost key = { member_origin_key };

    fn kind() -> Kind {
        Kind::Origins
    }

    fn read(
        _alloc: Global,
        _version: Version,
        rest: &[u8],
    ) -> Result<(MemberOrigin, &[u8]), Unread> {
        let (member, rest) = number_of(rest)?;
        let (family, rest) = by_word(rest)?;
        let (asn, rest) = asn_of(rest)?;
        let rest = end_of(rest)?;
        let row = MemberOrigin {
            member,
            family,
            asn,
        };
        Ok((row, rest))
    }

    fn print(&self, _version: Version, out: &mut Vec<u8>) -> Result<(), AllocError> {
        let fields = [
            Shown::Number(self.member),
            Shown::Word(self.family.word()),
            Shown::Number(self.asn.0),
        ];
        put_line(Kind::Origins, &fields, out)
    }

    fn order_lines(&self, other: &MemberOrigin) -> Ordering {
        self.order(other)
    }

    ghost keyed = { λ version o. ap (λ n. o.member ∷ n ∷ o.asn.0 ∷ []) (version_again o.family) };
}

impl Lined for MemberRule {
    ghost row_kind = { of.Rules };

    ghost fields = { λ version row. (rule_line row).fields };

    ghost key = { rule_key };

    fn kind() -> Kind {
        Kind::Rules
    }

    fn read(alloc: Global, _version: Version, rest: &[u8]) -> Result<(MemberRule, &[u8]), Unread> {
        let (member, rest) = number_of(rest)?;
        let (place, rest) = number_of(rest)?;
        let (way, rest) = by_word(rest)?;
        let (peer, rest) = asn_or_star(rest)?;
        let (prefix, rest) = net_or_star(alloc, rest)?;
        let (action, rest) = action_of(rest)?;
        let rest = end_of(rest)?;
        let row = MemberRule {
            member,
            place,
            way,
            peer,
            prefix,
            action,
        };
        Ok((row, rest))
    }

    fn print(&self, _version: Version, out: &mut Vec<u8>) -> Result<(), AllocError> {
        let fields = [
            Shown::Number(self.member),
            Shown::Number(self.place),
            Shown::Word(self.way.word()),
            asn_shown(&self.peer, b"*"),
            net_shown(&self.prefix, b"*"),
            Shown::Action(self.action),
        ];
        put_line(Kind::Rules, &fields, out)
    }

    fn order_lines(&self, other: &MemberRule) -> Ordering {
        self.order(other)
    }

    ghost keyed = { λ version row. refl };
}

impl Lined for Pattern {
    ghost row_kind = { of.Bogons };

    ghost fields = { λ version row. (bogon_line row).fields };

    ghost key = { pattern_key };

    fn kind() -> Kind {
        Kind::Bogons
    }

    fn read(alloc: Global, _version: Version, rest: &[u8]) -> Result<(Pattern, &[u8]), Unread> {
        let (pattern, rest) = bounds_of(alloc, rest)?;
        let rest = end_of(rest)?;
        Ok((pattern, rest))
    }

    fn print(&self, _version: Version, out: &mut Vec<u8>) -> Result<(), AllocError> {
        let fields = [Shown::Bounds(*self)];
        put_line(Kind::Bogons, &fields, out)
    }

    fn order_lines(&self, other: &Pattern) -> Ordering {
        self.cmp(other)
    }

    ghost keyed = { λ version row. refl };
}

impl Lined for (Asn, Asn) {
    ghost row_kind = { of.BogonAs };

    ghost fields = { λ version row. (bogon_as_line row).fields };

    ghost key = { range_key };

    fn kind() -> Kind {
        Kind::BogonAs
    }

    fn read(_alloc: Global, _version: Version, rest: &[u8]) -> Result<((Asn, Asn), &[u8]), Unread> {
        let (first, rest) = asn_of(rest)?;
        let (last, rest) = asn_of(rest)?;
        let rest = end_of(rest)?;
        Ok(((first, last), rest))
    }

    fn print(&self, _version: Version, out: &mut Vec<u8>) -> Result<(), AllocError> {
        let fields = [Shown::Number(self.0.0), Shown::Number(self.1.0)];
        put_line(Kind::BogonAs, &fields, out)
    }

    fn order_lines(&self, other: &(Asn, Asn)) -> Ordering {
        self.0.cmp(&other.0).then(self.1.cmp(&other.1))
    }

    ghost keyed = { λ version row. refl };
}

impl Lined for Asn {
    ghost row_kind = { of.Transit };

    ghost fields = { λ version row. (transit_line row).fields };

    ghost key = { asn_key };

    fn kind() -> Kind {
        Kind::Transit
    }

    fn read(_alloc: Global, _version: Version, rest: &[u8]) -> Result<(Asn, &[u8]), Unread> {
        let (asn, rest) = asn_of(rest)?;
        let rest = end_of(rest)?;
        Ok((asn, rest))
    }

    fn print(&self, _version: Version, out: &mut Vec<u8>) -> Result<(), AllocError> {
        let fields = [Shown::Number(self.0)];
        put_line(Kind::Transit, &fields, out)
    }

    fn order_lines(&self, other: &Asn) -> Ordering {
        self.cmp(other)
    }

    ghost keyed = { λ version row. refl };
}

impl Lined for Roa {
    ghost row_kind = { of.Roas };

    ghost fields = { λ version row. (roa_line row).fields };

    ghost key = { roa_key };

    fn kind() -> Kind {
        Kind::Roas
    }

    fn read(alloc: Global, _version: Version, rest: &[u8]) -> Result<(Roa, &[u8]), Unread> {
        let (prefix, rest) = net_of(alloc, rest)?;
        let (max, rest) = octet_of(rest)?;
        let (asn, rest) = asn_of(rest)?;
        let rest = end_of(rest)?;
        let row = Roa { prefix, max, asn };
        Ok((row, rest))
    }

    fn print(&self, _version: Version, out: &mut Vec<u8>) -> Result<(), AllocError> {
        let fields = [
            Shown::Net(self.prefix),
            Shown::Octet(self.max),
            Shown::Number(self.asn.0),
        ];
        put_line(Kind::Roas, &fields, out)
    }

    fn order_lines(&self, other: &Roa) -> Ordering {
        self.cmp(other)
    }

    ghost keyed = { λ version row. refl };
}
