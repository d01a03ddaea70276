//! Lines of the site, of members, their contacts, and API keys.
ghost use Rattle.std.specs.Prelude.{◌∷◌, [], refl};
ghost use Rattle.ixp_registry.specs.Keys.{member_key, contact_key, api_key_key};
ghost use Rattle.ixp_registry.specs.declared.kind.Kind.TheVariants as of;
ghost use Rattle.ixp_rows_lines.specs.Lines.{IsSecret, site_line, member_line, contact_line, key_line};

use crate::fields::end_of;
use crate::free::{free_of, secret_of};
use crate::numbers::{asn_of, number_of};
use crate::printing::{Shown, put_line};
use crate::words::{Worded, by_word, owner_number, owner_of, owner_word};
use crate::{Kind, Lined, Unread, Version};
use ixp_num_tables::Row;
use ixp_registry::{ApiKey, Contact, Member, Site};
use std::alloc::{AllocError, Global};
use std::cmp::Ordering;

impl Lined for Site {
    ghost row_kind = { of.Sites };

    ghost fields = { λ version s. (site_line s).fields };

    ghost key = { λ s. [] };

    fn kind() -> Kind {
        Kind::Sites
    }

    fn read(alloc: Global, _version: Version, rest: &[u8]) -> Result<(Site, &[u8]), Unread> {
        let (ixp_id, rest) = number_of(rest)?;
        let (ixf_id, rest) = number_of(rest)?;
        let (shortname, rest) = free_of(alloc, rest)?;
        let rest = end_of(rest)?;
        let site = Site {
            ixp_id,
            ixf_id,
            shortname,
        };
        Ok((site, rest))
    }

    fn print(&self, _version: Version, out: &mut Vec<u8>) -> Result<(), AllocError> {
        let fields = [
            Shown::Number(self.ixp_id),
            Shown::Number(self.ixf_id),
            Shown::Free(self.shortname.as_slice()),
        ];
        put_line(Kind::Sites, &fields, out)
    }

    fn order_lines(&self, _other: &Site) -> Ordering {
        Ordering::Equal
    }

    ghost keyed = { λ version s. refl };
}

impl Lined for Member {
    ghost row_kind = { of.Members };

    ghost fields = { λ version row. (member_line row).fields };

    ghost key = { member_key };

    fn kind() -> Kind {
        Kind::Members
    }

    fn read(alloc: Global, _version: Version, rest: &[u8]) -> Result<(Member, &[u8]), Unread> {
        let (number, rest) = number_of(rest)?;
        let (asn, rest) = asn_of(rest)?;
        let (status, rest) = by_word(rest)?;
        let (as_macro, rest) = free_of(alloc, rest)?;
        let (name, rest) = free_of(alloc, rest)?;
        let rest = end_of(rest)?;
        let row = Member {
            number,
            asn,
            status,
            as_macro,
            name,
        };
        Ok((row, rest))
    }

    fn print(&self, _version: Version, out: &mut Vec<u8>) -> Result<(), AllocError> {
        let fields = [
            Shown::Number(self.number),
            Shown::Number(self.asn.0),
            Shown::Word(self.status.word()),
            Shown::Free(self.as_macro.as_slice()),
            Shown::Free(self.name.as_slice()),
        ];
        put_line(Kind::Members, &fields, out)
    }

    fn order_lines(&self, other: &Member) -> Ordering {
        self.order(other)
    }

    ghost keyed = { λ version row. refl };
}

impl Lined for Contact {
    ghost row_kind = { of.Contacts };

    ghost fields = { λ version row. (contact_line row).fields };

    ghost key = { contact_key };

    fn kind() -> Kind {
        Kind::Contacts
    }

    fn read(alloc: Global, _version: Version, rest: &[u8]) -> Result<(Contact, &[u8]), Unread> {
        let (member, rest) = number_of(rest)?;
        let (place, rest) = number_of(rest)?;
        let (role, rest) = free_of(alloc, rest)?;
        let (mail, rest) = free_of(alloc, rest)?;
        let (name, rest) = free_of(alloc, rest)?;
        let rest = end_of(rest)?;
        let row = Contact {
            member,
            place,
            role,
            mail,
            name,
        };
        Ok((row, rest))
    }

    fn print(&self, _version: Version, out: &mut Vec<u8>) -> Result<(), AllocError> {
        let fields = [
            Shown::Number(self.member),
            Shown::Number(self.place),
            Shown::Free(self.role.as_slice()),
            Shown::Free(self.mail.as_slice()),
            Shown::Free(self.name.as_slice()),
        ];
        put_line(Kind::Contacts, &fields, out)
    }

    fn order_lines(&self, other: &Contact) -> Ordering {
        self.order(other)
    }

    ghost keyed = { λ version row. refl };
}

impl Lined for ApiKey {
    ghost row_kind = { of.Keys };

    ghost fields = { λ version row. (key_line row).fields };

    ghost key = { api_key_key };

    fn kind() -> Kind {
        Kind::Keys
    }

    fn read(alloc: Global, _version: Version, rest: &[u8]) -> Result<(ApiKey, &[u8]), Unread> {
        let (number, rest) = number_of(rest)?;
        let (owner, rest) = owner_of(rest)?;
        let (secret, rest) = secret_of(alloc, rest)?;
        let rest = end_of(rest)?;
        let row = ApiKey {
            number,
            owner,
            secret,
        };
        Ok((row, rest))
    }

    fn print(&self, _version: Version, out: &mut Vec<u8>) -> Result<(), AllocError> {
        let fields = [
            Shown::Number(self.number),
            Shown::Word(owner_word(self.owner)),
            Shown::Number(owner_number(self.owner)),
            Shown::Secret(self.secret.as_slice()),
        ];
        put_line(Kind::Keys, &fields, out)
    }

    fn order_lines(&self, other: &ApiKey) -> Ordering {
        self.order(other)
    }

    ghost keyed = { λ version row. refl };
}
