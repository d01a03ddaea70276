//! Rule 3: texts have their alphabet and length.
ghost use Rattle.std.specs.Prelude.{◌≡◌};
ghost use Rattle.ixp_registry.specs.Rules.{
  site_has_texts,
  members_have_texts,
  contacts_have_texts,
  keys_have_texts,
  switches_have_texts,
  ports_have_texts,
  vlans_have_texts,
  addresses_have_texts,
  routers_have_texts,
  rule_3,
};
ghost use Rattle.ixp_registry.specs.Sizes.{HasLines};

use ixp_registry::{
    Rows, addresses_at, contacts_at, earliest, first, is_handle, is_key_secret, is_label, is_macro,
    is_note, is_session_secret, keys_at, members_at, ports_at, routers_at, site_at, switches_at,
    vlans_at,
};

fn site_has_texts(rows: &Rows) -> Option<usize>
    ensures { result ≡ site_has_texts rows.now }
{
    if is_note(rows.site.shortname.as_slice()) {
        None
    } else {
        Some(site_at())
    }
}

fn members_have_texts(rows: &Rows) -> Option<usize>
    requires { HasLines rows.now }
    ensures { result ≡ members_have_texts rows.now }
{
    let members = rows.members.as_slice();
    first(
        members_at(),
        members,
        |m| !(is_macro(m.as_macro.as_slice()) && is_label(m.name.as_slice())),
    )
}

fn contacts_have_texts(rows: &Rows) -> Option<usize>
    requires { HasLines rows.now }
    ensures { result ≡ contacts_have_texts rows.now }
{
    let contacts = rows.contacts.as_slice();
    first(
        contacts_at(rows),
        contacts,
        |c| !(is_note(c.role.as_slice())
            && is_note(c.mail.as_slice())
            && is_label(c.name.as_slice())),
    )
}

fn keys_have_texts(rows: &Rows) -> Option<usize>
    requires { HasLines rows.now }
    ensures { result ≡ keys_have_texts rows.now }
{
    let keys = rows.keys.as_slice();
    first(keys_at(rows), keys, |k| !is_key_secret(k.secret.as_slice()))
}

fn switches_have_texts(rows: &Rows) -> Option<usize>
    requires { HasLines rows.now }
    ensures { result ≡ switches_have_texts rows.now }
{
    let switches = rows.switches.as_slice();
    first(
        switches_at(rows),
        switches,
        |s| !is_label(s.name.as_slice()),
    )
}

fn ports_have_texts(rows: &Rows) -> Option<usize>
    requires { HasLines rows.now }
    ensures { result ≡ ports_have_texts rows.now }
{
    let ports = rows.ports.as_slice();
    first(ports_at(rows), ports, |p| !is_label(p.name.as_slice()))
}

fn vlans_have_texts(rows: &Rows) -> Option<usize>
    requires { HasLines rows.now }
    ensures { result ≡ vlans_have_texts rows.now }
{
    let vlans = rows.vlans.as_slice();
    first(vlans_at(rows), vlans, |v| !is_label(v.name.as_slice()))
}

fn addresses_have_texts(rows: &Rows) -> Option<usize>
    requires { HasLines rows.now }
    ensures { result ≡ addresses_have_texts rows.now }
{
    let addresses = rows.addresses.as_slice();
    first(
        addresses_at(rows),
        addresses,
        |a| !is_session_secret(a.address.secret.as_slice()),
    )
}

fn routers_have_texts(rows: &Rows) -> Option<usize>
    requires { HasLines rows.now }
    ensures { result ≡ routers_have_texts rows.now }
{
    let routers = rows.routers.as_slice();
    first(
        routers_at(rows),
        routers,
        |r| !is_handle(r.handle.as_bytes()),
    )
}

/// Texts have their alphabet and length.
pub fn rule_3(rows: &Rows) -> Option<usize>
    requires { HasLines rows.now }
    ensures { result ≡ rule_3 rows.now }
{
    earliest(&[
        site_has_texts(rows),
        members_have_texts(rows),
        contacts_have_texts(rows),
        keys_have_texts(rows),
        switches_have_texts(rows),
        ports_have_texts(rows),
        vlans_have_texts(rows),
        addresses_have_texts(rows),
        routers_have_texts(rows),
    ])
}
