//! Printing of addresses, prefixes, patterns and AS numbers.
ghost use Rattle.std.specs.Prelude.{◌≡◌, ◌<◌, ◌^◌, ◌/◌, ◌%◌, ℕ, ◌++◌, ◌∷◌, [], decimal, take, OnOk, OnErr};
ghost use Rattle.ixp_num.specs.Families.{bits_of};
ghost use Rattle.ixp_num.specs.Printing.{
  text4,
  value_text,
  addr_text,
  prefix_text,
  bounds_text,
  pattern_text,
  groups_of,
  Grown,
};
ghost use Rattle.std.specs.Net.Text.{hex_groups_text};

use crate::{Addr, Asn, Family, Pattern, Prefix};
use itoa::Buffer;
use std::alloc::AllocError;
use std::net::Ipv6Addr;

fn append_decimal(number: u64, out: &mut Vec<u8>) -> Result<(), AllocError>
    ensures ok { OnOk result (out.new.items ≡ out.old.items ++ decimal number) }
    ensures err { OnErr result (Grown out.old.items out.new.items) }
{
    let mut buffer = Buffer::new();
    out.extend_from_slice(buffer.format(number).as_bytes())
}

fn append_byte(byte: u8, out: &mut Vec<u8>) -> Result<(), AllocError>
    ensures ok { OnOk result (out.new.items ≡ out.old.items ++ byte ∷ []) }
    ensures err { OnErr result (Grown out.old.items out.new.items) }
{
    out.push(byte)?;
    Ok(())
}

fn append_text4(value: u128, out: &mut Vec<u8>) -> Result<(), AllocError>
    requires { value < 2 ^ 32 }
    ensures ok { OnOk result (out.new.items ≡ out.old.items ++ text4 value) }
    ensures err { OnErr result (Grown out.old.items out.new.items) }
{
    append_decimal((value / 16777216) as u64, out)?;
    append_byte(b'.', out)?;
    append_decimal((value / 65536 % 256) as u64, out)?;
    append_byte(b'.', out)?;
    append_decimal((value / 256 % 256) as u64, out)?;
    append_byte(b'.', out)?;
    append_decimal((value % 256) as u64, out)?;
    Ok(())
}

fn group_of(value: u128, bits: u128) -> u16
    requires { 0 < bits }
    ensures { result ≡ value / bits % 65536 }
{
    (value / bits % 65536) as u16
}

fn groups_of(value: u128) -> [u16; 8]
    requires { value < 2 ^ 128 }
    ensures { result ≡ groups_of value }
{
    [
        (value >> 112) as u16,
        group_of(value, 1 << 96),
        group_of(value, 1 << 80),
        group_of(value, 1 << 64),
        group_of(value, 1 << 48),
        group_of(value, 1 << 32),
        group_of(value, 1 << 16),
        (value % 65536) as u16,
    ]
}

fn append_text6(value: u128, out: &mut Vec<u8>) -> Result<(), AllocError>
    requires { value < 2 ^ 128 }
    ensures ok { OnOk result (out.new.items ≡ out.old.items ++ hex_groups_text (groups_of value)) }
    ensures err { OnErr result (Grown out.old.items out.new.items) }
{
    let addr = Ipv6Addr::from(groups_of(value));
    let text = format!(in *out.allocator(); "{}", addr.hex_groups())?;
    out.extend_from_slice(text.as_bytes())
}

fn append_value(family: Family, value: u128, out: &mut Vec<u8>) -> Result<(), AllocError>
    requires { value < 2 ^ bits_of family }
    ensures ok { OnOk result (out.new.items ≡ out.old.items ++ value_text family value) }
    ensures err { OnErr result (Grown out.old.items out.new.items) }
{
    match family {
        Family::V4 => append_text4(value, out),
        Family::V6 => append_text6(value, out),
    }
}

fn append_prefix(prefix: &Prefix, out: &mut Vec<u8>) -> Result<(), AllocError>
    ensures ok { OnOk result (out.new.items ≡ out.old.items ++ prefix_text prefix.now) }
    ensures err { OnErr result (Grown out.old.items out.new.items) }
{
    append_value(prefix.family, prefix.value, out)?;
    append_byte(b'/', out)?;
    append_decimal(u64::from(prefix.len), out)?;
    Ok(())
}

fn append_bounds(pattern: &Pattern, out: &mut Vec<u8>) -> Result<(), AllocError>
    ensures ok { OnOk result (out.new.items ≡ out.old.items ++ bounds_text pattern.now) }
    ensures err { OnErr result (Grown out.old.items out.new.items) }
{
    append_prefix(&pattern.prefix, out)?;
    append_byte(b'{', out)?;
    append_decimal(u64::from(pattern.low), out)?;
    append_byte(b',', out)?;
    append_decimal(u64::from(pattern.high), out)?;
    append_byte(b'}', out)?;
    Ok(())
}

fn cut_on_error(
    printed: Result<(), AllocError>,
    start: usize,
    out: &mut Vec<u8>,
) -> Result<(), AllocError>
    ensures same { result ≡ printed }
    ensures ok { OnOk result (out.new.items ≡ out.old.items) }
    ensures err { OnErr result (out.new.items ≡ take start out.old.items) }
{
    if printed.is_err() {
        out.truncate(start);
    }
    printed
}

/// Appends the address in its one spelling. Where memory runs out, `out` is as before.
pub fn print_addr(addr: &Addr, out: &mut Vec<u8>) -> Result<(), AllocError>
    ensures ok { OnOk result (out.new.items ≡ out.old.items ++ addr_text addr.now) }
    ensures err { OnErr result (out.new.items ≡ out.old.items) }
{
    let start = out.len();
    let printed = append_value(addr.family, addr.value, out);
    cut_on_error(printed, start, out)
}

/// Appends the prefix in its one spelling. Where memory runs out, `out` is as before.
pub fn print_prefix(prefix: &Prefix, out: &mut Vec<u8>) -> Result<(), AllocError>
    ensures ok { OnOk result (out.new.items ≡ out.old.items ++ prefix_text prefix.now) }
    ensures err { OnErr result (out.new.items ≡ out.old.items) }
{
    let start = out.len();
    let printed = append_prefix(prefix, out);
    cut_on_error(printed, start, out)
}

/// Appends the pattern with its bounds, also where they are the prefix's length. Where memory runs out,
/// `out` is as before.
pub fn print_pattern_bounds(pattern: &Pattern, out: &mut Vec<u8>) -> Result<(), AllocError>
    ensures ok { OnOk result (out.new.items ≡ out.old.items ++ bounds_text pattern.now) }
    ensures err { OnErr result (out.new.items ≡ out.old.items) }
{
    let start = out.len();
    let printed = append_bounds(pattern, out);
    cut_on_error(printed, start, out)
}

/// Appends the pattern, without bounds where they are the prefix's length. Where memory runs out, `out` is
/// as before.
pub fn print_pattern(pattern: &Pattern, out: &mut Vec<u8>) -> Result<(), AllocError>
    ensures ok { OnOk result (out.new.items ≡ out.old.items ++ pattern_text pattern.now) }
    ensures err { OnErr result (out.new.items ≡ out.old.items) }
{
    if pattern.low == pattern.prefix.len && pattern.high == pattern.prefix.len {
        print_prefix(&pattern.prefix, out)
    } else {
        print_pattern_bounds(pattern, out)
    }
}

/// Appends the number in decimal. Where memory runs out, `out` is as before.
pub fn print_asn(asn: Asn, out: &mut Vec<u8>) -> Result<(), AllocError>
    ensures ok { OnOk result (out.new.items ≡ out.old.items ++ decimal asn.0) }
    ensures err { OnErr result (out.new.items ≡ out.old.items) }
{
    let mut buffer = Buffer::new();
    out.extend_from_slice(buffer.format(asn.0).as_bytes())
}
