//! Readers of the texts of IPv6 addresses (RFC 4291 section 2.2).
ghost use Rattle.std.specs.Prelude.{◌≡◌, ◌+◌, ◌-◌, ◌*◌, ◌^◌, ◌≤◌, ◌<◌, ℕ, IfOk};
ghost use Rattle.ixp_num.specs.AddressForms.{
  tail_form,
  more_form,
  behind_form,
  gap_form,
  colon_form,
  groups_form,
  form6,
};
ghost use Rattle.ixp_num.specs.Forms.{Mark};
ghost use Rattle.ixp_num.specs.Reading.{Gives, read, said_of, IsWhole};

use crate::Family;
use crate::reading::{Reading, Tail};
use crate::texts::{dotted_text, farther_of, group_of, mark_of, tail_text};

/// One group behind `::`, and up to `room` more. `base` is the value of the groups before `::`, and `value`
/// that of those behind it so far.
#[cycle(behind)]
fn behind_text(
    tail: Tail,
    room: u8,
    base: u128,
    value: u128,
    bytes: &[u8],
) -> Result<Reading, usize>
    requires { base + (value + 1) * 2 ^ (16 * (room + 1)) ≤ 2 ^ 128 }
    ensures says { Gives said_of result
        (read (behind_form room (tail_form tail Family.V6) base value) bytes.now) }
    ensures whole { IfOk result (λ r. IsWhole tail r) }
{
    if room == 0 {
        return last_text(tail, base, value, bytes);
    }
    farther_of(
        dotted_text(tail, Family::V6, base + value * (1 << 32), bytes),
        more_text(tail, room, base, value, bytes),
    )
}

/// The last group that there is room for.
fn last_text(tail: Tail, base: u128, value: u128, bytes: &[u8]) -> Result<Reading, usize>
    requires { base + (value + 1) * 65536 ≤ 2 ^ 128 }
    ensures says { Gives said_of result
        (read (behind_form 0 (tail_form tail Family.V6) base value) bytes.now) }
    ensures whole { IfOk result (λ r. IsWhole tail r) }
{
    let (group, rest) = group_of(bytes)?;
    tail_text(
        tail,
        Family::V6,
        base + (value * 65536 + u128::from(group)),
        rest,
    )
}

/// One group, and then the end of the address or up to `room` more.
#[cycle(behind)]
fn more_text(tail: Tail, room: u8, base: u128, value: u128, bytes: &[u8]) -> Result<Reading, usize>
    requires room { 0 < room }
    requires fits { base + (value + 1) * 2 ^ (16 * (room + 1)) ≤ 2 ^ 128 }
    ensures says { Gives said_of result
        (read (more_form (tail_form tail Family.V6)
        (behind_form (room - 1) (tail_form tail Family.V6) base) base value) bytes.now) }
    ensures whole { IfOk result (λ r. IsWhole tail r) }
{
    let (group, rest) = group_of(bytes)?;
    let value = value * 65536 + u128::from(group);
    farther_of(
        tail_text(tail, Family::V6, base + value, rest),
        next_text(tail, room - 1, base, value, rest),
    )
}

/// A colon, and the groups behind it.
#[cycle(behind)]
fn next_text(tail: Tail, room: u8, base: u128, value: u128, bytes: &[u8]) -> Result<Reading, usize>
    requires { base + (value + 1) * 2 ^ (16 * (room + 1)) ≤ 2 ^ 128 }
    ensures says { Gives said_of result
        (read (Mark 58 (behind_form room (tail_form tail Family.V6) base value)) bytes.now) }
    ensures whole { IfOk result (λ r. IsWhole tail r) }
{
    let rest = mark_of(b':', bytes)?;
    behind_text(tail, room, base, value, rest)
}

/// Up to `room` groups behind `::`.
fn gap_text(tail: Tail, room: u8, base: u128, bytes: &[u8]) -> Result<Reading, usize>
    requires { base + 2 ^ (16 * room) ≤ 2 ^ 128 }
    ensures says { Gives said_of result (read (gap_form room (tail_form tail Family.V6) base) bytes.now) }
    ensures whole { IfOk result (λ r. IsWhole tail r) }
{
    let here = tail_text(tail, Family::V6, base, bytes);
    if room == 0 {
        return here;
    }
    farther_of(here, behind_text(tail, room - 1, base, 0, bytes))
}

/// The second colon of `::`, and the groups behind it.
fn colons_text(tail: Tail, room: u8, base: u128, bytes: &[u8]) -> Result<Reading, usize>
    requires { base + 2 ^ (16 * room) ≤ 2 ^ 128 }
    ensures says { Gives said_of result
        (read (Mark 58 (gap_form room (tail_form tail Family.V6) base)) bytes.now) }
    ensures whole { IfOk result (λ r. IsWhole tail r) }
{
    let rest = mark_of(b':', bytes)?;
    gap_text(tail, room, base, rest)
}

/// A group and `room` more.
#[cycle(groups)]
fn groups_text(tail: Tail, room: u8, value: u128, bytes: &[u8]) -> Result<Reading, usize>
    requires low { room ≤ 7 }
    requires fits { value + 2 ^ (16 * (room + 1)) ≤ 2 ^ 128 }
    ensures says { Gives said_of result (read (groups_form room (tail_form tail Family.V6) value) bytes.now) }
    ensures whole { IfOk result (λ r. IsWhole tail r) }
{
    match room {
        0 => eighth_text(tail, value, bytes),
        1 => farther_of(
            dotted_text(tail, Family::V6, value, bytes),
            colon_text(tail, 1, value, bytes),
        ),
        _ => colon_text(tail, room, value, bytes),
    }
}

/// The eighth group.
fn eighth_text(tail: Tail, value: u128, bytes: &[u8]) -> Result<Reading, usize>
    requires { value + 65536 ≤ 2 ^ 128 }
    ensures says { Gives said_of result (read (groups_form 0 (tail_form tail Family.V6) value) bytes.now) }
    ensures whole { IfOk result (λ r. IsWhole tail r) }
{
    let (group, rest) = group_of(bytes)?;
    tail_text(tail, Family::V6, value + u128::from(group), rest)
}

/// A group and a colon, and then `room` groups or a second colon.
#[cycle(groups)]
fn colon_text(tail: Tail, room: u8, value: u128, bytes: &[u8]) -> Result<Reading, usize>
    requires room { 0 < room }
    requires low { room ≤ 7 }
    requires fits { value + 2 ^ (16 * (room + 1)) ≤ 2 ^ 128 }
    ensures says { Gives said_of result
        (read (colon_form room (tail_form tail Family.V6)
        (groups_form (room - 1) (tail_form tail Family.V6)) value) bytes.now) }
    ensures whole { IfOk result (λ r. IsWhole tail r) }
{
    let (group, rest) = group_of(bytes)?;
    let rest = mark_of(b':', rest)?;
    let value = value + in_place(group, room);
    farther_of(
        colons_text(tail, room - 1, value, rest),
        groups_text(tail, room - 1, value, rest),
    )
}

/// The value of a group with `room` groups behind it.
fn in_place(group: u16, room: u8) -> u128
    requires { room ≤ 7 }
    ensures { result ≡ group * 2 ^ (16 * room) }
{
    u128::from(group) << (16 * u32::from(room))
}

/// An IPv6 address, and what stands behind it.
pub(crate) fn text6(tail: Tail, bytes: &[u8]) -> Result<Reading, usize>
    ensures says { Gives said_of result (read (form6 tail) bytes.now) }
    ensures whole { IfOk result (λ r. IsWhole tail r) }
{
    farther_of(leading_text(tail, bytes), groups_text(tail, 7, 0, bytes))
}

/// An IPv6 address that begins with `::`.
fn leading_text(tail: Tail, bytes: &[u8]) -> Result<Reading, usize>
    ensures says { Gives said_of result
        (read (Mark 58 (Mark 58 (gap_form 7 (tail_form tail Family.V6) 0))) bytes.now) }
    ensures whole { IfOk result (λ r. IsWhole tail r) }
{
    let rest = mark_of(b':', bytes)?;
    colons_text(tail, 7, 0, rest)
}
