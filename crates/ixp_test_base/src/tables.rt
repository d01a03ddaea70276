//! Tables of rows with two numbers for a key.
ghost use Rattle.std.specs.Prelude.{ℕ, List, [], ◌∷◌};

use ixp_num_tables::{Row, Table, put_number};
use std::alloc::{AllocError, Global};
use std::cmp::Ordering;
use std::test::Fail;

/// A contact of a member: its key is the member and the place, its text a letter.
#[derive(Clone, Copy, Debug, PartialEq)]
struct Contact {
    member: u32,
    place: u32,
    letter: u8,
}

impl Row for Contact {
    type Key = (u32, u32);

    ghost key_of = { λ c. c.member ∷ c.place ∷ [] };

    ghost named = { λ k. k.0 ∷ k.1 ∷ [] };

    fn compare(&self, key: &(u32, u32)) -> Ordering {
        self.member.cmp(&key.0).then(self.place.cmp(&key.1))
    }

    fn order(&self, other: &Contact) -> Ordering {
        self.member
            .cmp(&other.member)
            .then(self.place.cmp(&other.place))
    }
}

/// A letter that is put at a key; none where the row with the key is taken out.
type Step = (u32, u32, Option<u8>);

/// Puts the row in, or replaces the one with its key.
fn put_letter(table: &mut Table<Contact>, row: Contact) -> Result<(), AllocError> {
    if table.find(&(row.member, row.place)).is_some() {
        table.replace(row);
        return Ok(());
    }
    table.put(row)
}

fn after(alloc: Global, steps: &[Step]) -> Result<Table<Contact>, AllocError> {
    let mut table = Table::new(alloc);
    for (member, place, letter) in steps {
        match *letter {
            Some(letter) => put_letter(
                &mut table,
                Contact {
                    member: *member,
                    place: *place,
                    letter,
                },
            )?,
            None => table.take_out(&(*member, *place)),
        }
    }
    Ok(table)
}

/// The rows, each as `<member>.<place><letter>` and a blank.
fn shown(alloc: Global, rows: &[Contact]) -> Result<Vec<u8>, AllocError> {
    let mut out = Vec::new(alloc);
    for row in rows {
        put_number(&mut out, u64::from(row.member))?;
        out.push(b'.')?;
        put_number(&mut out, u64::from(row.place))?;
        out.push(row.letter)?;
        out.push(b' ')?;
    }
    Ok(out)
}

const FIVE: &[Step] = &[
    (10, 1, Some(b'a')),
    (300, 1, Some(b'a')),
    (2, 10, Some(b'a')),
    (10, 2, Some(b'a')),
    (2, 7, Some(b'a')),
];

const TABLES: &[(&[Step], &str)] = &[
    (&[(1, 1, None)], ""),
    (FIVE, "2.7a 2.10a 10.1a 10.2a 300.1a "),
    (
        &[(2, 7, Some(b'a')), (2, 7, Some(b'b')), (2, 6, Some(b'c'))],
        "2.6c 2.7b ",
    ),
    (
        &[
            (1, 1, Some(b'a')),
            (2, 1, Some(b'b')),
            (3, 1, Some(b'c')),
            (1, 1, None),
            (3, 1, None),
        ],
        "2.1b ",
    ),
    (&[(1, 1, Some(b'a')), (1, 2, None)], "1.1a "),
];

#[test]
fn rows_stand_in_the_order_of_their_keys(rt: HostRuntime) -> Result<(), Fail> {
    for &(steps, want) in TABLES {
        let table = after(rt.alloc(), steps)?;
        let again = Table::from_ascending(table.into_rows());
        let rows = shown(rt.alloc(), again.as_slice())?;
        assert!(rt; rows.as_slice() == want.as_bytes(), "{want}");
    }
    Ok(())
}

const KEYS: &[(u32, u32, bool)] = &[
    (2, 7, true),
    (10, 1, true),
    (300, 1, true),
    (0, 0, false),
    (2, 8, false),
    (2, 11, false),
    (3, 1, false),
    (299, 1, false),
    (300, 2, false),
    (301, 0, false),
];

#[test]
fn rows_are_found_by_their_keys(rt: HostRuntime) -> Result<(), Fail> {
    let table = after(rt.alloc(), FIVE)?;
    for &(member, place, found) in KEYS {
        assert!(rt;
            table.find(&(member, place)).is_some() == found,
            "{member} {place}"
        );
    }
    Ok(())
}
