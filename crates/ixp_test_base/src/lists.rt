//! Lists, stacks, and lists that are written.
ghost use Rattle.std.specs.Prelude.{decimal};

use ixp_num_tables::{Items, Stack, Writes, put_joined, put_number};
use std::alloc::{AllocError, Global};
use std::test::Fail;

fn listed(alloc: Global) -> Result<Items<u32>, AllocError> {
    let mut items = Items::new(alloc);
    items.push(3)?;
    items.push(1)?;
    items.copied(alloc)
}

/// What a stack of two items gives.
fn stacked(alloc: Global) -> Result<[Option<u32>; 3], AllocError> {
    let mut stack = Stack::new(alloc);
    stack.push(3)?;
    stack.push(1)?;
    Ok([stack.pop(), stack.pop(), stack.pop()])
}

#[test]
fn items_and_stacks(rt: HostRuntime) -> Result<(), Fail> {
    assert!(rt; listed(rt.alloc())?.as_slice() == [3, 1].as_slice());
    assert!(rt; stacked(rt.alloc())? == [Some(1), Some(3), None]);
    Ok(())
}

struct Decimal;

impl Writes for Decimal {
    type Item = u32;

    ghost text_of = { λ n. decimal n };

    fn write(item: &u32, out: &mut Vec<u8>) -> Result<(), AllocError> {
        put_number(out, u64::from(*item))
    }
}

const JOINED: &[(&[u32], &str)] = &[
    (&[], ""),
    (&[7], "7"),
    (&[1, 20, 4294967295], "1, 20, 4294967295"),
];

#[test]
fn numbers_are_joined(rt: HostRuntime) -> Result<(), Fail> {
    for &(numbers, want) in JOINED {
        let mut out = Vec::new(rt.alloc());
        put_joined::<Decimal>(&mut out, b", ", numbers)?;
        assert!(rt; out.as_slice() == want.as_bytes(), "{want}");
    }
    Ok(())
}
