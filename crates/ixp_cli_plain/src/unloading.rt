//! How a run ends whose store can't be loaded.
ghost use Rattle.std.specs.Prelude.{◌≡◌, ◌++◌, OnOk, IfOk};
ghost use Rattle.ixp_cli_plain.specs.Sessions.{Unloaded, damage_text, damage_word};

use crate::end::End;
use ixp_io::RowName;
use ixp_num::Items;
use ixp_num_tables::{put, put_number};
use ixp_rows_lines::put_free;
use ixp_store_load::{Damage, LoadFault};
use std::alloc::{AllocError, Global};

fn put_damage(damage: Damage, out: &mut Vec<u8>) -> Result<(), AllocError>
    ensures { OnOk result (out.new.items ≡ out.old.items ++ damage_word damage) }
{
    match damage {
        Damage::Row => put(out, b"row"),
        Damage::Rule(rule) => {
            put(out, b"Q")?;
            put_number(out, u64::from(rule))
        }
    }
}

/// What is told of a damaged row.
fn damage_text(alloc: Global, name: &RowName, damage: Damage) -> Result<Items<u8>, AllocError>
    ensures { IfOk result (λ text. text ≡ damage_text name.now damage) }
{
    let mut text = Vec::new(alloc);
    put_number(&mut text, u64::from(name.kind))?;
    put(&mut text, b" ")?;
    put_free(&mut text, name.key.as_slice())?;
    put(&mut text, b" ")?;
    put_damage(damage, &mut text)?;
    Ok(Items::from_vec(text))
}

/// How a run ends whose store can't be loaded.
pub fn unloaded(alloc: Global, fault: LoadFault) -> End
    ensures { Unloaded fault result }
{
    match fault {
        LoadFault::KeeperFault => End::KeeperFault,
        LoadFault::Damaged { name, damage } => match damage_text(alloc, &name, damage) {
            Ok(what) => End::Damaged { what },
            Err(_) => End::NoMemory,
        },
        LoadFault::OldVersion { found } => End::OldVersion { found },
        LoadFault::NoMemory => End::NoMemory,
    }
}
