//! A store of the first version that is looked at as one of today's.
ghost use Rattle.std.specs.Prelude.{◌≡◌, ◌++◌, ◌≤◌, Err, IfOk, IsErrOf, codes, option_map};
ghost use Rattle.std.specs.Option.{option_copied};
ghost use Rattle.ixp_io.specs.Faults.{Rose, last_count};
ghost use Rattle.ixp_io.specs.Tables.{next_after, row_entry};
ghost use Rattle.ixp_io.specs.Told.{WhereTold};
ghost use Rattle.ixp_io.specs.declared.keeper.KeepFault.TheVariants.{Failed};
ghost use Rattle.std.specs.Coded.{Coded-set};
ghost use Rattle.ixp_store_upgrade.specs.Codes.{coded_rows};
ghost use Rattle.ixp_store_upgrade.specs.Versions.{body_now, is_version, row_now, table_now};

use ixp_io::{Change, KeepFault, Keeper, Row, RowName};
use ixp_num_tables::{Items, put};
use ixp_rows_lines::Kind;
use ixp_store_rows::{VERSION, place_of};
use std::alloc::{AllocError, Global};
use std::marker::{Brand, PhantomData};

fn is_version(name: &RowName) -> bool
    ensures { result ≡ is_version name.now }
{
    name.kind == VERSION && name.key.is_empty()
}

/// A router's line with two fields more.
fn with_fields(alloc: Global, line: &[u8]) -> Result<Items<u8>, AllocError>
    ensures { IfOk result (λ text. text ≡ line.now ++ codes " - 0") }
{
    let mut text = Vec::new(alloc);
    put(&mut text, line)?;
    put(&mut text, b" - 0")?;
    Ok(Items::from_vec(text))
}

/// The body of a row of the first version, as one of today's.
fn body_now(alloc: Global, name: &RowName, body: Items<u8>) -> Result<Items<u8>, AllocError>
    ensures { IfOk result (λ text. text ≡ body_now name.now body) }
{
    if is_version(name) {
        return Items::from_slice(alloc, b"2");
    }
    if name.kind == place_of(Kind::Routers) {
        return with_fields(alloc, body.as_slice());
    }
    Ok(body)
}

/// A row of the first version, as one of today's.
fn row_now(alloc: Global, row: Row) -> Result<Row, AllocError>
    ensures { IfOk result (λ now. row_entry now ≡ row_now (row_entry row)) }
{
    let Row { name, body } = row;
    let body = body_now(alloc, &name, body)?;
    Ok(Row { name, body })
}

/// The next row, as one of today's.
#[tactic(auto, using(crate::proofs::Images::next_told))]
fn next_now<P: Keeper>(
    alloc: Global,
    keeper: &mut P,
    after: Option<&RowName>,
) -> Result<Option<Row>, KeepFault>
    ensures row { IfOk result (λ row. WhereTold (option_map table_now (P.table keeper.old))
        (λ rows. option_map row_entry row ≡ next_after (option_copied after.entry) rows)) }
    ensures kept { P.table keeper.new ≡ P.table keeper.old }
    ensures counts { P.faults keeper.old ≤ P.faults keeper.new }
    ensures cause { IsErrOf result Failed → Rose (P.faults keeper.old) (P.faults keeper.new) }
    ensures answered { Rose (P.faults keeper.old) (P.faults keeper.new) → result ≡ Err Failed }
{
    match keeper.next_row(alloc, after)? {
        Some(row) => Ok(Some(row_now(alloc, row)?)),
        None => Ok(None),
    }
}

/// What a store answers of a batch that isn't made. Where its count of faults can't show a rise any more,
/// that is told as a fault.
fn no_batch<P: Keeper>(keeper: &mut P) -> KeepFault
    ensures rows { P.table keeper.new ≡ P.table keeper.old }
    ensures faults { P.faults keeper.new ≡ P.faults keeper.old }
    ensures last { P.faults keeper.old ≡ last_count → result ≡ Failed }
    ensures cause { result ≡ Failed → P.faults keeper.old ≡ last_count }
{
    if keeper.faults() == u64::MAX {
        KeepFault::Failed
    } else {
        KeepFault::NoMemory
    }
}

/// By which reference a store is lent, and which rows it tells. The function that lends a store is generic in
/// it and is called at [`Brand`]; so what comes back of a load is known to be that reference, to a store with
/// these rows.
pub trait Lending {
    ghost use Rattle.std.specs.Prelude.{Option, ℕ};
    ghost use Rattle.ixp_io.specs.Tables.{Table};

    ghost lent: { ℕ };

    ghost rows: { Option Table };
}

impl Lending for Brand {
    ghost use Rattle.std.specs.Prelude.{None};

    ghost lent = { 0 };

    ghost rows = { None };
}

/// A reference to a store, that its lender gets back.
#[derive(Drop)]
pub(crate) struct Loan<'a, P: Keeper> {
    pub(crate) keeper: &'a mut P,
}

/// A store of the first version, whose rows are shown as those of today's. It takes no batch.
#[derive(Drop)]
pub(crate) struct Raised<'a, P: Keeper, L: Lending> {
    pub(crate) keeper: &'a mut P,
    pub(crate) of: PhantomData<L>,
    ghost same: { keeper.ghost_name ≡ L.lent },
    ghost still: { P.table keeper.now ≡ L.rows } by { Coded-set coded_rows _ _ },
}

impl<P: Keeper, L: Lending> Keeper for Raised<'_, P, L> {
    ghost table = { λ it. option_map table_now (P.table it.keeper.now) };

    ghost faults = { λ it. P.faults it.keeper.now };

    /// The store is only looked at: a batch is never made, as if there were no memory for it.
    fn commit(&mut self, _alloc: Global, _batch: &[Change]) -> Result<(), KeepFault> {
        Err(no_batch(self.keeper))
    }

    fn next_row(
        &mut self,
        alloc: Global,
        after: Option<&RowName>,
    ) -> Result<Option<Row>, KeepFault> {
        next_now(alloc, self.keeper, after)
    }

    fn faults(&self) -> u64 {
        self.keeper.faults()
    }
}

/// Does nothing, but this use of a returned reference ties it, for the borrow checker, to the parameter that
/// lent it.
pub(crate) fn take_back<T>(it: &mut T)
    ensures { it.new ≡ it.old }
{}
