//! The upgrade of a store.
ghost use Rattle.std.specs.Prelude.{
  ◌≡◌,
  ◌≢◌,
  ◌≤◌,
  ℕ,
  Err,
  IfOk,
  IsErrOf,
  OnErr,
  Some,
  option_map,
};
ghost use Rattle.ixp_io.specs.Faults.{Rose};
ghost use Rattle.ixp_io.specs.Told.{Told, WhereTold};
ghost use Rattle.ixp_machine_steps.specs.declared.state.State.{State as Whole};
ghost use Rattle.ixp_machine_steps.specs.States.{ValidState};
ghost use Rattle.ixp_store_rows.specs.States.{tables};
ghost use Rattle.ixp_store_words.specs.Answers.{IsLoaded, IsStoreOf, TellsVersion};
ghost use Rattle.ixp_store_words.specs.Storing.{IsStorable};
ghost use Rattle.ixp_store_words.specs.declared.fault.LoadFault.TheVariants.{KeeperFault, OldVersion};
ghost use Rattle.ixp_store_damage.specs.Damages.{TellsRow};
ghost use Rattle.ixp_store_upgrade.specs.Upgrades.{IsOld, TellsDamaged, Upgrades, UpgradesAll};
ghost use Rattle.ixp_store_upgrade.specs.Versions.{table_now};

use crate::changing::{set_versions, version_name};
use crate::raising::{Lending, Loan, Raised, take_back};
use ixp_io::Keeper;
use ixp_machine_steps::State;
use ixp_store_load::load;
use ixp_store_words::{Damage, LoadFault};
use std::alloc::Global;
use std::marker::{Brand, PhantomData};

/// Loads a store of the first version that is lent, as the rows that it would have today, and gives it back.
fn load_lent<'a, L: Lending, P: Keeper>(
    alloc: Global,
    loan: Loan<'a, P>,
) -> (Result<State, LoadFault>, &'a mut P)
    requires name { loan.keeper.ghost_name ≡ L.lent }
    requires rows { P.table loan.keeper.now ≡ L.rows }
    ensures back { result.1.ghost_name ≡ loan.entry.keeper.ghost_name }
    ensures valid { IfOk result.0 ValidState }
    ensures storable { IfOk result.0 IsStorable }
    ensures state { IfOk result.0
        (λ s. WhereTold (option_map table_now (P.table loan.entry.keeper.now)) (IsStoreOf s)) }
    ensures complete { (s : Whole) → ValidState s → IsStorable s
        → option_map table_now (P.table loan.entry.keeper.now) ≡ Some (tables s) → IsLoaded s result.0 }
    ensures version { WhereTold (option_map table_now (P.table loan.entry.keeper.now))
        (TellsVersion result.0) }
    ensures damage { WhereTold (option_map table_now (P.table loan.entry.keeper.now)) (TellsRow result.0) }
    ensures kept { P.table result.1.now ≡ P.table loan.entry.keeper.now }
    ensures counts { P.faults loan.entry.keeper.now ≤ P.faults result.1.now }
    ensures cause { IsErrOf result.0 KeeperFault
        → Rose (P.faults loan.entry.keeper.now) (P.faults result.1.now) }
    ensures answered { Rose (P.faults loan.entry.keeper.now) (P.faults result.1.now)
        → result.0 ≡ Err KeeperFault }
{
    let Loan { keeper } = loan;
    let mut raised: Raised<'a, P, L> = Raised {
        keeper,
        of: PhantomData,
    };
    let loaded = load(alloc, &mut raised);
    let Raised { keeper, of: _of } = raised;
    (loaded, keeper)
}

/// The state that a store of the first version has.
fn load_first<P: Keeper>(alloc: Global, keeper: &mut P) -> Result<State, LoadFault>
    ensures valid { IfOk result ValidState }
    ensures storable { IfOk result IsStorable }
    ensures state { IfOk result (λ s. WhereTold (option_map table_now (P.table keeper.old)) (IsStoreOf s)) }
    ensures complete { (s : Whole) → ValidState s → IsStorable s
        → option_map table_now (P.table keeper.old) ≡ Some (tables s) → IsLoaded s result }
    ensures version { WhereTold (option_map table_now (P.table keeper.old)) (TellsVersion result) }
    ensures damage { WhereTold (option_map table_now (P.table keeper.old)) (TellsRow result) }
    ensures kept { P.table keeper.new ≡ P.table keeper.old }
    ensures counts { P.faults keeper.old ≤ P.faults keeper.new }
    ensures cause { IsErrOf result KeeperFault → Rose (P.faults keeper.old) (P.faults keeper.new) }
    ensures answered { Rose (P.faults keeper.old) (P.faults keeper.new) → result ≡ Err KeeperFault }
{
    let lent = &mut *keeper;
    let loan = Loan { keeper: lent };
    let (loaded, back) = load_lent::<Brand, P>(alloc, loan);
    take_back(back);
    loaded
}

/// A fault of a load of raised rows, which are of no older version.
fn raised_fault(alloc: Global, fault: LoadFault) -> LoadFault
    ensures never { (found : ℕ) → result ≢ OldVersion found }
    ensures other { ((found : ℕ) → fault ≢ OldVersion found) → result ≡ fault }
    ensures keeper { result ≡ KeeperFault → fault ≡ KeeperFault }
{
    match fault {
        LoadFault::KeeperFault => LoadFault::KeeperFault,
        LoadFault::Damaged { name, damage } => LoadFault::Damaged { name, damage },
        LoadFault::OldVersion { .. } => LoadFault::Damaged {
            name: version_name(alloc),
            damage: Damage::Row,
        },
        LoadFault::NoMemory => LoadFault::NoMemory,
    }
}

/// Upgrades a store of the first version.
fn upgrade_first<P: Keeper>(alloc: Global, keeper: &mut P) -> Result<u64, LoadFault>
    requires old { WhereTold (P.table keeper.old) IsOld }
    ensures upgraded { IfOk result (λ n. Told (P.table keeper.old) (P.table keeper.new) (Upgrades n)) }
    ensures kept { OnErr result (P.table keeper.new ≡ P.table keeper.old) }
    ensures damage { WhereTold (P.table keeper.old) (TellsDamaged result) }
    ensures complete { UpgradesAll (P.table keeper.old) result }
    ensures never { (found : ℕ) → result ≢ Err (OldVersion found) }
    ensures counts { P.faults keeper.old ≤ P.faults keeper.new }
    ensures cause { IsErrOf result KeeperFault → Rose (P.faults keeper.old) (P.faults keeper.new) }
    ensures answered { Rose (P.faults keeper.old) (P.faults keeper.new) → result ≡ Err KeeperFault }
{
    let state = match load_first(alloc, keeper) {
        Ok(state) => state,
        Err(fault) => return Err(raised_fault(alloc, fault)),
    };
    match set_versions(alloc, keeper, &state) {
        Ok(()) => Ok(state.registry.routers.len() as u64),
        Err(fault) => Err(fault),
    }
}

/// Makes a store of the first version today's, and gives the number of its routers. A store of today's
/// version, or without rows, stays as it is, and 0 is given.
pub fn upgrade<P: Keeper>(alloc: Global, keeper: &mut P) -> Result<u64, LoadFault>
    ensures upgraded { IfOk result (λ n. Told (P.table keeper.old) (P.table keeper.new) (Upgrades n)) }
    ensures kept { OnErr result (P.table keeper.new ≡ P.table keeper.old) }
    ensures damage { WhereTold (P.table keeper.old) (TellsDamaged result) }
    ensures complete { UpgradesAll (P.table keeper.old) result }
    ensures never { (found : ℕ) → result ≢ Err (OldVersion found) }
    ensures counts { P.faults keeper.old ≤ P.faults keeper.new }
    ensures cause { IsErrOf result KeeperFault → Rose (P.faults keeper.old) (P.faults keeper.new) }
    ensures answered { Rose (P.faults keeper.old) (P.faults keeper.new) → result ≡ Err KeeperFault }
{
    match load(alloc, keeper) {
        Ok(_state) => Ok(0),
        Err(LoadFault::KeeperFault) => Err(LoadFault::KeeperFault),
        Err(LoadFault::Damaged { name, damage }) => Err(LoadFault::Damaged { name, damage }),
        Err(LoadFault::OldVersion { .. }) => upgrade_first(alloc, keeper),
        Err(LoadFault::NoMemory) => Err(LoadFault::NoMemory),
    }
}
