//! Laws of runs that wait. The functions do nothing: each is called for what it ensures.
ghost use Rattle.std.specs.Prelude.{◌≡◌, ℕ, true, Option, Some, is_some};
ghost use Rattle.ixp_io.specs.Faults.{Rose};
ghost use Rattle.ixp_io.specs.Tables.{Table};
ghost use Rattle.ixp_io.specs.Told.{WhereTold};
ghost use Rattle.ixp_machine_steps.specs.declared.state.State.{State};
ghost use Rattle.ixp_cli_plain.specs.declared.command.Command.{Command};
ghost use Rattle.ixp_cli_plain.specs.declared.command.Command.TheVariants.{Demo, Dump, Upgrade, Wait};
ghost use Rattle.ixp_cli_plain.specs.declared.command.RtrPort.{RtrPort};
ghost use Rattle.ixp_cli_plain.specs.declared.command.Waiting.TheVariants.{Serve};
ghost use Rattle.ixp_cli_plain.specs.Demos.{demo_text};
ghost use Rattle.ixp_cli_plain.specs.Dumps.{IsDamaged, IsOld, IsStatusOr, IsStoredAs, IsWhole, dump_of};
ghost use Rattle.ixp_cli_plain.specs.Runs.{CanBeLoaded, Outside};
ghost use Rattle.ixp_cli_plain.specs.Upgraded.{Becomes, IsDamagedFor, IsWholeRaise};
ghost use Rattle.ixp_store_upgrade.specs.Upgrades.{FitsNoVersion};
ghost use Rattle.ixp_cli.specs.Waits.{
  AllRuns,
  DoorAt,
  ServedAll,
  ServesAll,
  loads_store,
};

/// A server that ends with status 0 was given as many links as were asked for, where its door tells that,
/// and has written so; and it has written how many links a further door gave exactly where routers were to
/// be served.
#[tactic(auto, using(crate::proofs::Servers::all_served))]
pub fn servers_serve_all_links()
    ensures { (port workers n : ℕ) (routers : Option RtrPort) (before after : Outside) (door door' : DoorAt)
        → AllRuns (Some (Wait (Serve port workers n routers))) before after door door' 0
        → ServedAll (is_some routers) n before.output after.output door door' }
{}

/// A server over a store that can be loaded ends with status 0, was given as many links as were asked for,
/// and has written so, unless a call of the store, the output or the door fails, or memory runs out. What
/// the links were answered isn't said.
pub fn servers_are_complete()
    ensures { (port workers n status : ℕ) (routers : Option RtrPort) (before after : Outside)
        (door door' : DoorAt) → CanBeLoaded before.store → ¬ (Rose before.store.faults after.store.faults)
        → ¬ (Rose before.output.faults after.output.faults) → ¬ (Rose door.faults door'.faults)
        → AllRuns (Some (Wait (Serve port workers n routers))) before after door door' status
        → ServesAll (is_some routers) n before after door door' status }
{}

/// Status 7 comes only where the door's count of faults rose.
#[tactic(auto, using(crate::proofs::Servers::door_failed))]
pub fn door_faults_have_a_cause()
    ensures { (command : Option Command) (before after : Outside) (door door' : DoorAt)
        → AllRuns command before after door door' 7
        → Rose door.faults door'.faults }
{}

/// Damage is told of no store that has the rows of a state that requests lead to, or none; nor is such a
/// store told to be old.
#[tactic(auto, using(crate::proofs::Loaded::never_damaged, crate::proofs::Loaded::never_old))]
pub fn what_was_stored_is_loaded()
    ensures damaged { (command : Option Command) (before after : Outside) (door door' : DoorAt)
        → CanBeLoaded before.store → ¬ (AllRuns command before after door door' 6) }
    ensures old { (command : Option Command) (before after : Outside) (door door' : DoorAt)
        → CanBeLoaded before.store → ¬ (AllRuns command before after door door' 10) }
{}

/// Of a store that has the rows of a state that requests lead to, or none, `dump` writes the whole dump of
/// the registry, and `demo` writes all its lines: with status 0, unless a call of the store or the output
/// fails or memory runs out.
pub fn dumps_and_demos_are_complete()
    ensures dump { (s : State) (status : ℕ) (before after : Outside) (door door' : DoorAt)
        → IsStoredAs before.store s → ¬ (Rose before.store.faults after.store.faults)
        → ¬ (Rose before.output.faults after.output.faults)
        → AllRuns (Some Dump) before after door door' status → IsWhole (dump_of s) before after status }
    ensures demo { (n status : ℕ) (before after : Outside) (door door' : DoorAt)
        → ¬ (Rose before.output.faults after.output.faults)
        → AllRuns (Some (Demo n)) before after door door' status → IsWhole (demo_text n) before after status }
{}

/// A store of the first version of a state becomes today's store of it, and one that has the rows of a
/// state that requests lead to, or none, stays as it is; `upgrade` writes how many routers have new rows:
/// with status 0, unless a call of the store or the output fails or memory runs out.
pub fn upgrades_are_complete()
    ensures { (now : Table) (n status : ℕ) (before after : Outside) (door door' : DoorAt)
        → Becomes before.store now n → ¬ (Rose before.store.faults after.store.faults)
        → ¬ (Rose before.output.faults after.output.faults)
        → AllRuns (Some Upgrade) before after door door' status → IsWholeRaise now n before after status }
{}

/// Damage is told only of a store that has rows, but those of no state that requests lead to, and isn't
/// older; and the commands that load a store tell it of each such store, but that the keeper may fail or
/// memory run out. `upgrade` tells it of stores whose rows are those of a state in neither version, and of
/// each such. An older version is told only where the row of the version says so, and the commands that
/// load a store tell it there.
pub fn damaged_and_old_stores_are_told()
    ensures damaged { (command : Option Command) (before after : Outside) (door door' : DoorAt)
        → AllRuns command before after door door' 6 → WhereTold before.store.rows (IsDamagedFor command) }
    ensures old { (command : Option Command) (before after : Outside) (door door' : DoorAt)
        → AllRuns command before after door door' 10 → WhereTold before.store.rows IsOld }
    ensures damage_told { (command : Command) (rows : Table) (status : ℕ) (before after : Outside)
        (door door' : DoorAt) → loads_store command ≡ true → before.store.rows ≡ Some rows
        → IsDamaged rows → AllRuns (Some command) before after door door' status
        → IsStatusOr 6 before.store after.store (Some status) }
    ensures refusal_told { (rows : Table) (status : ℕ) (before after : Outside) (door door' : DoorAt)
        → before.store.rows ≡ Some rows → FitsNoVersion rows
        → AllRuns (Some Upgrade) before after door door' status
        → IsStatusOr 6 before.store after.store (Some status) }
    ensures version_told { (command : Command) (rows : Table) (status : ℕ) (before after : Outside)
        (door door' : DoorAt) → loads_store command ≡ true → before.store.rows ≡ Some rows
        → IsOld rows → AllRuns (Some command) before after door door' status
        → IsStatusOr 10 before.store after.store (Some status) }
{}
