//! Laws of runs. The functions do nothing: each is called for what it ensures.
ghost use Rattle.std.specs.Prelude.{◌≡◌, ◌⊎◌, ◌<◌, ◌≤◌, true, ℕ, List, Option, Some, Ok, Err, length};
ghost use Rattle.ixp_num.specs.declared.cause.Cause.{Cause};
ghost use Rattle.std.specs.FinMap.{empty};
ghost use Rattle.ixp_io.specs.Tables.{Table};
ghost use Rattle.ixp_io.specs.Told.{Told, WhereTold};
ghost use Rattle.ixp_ixf.specs.Views.{ixf_text_of};
ghost use Rattle.ixp_registry.specs.declared.registry.Registry.{Registry};
ghost use Rattle.ixp_rpsl_text.specs.declared.fault.ExpandCause.{ExpandCause};
ghost use Rattle.ixp_cli_plain.specs.declared.command.Command.{Command};
ghost use Rattle.ixp_cli_plain.specs.declared.command.Command.TheVariants.{Ask, Demo, Dump, Ixf, Restore, Upgrade};
ghost use Rattle.ixp_cli_plain.specs.declared.command.Question.{Question};
ghost use Rattle.ixp_cli_plain.specs.declared.end.End.{End};
ghost use Rattle.ixp_machine_steps.specs.declared.state.State.{State};
ghost use Rattle.ixp_cli_plain.specs.Demos.{demo_text};
ghost use Rattle.ixp_store_upgrade.specs.Upgrades.{FitsNoVersion};
ghost use Rattle.ixp_cli_plain.specs.Dumps.{IsDamaged, IsDumped, IsOld, IsStatusOr, IsStoredAs};
ghost use Rattle.ixp_cli_plain.specs.Upgraded.{Becomes, IsDamagedFor, IsRaised};
ghost use Rattle.ixp_cli_plain.specs.Evals.{Evaluates};
ghost use Rattle.ixp_cli_plain.specs.Restores.{IsDumpOf};
ghost use Rattle.ixp_cli_plain.specs.Runs.{
  Answers,
  AsksInVain,
  CanBeLoaded,
  HasBadObjects,
  IsAnswered,
  IsLongEnd,
  IsRestored,
  IsTold,
  Outside,
  Runs,
  input_limit,
  reads_whole,
};

/// An input of `eval` has one output.
pub fn one_output()
    ensures { (input x y : List ℕ) → Evaluates input x → Evaluates input y → x ≡ y }
{}

/// An input that is longer than the limit is refused as U5 by every command that reads it whole, but that a
/// read may fail or memory run out.
pub fn long_inputs_are_refused()
    ensures { (command : Command) (before after : Outside) (status : Option ℕ) (left : List ℕ)
        → reads_whole command ≡ true → before.input.bytes ≡ Some left →
        input_limit < length left → Runs (Some command) before after status →
        (end : End) × IsLongEnd end × IsTold end before.errors after.errors status }
{}

/// An input of a question has one answer: one output, or one refusal of it, or one router that isn't there,
/// or a cause that lies in whois data.
/// So an input that a question answers is answered, but that a read or a write may fail or memory run out.
pub fn inputs_are_answered()
    ensures output { (question : Question) (input x y : List ℕ) → Answers question input (Ok x)
        → Answers question input (Ok y) → x ≡ y }
    ensures refusal { (question : Question) (input x : List ℕ) (cause : Cause) → Answers question input (Ok x)
        → ¬ (Answers question input (Err cause)) }
    ensures away { (question : Question) (input x router : List ℕ) → Answers question input (Ok x)
        → ¬ (AsksInVain question input router) }
    ensures objects { (question : Question) (input x : List ℕ) (cause : ExpandCause)
        → Answers question input (Ok x) → ¬ (HasBadObjects question input cause) }
    ensures run { (question : Question) (before after : Outside) (status : Option ℕ) (input output : List ℕ)
        → before.input.bytes ≡ Some input →
        length input ≤ input_limit → Answers question input (Ok output)
        → Runs (Some (Ask question)) before after status →
        (end : End) × IsAnswered output before.input after.input before.output after.output end
        × IsTold end before.errors after.errors status }
{}

/// The member export of a registry whose dump is read is written, at a second that the clock gave, but that a
/// read or a write may fail or memory run out.
pub fn dumps_are_exported()
    ensures { (r : Registry) (before after : Outside) (status : Option ℕ) (input : List ℕ)
        → before.input.bytes ≡ Some input →
        length input ≤ input_limit → IsDumpOf input r → Runs (Some Ixf) before after status →
        (end : End) × (second : ℕ) × Told before.second after.second (λ earlier last. last ≡ second)
        × IsAnswered (ixf_text_of r second) before.input after.input before.output after.output end
        × IsTold end before.errors after.errors status }
{}

/// A registry's dump is restored into a keeper that tells that it has no row, but that a read, a write or the
/// keeper may fail or memory run out.
pub fn dumps_are_restored()
    ensures { (r : Registry) (before after : Outside) (status : Option ℕ) (input : List ℕ)
        → before.input.bytes ≡ Some input →
        length input ≤ input_limit → IsDumpOf input r → before.store.rows ≡ Some empty
        → Runs (Some Restore) before after status →
        (end : End) × IsRestored r before after end × IsTold end before.errors after.errors status }
{}

/// The registry of a store is dumped that has the rows of a state that requests lead to, or none, but that a
/// write or the keeper may fail or memory run out.
pub fn stores_are_dumped()
    ensures { (s : State) (before after : Outside) (status : Option ℕ) → IsStoredAs before.store s
        → Runs (Some Dump) before after status →
        (end : End) × IsDumped s before after end × IsTold end before.errors after.errors status }
{}

/// A store of the first version of a state becomes today's store of it, and one that has the rows of a state
/// that requests lead to, or none, stays as it is, but that a write or the keeper may fail or memory run out.
pub fn stores_are_upgraded()
    ensures { (now : Table) (n : ℕ) (before after : Outside) (status : Option ℕ) → Becomes before.store now n
        → Runs (Some Upgrade) before after status →
        (end : End) × IsRaised now n before after end × IsTold end before.errors after.errors status }
{}

/// Of a demo exchange all lines are written, but that a write may fail or memory run out.
pub fn demos_are_written()
    ensures { (n : ℕ) (before after : Outside) (status : Option ℕ)
        → Runs (Some (Demo n)) before after status →
        (end : End) × IsAnswered (demo_text n) before.input after.input before.output after.output end
        × IsTold end before.errors after.errors status }
{}

/// Damage is told only of a store that has rows, but those of no state that requests lead to, and isn't
/// older; and `dump` tells it of each such store, but that the keeper may fail or memory run out. `upgrade`
/// tells it of stores whose rows are those of a state in neither version, and of each such. An older
/// version is told only where the row of the version says so, and `dump` tells it there.
pub fn damaged_and_old_stores_are_told()
    ensures damaged { (command : Option Command) (before after : Outside)
        → Runs command before after (Some 6) → WhereTold before.store.rows (IsDamagedFor command) }
    ensures old { (command : Option Command) (before after : Outside)
        → Runs command before after (Some 10) → WhereTold before.store.rows IsOld }
    ensures damage_told { (rows : Table) (before after : Outside) (status : Option ℕ)
        → before.store.rows ≡ Some rows → IsDamaged rows → Runs (Some Dump) before after status
        → IsStatusOr 6 before.store after.store status }
    ensures refusal_told { (rows : Table) (before after : Outside) (status : Option ℕ)
        → before.store.rows ≡ Some rows → FitsNoVersion rows → Runs (Some Upgrade) before after status
        → IsStatusOr 6 before.store after.store status }
    ensures version_told { (rows : Table) (before after : Outside) (status : Option ℕ)
        → before.store.rows ≡ Some rows → IsOld rows → Runs (Some Dump) before after status
        → IsStatusOr 10 before.store after.store status }
{}

/// Damage is told of no store that has the rows of a state that requests lead to, or none; nor is such a
/// store told to be old.
#[tactic(auto, using(crate::proofs::Loadable::never_damaged, crate::proofs::Loadable::never_old))]
pub fn what_was_stored_is_loaded()
    ensures damaged { (command : Option Command) (before after : Outside) (status : Option ℕ)
        → CanBeLoaded before.store → Runs command before after status → ¬ (status ≡ Some 6) }
    ensures old { (command : Option Command) (before after : Outside) (status : Option ℕ)
        → CanBeLoaded before.store → Runs command before after status → ¬ (status ≡ Some 10) }
{}
