//! Laws of dumps. The functions do nothing: each is called for what it ensures.
ghost use Rattle.std.specs.Prelude.{◌≡◌, ◌≢◌, ℕ, List, Result, Ok, Err};
ghost use Rattle.std.specs.List.{AllByRecursion};
ghost use Rattle.ixp_registry.specs.declared.registry.Registry.{Registry};
ghost use Rattle.ixp_registry.specs.declared.rows.Rows.{Rows};
ghost use Rattle.ixp_registry.specs.Registries.{rows_of};
ghost use Rattle.ixp_registry.specs.Valid.{Valid};
ghost use Rattle.ixp_rows.specs.Dumps.{RegistryAnswer};
ghost use Rattle.ixp_rows_lines.specs.declared.version.Version.{Version};
ghost use Rattle.ixp_rows_lines.specs.declared.version.Version.TheVariants.{Two};
ghost use Rattle.ixp_rows_lines.specs.Lines.{IsLine, IsOfVersion};
ghost use Rattle.ixp_rows.specs.declared.fault.DumpFault.{DumpFault};
ghost use Rattle.ixp_rows.specs.declared.fault.DumpFault.TheVariants.{NoMemory};
ghost use Rattle.ixp_rows.specs.Answers.{row_lines, AllAscend, DumpAnswer};
ghost use Rattle.ixp_rows.specs.Groups.{row_fields};
ghost use Rattle.ixp_rows.specs.Reading.{dump_at};
ghost use Rattle.ixp_rows.specs.Texts.{dump_text};

/// No text has two answers, but that memory may run out: what the reader ensures says exactly when each other
/// answer comes.
pub fn one_answer()
    ensures { (version : Version) (t : List ℕ) (x y : Result Rows DumpFault) → x ≢ Err NoMemory
        → y ≢ Err NoMemory → DumpAnswer version t x → DumpAnswer version t y → x ≡ y }
{}

/// The text of rows that ascend, each with a line of the format, is read as these rows, where they have
/// nothing that the version doesn't tell; and in any case as their fields.
pub fn printed_is_read()
    ensures answer { (version : Version) (w : Rows) → AllAscend w
        → AllByRecursion (IsLine version) (row_lines version w)
        → AllByRecursion (IsOfVersion version) w.routers → DumpAnswer version (dump_text version w) (Ok w) }
    ensures reads { (version : Version) (w : Rows) → AllAscend w
        → AllByRecursion (IsLine version) (row_lines version w)
        → dump_at version (dump_text version w) ≡ Ok (row_fields version w) }
{}

/// A text is the dump of one valid registry at most, or has one fault, but that memory may run out: what the
/// readers of registries ensure says exactly when each other answer comes. And two valid registries of the
/// same rows are one.
pub fn one_registry()
    ensures answer { (version : Version) (t : List ℕ) (x y : Result Registry DumpFault) → x ≢ Err NoMemory
        → y ≢ Err NoMemory → RegistryAnswer version t x → RegistryAnswer version t y → x ≡ y }
    ensures rows { (r s : Registry) → Valid r → Valid s → rows_of r ≡ rows_of s → r ≡ s }
{}

/// What `print_dump` prints of a valid registry is read again as this registry.
pub fn dumps_of_valid_registries_are_read()
    ensures { (r : Registry) → Valid r → RegistryAnswer Two (dump_text Two (rows_of r)) (Ok r) }
{}
