//! Laws on edits. The functions do nothing: they are called for what they ensure.
ghost use Rattle.std.specs.Prelude.{◌≡◌, None};
ghost use Rattle.ixp_registry.specs.declared.registry.Registry.{Registry};
ghost use Rattle.ixp_registry.specs.Valid.{Valid};
ghost use Rattle.ixp_machine_edits.specs.declared.edit.Edit.{Edit};
ghost use Rattle.ixp_machine_edits.specs.Edits.{change, next, refusal, IsLawful};
ghost use Rattle.ixp_registry_change.specs.Changes.{with_change};

/// An edit of a valid registry that isn't refused leaves a valid registry, its limits and its weight
/// included.
pub fn edits_keep_validity()
    ensures { (r : Registry) (e : Edit) → Valid r → IsLawful e → refusal r e ≡ None → Valid (next r e) }
{}

/// The change of an edit makes of a registry what the edit does.
pub fn edits_are_changes()
    ensures { (r : Registry) (e : Edit) → with_change r (change r e) ≡ next r e }
{}
