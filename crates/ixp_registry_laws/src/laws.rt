//! The laws. The functions do nothing: each is called for what it ensures.
ghost use Rattle.std.specs.Prelude.{◌≡◌, None, flat_map};
ghost use Rattle.ixp_num_tables.specs.Sums.{total};
ghost use Rattle.ixp_registry.specs.declared.registry.Registry.{Registry};
ghost use Rattle.ixp_registry.specs.Registries.{rows_of, prefixes_of, breach};
ghost use Rattle.ixp_registry.specs.Rules.{list_weight};
ghost use Rattle.ixp_registry.specs.Valid.{Valid};
ghost use Rattle.ixp_registry.specs.Weight.{weight};
ghost use Rattle.ixp_registry_laws.specs.WellFormed.{IsWellFormed};

/// A registry that is well formed is valid exactly where its rows break no rule, and a valid one is well
/// formed.
pub fn valid_where_no_rule_is_broken()
    ensures valid { (r : Registry) → IsWellFormed r → breach (rows_of r) ≡ None → Valid r }
    ensures unbroken { (r : Registry) → Valid r → breach (rows_of r) ≡ None }
    ensures well_formed { (r : Registry) → Valid r → IsWellFormed r }
{}

/// The weight of a registry, by its sessions, is the sum of what each row of a prefix list weighs, as the
/// rule on rows counts it.
pub fn weights_are_one()
    ensures { (r : Registry) → IsWellFormed r
        → total (λ p. list_weight (rows_of r) p.member p.prefix.family) (flat_map prefixes_of r.irr)
        ≡ weight r.members r.interfaces r.routers r.irr }
{}
