//! What the address plan has to do with the rules on a registry's rows.
ghost use Rattle.std.specs.Prelude.{◌≡◌, ℕ, [], ◌∷◌, true, Some, Ok};
ghost use Rattle.std.specs.Option.{is_some};
ghost use Rattle.ixp_num.specs.declared.family.Family.{Family};
ghost use Rattle.ixp_num.specs.declared.addr.Addr.{Addr};
ghost use Rattle.ixp_num_tables.specs.Tables.{find};
ghost use Rattle.ixp_registry.specs.declared.network.IfAddr.{IfAddr};
ghost use Rattle.ixp_registry.specs.declared.network.Interface.{Interface};
ghost use Rattle.ixp_registry.specs.declared.registry.Registry.{Registry};
ghost use Rattle.ixp_registry.specs.Keys.{interface_key};
ghost use Rattle.ixp_registry.specs.Valid.{Valid};
ghost use Rattle.ixp_plan.specs.Free.{IsFree};
ghost use Rattle.ixp_plan.specs.Checks.{address_check};
ghost use Rattle.ixp_plan.specs.Setting.{with_address, KeepsAddressRules};

/// An address that is accepted keeps the rules: where the registry is valid, it is a host of its VLAN once it
/// is the interface's, nobody else has it, and it is no router's blackhole.
pub fn accepted_addresses_keep_the_rules()
    ensures { (r : Registry) (n : ℕ) (f : Family) (x : IfAddr) → Valid r → address_check r n f x.addr ≡ Ok tt
        → KeepsAddressRules (with_address r n f x) }
{}

/// An address with which the rules are kept is accepted: where the interface is there and the address is of
/// the family, and it is a host of its VLAN once it is the interface's, nobody else has it, and it is no
/// router's blackhole.
pub fn addresses_that_keep_the_rules_are_accepted()
    ensures { (r : Registry) (n : ℕ) (f : Family) (x : IfAddr) → Valid r
        → is_some (find interface_key (n ∷ []) r.interfaces) ≡ true → x.addr.family ≡ f
        → KeepsAddressRules (with_address r n f x) → address_check r n f x.addr ≡ Ok tt }
{}

/// A free address of a VLAN is accepted for each interface there.
pub fn free_addresses_are_accepted()
    ensures { (r : Registry) (n : ℕ) (i : Interface) (f : Family) (a : Addr)
        → find interface_key (n ∷ []) r.interfaces ≡ Some i → IsFree r i.vlan f a → a.family ≡ f
        → address_check r n f a ≡ Ok tt }
{}
