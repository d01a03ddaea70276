//! What bundles are worth. The functions do nothing: they are called for what they ensure.
ghost use Rattle.std.specs.Prelude.{◌≡◌, ◌<◌, ℕ, List};
ghost use Rattle.ixp_registry.specs.declared.registry.Registry.{Registry};
ghost use Rattle.ixp_registry.specs.Valid.{Valid};
ghost use Rattle.ixp_registry_change.specs.declared.change.RegistryChange.{RegistryChange};
ghost use Rattle.ixp_registry_change.specs.Changes.{with_change};
ghost use Rattle.ixp_build_pending.specs.declared.touch.Touch.{Touch};
ghost use Rattle.ixp_build_pending.specs.Pendings.{IsLater, IsListed, IsNoted};
ghost use Rattle.ixp_build_touches.specs.Touched.{reached, touch, with_after};
ghost use Rattle.ixp_build.specs.declared.bundle.Bundle.{Bundle};
ghost use Rattle.ixp_build.specs.Bundles.{AgreesBut, IsOf, full_text, text_of, untouched};
ghost use Rattle.ixp_build_pending.specs.declared.pending.Pending.{Pending};
ghost use Rattle.ixp_build.specs.Laws.{after_changes, AlikeUpto, AllValid, Covers, joined, pending};
ghost use Rattle.ixp_build.specs.Orders.{HasBounds, installed, made_from, order_of};

/// The text of a bundle that is a registry's is that of full generation.
pub fn bundles_have_full_texts()
    ensures { (b : Bundle) (r : Registry) (h : List ℕ) → Valid r → IsOf b r → text_of b h ≡ full_text r h }
{}

/// After a change a bundle has what the registry wants but for what was pending and what the change touches.
pub fn edits_are_pending()
    ensures { (t : Touch) (b : Bundle) (r : Registry) (c : RegistryChange) → Valid r → AgreesBut t b r
        → AgreesBut (joined (touch r (with_change r c) c) t) b (with_change r c) }
{}

/// What may be listed otherwise, so long as nothing is left out.
pub fn listed_otherwise()
    ensures { (t u : Touch) (b : Bundle) (r : Registry) → Covers u t → AgreesBut t b r → AgreesBut u b r }
{}

/// With all that is pending ordered, made and installed, a bundle is the registry's.
pub fn installed_bundles_are_whole()
    ensures { (t : Touch) (b : Bundle) (r : Registry) (upto : ℕ) → AgreesBut t b r
        → IsOf (installed b (made_from (order_of b.built upto r t))) r }
{}

/// An order of a valid registry has the bounds that `make` asks for.
pub fn orders_have_bounds()
    ensures { (t : Touch) (from upto : ℕ) (r : Registry) → Valid r → HasBounds (order_of from upto r t) }
{}

/// After any changes that leave valid registries, with what they touched ordered of the registry that they
/// made, made and installed, a bundle that was the registry's before them gives each router's text as full
/// generation does after them.
pub fn incremental_builds_are_full()
    ensures { (b : Bundle) (r : Registry) (cs : List RegistryChange) (upto : ℕ) (h : List ℕ) → Valid r
        → AllValid r cs → IsOf b r
        → text_of (installed b
        (made_from (order_of b.built upto (after_changes r cs) (pending untouched r cs)))) h
        ≡ full_text (after_changes r cs) h }
{}

/// What no change after a count touched is wanted as it was: at first, since the registry is the same, and
/// then after each change with a greater count.
pub fn wanted_texts_stay()
    ensures first { (upto : ℕ) (p : Pending) (r : Registry) → AlikeUpto upto p r r }
    ensures next { (upto : ℕ) (p q : Pending) (was r : Registry) (c : RegistryChange) (k : ℕ) → Valid r
        → upto < k → AlikeUpto upto p was r
        → IsNoted k (with_after (reached r c) (with_change r c)) p q
        → AlikeUpto upto q was (with_change r c) }
{}

/// An order of all that was pending of an earlier registry may be installed after later changes: but for what
/// these touched, which is left pending, the bundle has what the present registry wants.
pub fn older_orders_may_be_installed()
    ensures { (b : Bundle) (p q : Pending) (was now : Registry) (t left : Touch) (upto : ℕ)
        → AgreesBut t b was → AlikeUpto upto p was now → IsLater upto p q → IsListed q left
        → AgreesBut left (installed b (made_from (order_of b.built upto was t))) now }
{}
