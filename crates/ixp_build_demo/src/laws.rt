//! A law on edits, one after the other. The function does nothing: it is called for what it ensures.
ghost use Rattle.std.specs.Prelude.{◌≡◌, ℕ, List};
ghost use Rattle.ixp_registry.specs.declared.registry.Registry.{Registry};
ghost use Rattle.ixp_registry.specs.Valid.{Valid};
ghost use Rattle.ixp_machine_edits.specs.declared.edit.Edit.{Edit};
ghost use Rattle.ixp_machine_steps.specs.Runs.{after_all};
ghost use Rattle.ixp_build.specs.declared.bundle.Bundle.{Bundle};
ghost use Rattle.ixp_build.specs.Bundles.{IsOf, full_text, text_of, untouched};
ghost use Rattle.ixp_build.specs.Laws.{pending};
ghost use Rattle.ixp_build.specs.Orders.{installed, made_from, order_of};
ghost use Rattle.ixp_build_demo.specs.Edits.{AllAccepted, changes_of};

/// After any accepted edits, with what their changes touched ordered of the registry that they made, made and
/// installed, a bundle that was the registry's before them gives each router's text as full generation does
/// after them.
pub fn accepted_edits_build_fully()
    ensures { (b : Bundle) (r : Registry) (es : List Edit) (upto : ℕ) (h : List ℕ) → Valid r
        → AllAccepted r es → IsOf b r
        → text_of (installed b
        (made_from (order_of b.built upto (after_all r es) (pending untouched r (changes_of r es))))) h
        ≡ full_text (after_all r es) h }
{}
