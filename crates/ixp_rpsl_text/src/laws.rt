//! Laws of listings. The functions do nothing: each is called for what it ensures.
ghost use Rattle.std.specs.Prelude.{◌≡◌, ℕ, List, Ok};
ghost use Rattle.ixp_num.specs.declared.asn.Asn.{Asn};
ghost use Rattle.ixp_num.specs.declared.family.Family.{Family};
ghost use Rattle.ixp_num.specs.declared.prefix.Prefix.{Prefix};
ghost use Rattle.ixp_num_sorted.specs.Keys.{asn_key, prefix_key};
ghost use Rattle.ixp_irr.specs.Items.{IsAsnText, Says, SaysPrefixOf};
ghost use Rattle.ixp_irr.specs.Lists.{ListAnswer};
ghost use Rattle.ixp_rpsl.specs.Breadth.{ExpandAnswer};
ghost use Rattle.ixp_rpsl.specs.declared.objects.Objects.{Objects};
ghost use Rattle.ixp_rpsl.specs.declared.objects.Reach.{Reach};
ghost use Rattle.ixp_rpsl.specs.declared.objects.SetRow.{SetRow};
ghost use Rattle.ixp_rpsl_text.specs.Listings.{
  Expands,
  ExpandsNot,
  IsExpanded,
  OriginsAnswer,
  PrefixesAnswer,
};
ghost use Rattle.ixp_rpsl_text.specs.declared.fault.ExpandCause.{ExpandCause};
ghost use Rattle.ixp_rpsl_text.specs.declared.listing.Listing.{Listing};
ghost use Rattle.ixp_rpsl_text.specs.declared.listing.Listing.TheVariants.{Origins, Prefixes};

/// A set has one expansion: what `expand` ensures says of each set of it where it stands.
pub fn one_expansion()
    ensures { (rows : List SetRow) (root : List ℕ) (c d : List Reach) → ExpandAnswer rows root (Ok c)
        → ExpandAnswer rows root (Ok d) → c ≡ d }
{}

/// An input has one text of a listing, or none for a cause that lies in it, and never both.
pub fn one_text()
    ensures text { (input root : List ℕ) (family : Family) (listing : Listing) (x y : List ℕ)
        → Expands input root family listing x → Expands input root family listing y → x ≡ y }
    ensures cause { (input root : List ℕ) (family : Family) (listing : Listing) (x : List ℕ)
        (cause : ExpandCause) → Expands input root family listing x
        → ¬ (ExpandsNot input root family listing cause) }
{}

/// What is written of AS numbers and of prefixes is read by `read_origins` and `read_list` of `ixp_irr` as
/// the same lists.
pub fn listings_are_lists()
    ensures origins { (input root text : List ℕ) (family : Family) → Expands input root family Origins text
        → (o : Objects) × (c : List Reach) × (list : List Asn) × IsExpanded input root o c
        × OriginsAnswer o c (Ok list) × ListAnswer (Says IsAsnText) asn_key text (Ok list) }
    ensures prefixes { (input root text : List ℕ) (family : Family) → Expands input root family Prefixes text
        → (o : Objects) × (c : List Reach) × (origins : List Asn) × (list : List Prefix)
        × IsExpanded input root o c × OriginsAnswer o c (Ok origins)
        × PrefixesAnswer o family origins (Ok list)
        × ListAnswer (SaysPrefixOf family) prefix_key text (Ok list) }
{}
