//! Laws of lists. The functions do nothing: each is called for what it ensures.
ghost use Rattle.std.specs.Prelude.{◌≡◌, ◌≢◌, ℕ, List, Result, Err};
ghost use Rattle.ixp_num.specs.declared.asn.Asn.{Asn};
ghost use Rattle.ixp_num.specs.declared.family.Family.{Family};
ghost use Rattle.ixp_num.specs.declared.pattern.Pattern.{Pattern};
ghost use Rattle.ixp_num.specs.declared.prefix.Prefix.{Prefix};
ghost use Rattle.ixp_num_sorted.specs.Keys.{prefix_key, pattern_key, asn_key, range_key};
ghost use Rattle.ixp_irr.specs.Items.{IsPatternText, IsAsnText, IsRangeText, Says, SaysPrefixOf};
ghost use Rattle.ixp_irr.specs.Lists.{ListAnswer};
ghost use Rattle.ixp_irr.specs.declared.fault.ListFault.{ListFault};
ghost use Rattle.ixp_irr.specs.declared.fault.ListFault.TheVariants.{NoMemory};

/// No text has two answers as a list of one kind, but that memory may run out: what the readers ensure says
/// exactly when each other answer comes.
pub fn one_answer()
    ensures prefixes { (family : Family) (t : List ℕ) (x y : Result (List Prefix) ListFault)
        → x ≢ Err NoMemory → y ≢ Err NoMemory → ListAnswer (SaysPrefixOf family) prefix_key t x
        → ListAnswer (SaysPrefixOf family) prefix_key t y → x ≡ y }
    ensures asns { (t : List ℕ) (x y : Result (List Asn) ListFault) → x ≢ Err NoMemory → y ≢ Err NoMemory
        → ListAnswer (Says IsAsnText) asn_key t x → ListAnswer (Says IsAsnText) asn_key t y → x ≡ y }
    ensures patterns { (t : List ℕ) (x y : Result (List Pattern) ListFault) → x ≢ Err NoMemory
        → y ≢ Err NoMemory → ListAnswer (Says IsPatternText) pattern_key t x
        → ListAnswer (Says IsPatternText) pattern_key t y → x ≡ y }
    ensures ranges { (t : List ℕ) (x y : Result (List (Asn × Asn)) ListFault) → x ≢ Err NoMemory
        → y ≢ Err NoMemory → ListAnswer (Says IsRangeText) range_key t x
        → ListAnswer (Says IsRangeText) range_key t y → x ≡ y }
{}
