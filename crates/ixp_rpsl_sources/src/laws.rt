//! Laws of what counts. The functions do nothing: each is called for what it ensures.
ghost use Rattle.std.specs.Prelude.{◌≡◌, ◌++◌, ◌∷◌, ℕ, List};
ghost use Rattle.ixp_rpsl.specs.Lines.{Line};
ghost use Rattle.ixp_rpsl_sources.specs.Counting.{Reads, counted};
ghost use Rattle.ixp_rpsl_sources.specs.Said.{AllSay, Said};
ghost use Rattle.ixp_rpsl_sources.specs.Strangers.{SaysNothing};
ghost use Rattle.ixp_rpsl_sources.specs.declared.counting.Counted.{Counted};

/// A text has one reading: what `read_counted` ensures says exactly what counts, and which lines are those at
/// which something is passed by.
pub fn one_reading()
    ensures { (sources : List (List ℕ)) (t : List ℕ) (x y : Counted) → Reads sources t x → Reads sources t y
        → x ≡ y }
{}

/// An object that is passed by, or is of a source that isn't listed, changes nothing of what counts, so no
/// listing of any set: as if it weren't there.
pub fn strangers_change_nothing()
    ensures { (sources : List (List ℕ)) (before after : List (Line × List Line)) (o : Line × List Line)
        (x y : Said) → SaysNothing sources o → AllSay sources (before ++ o ∷ after) x
        → AllSay sources (before ++ after) y → counted sources x ≡ counted sources y }
{}
