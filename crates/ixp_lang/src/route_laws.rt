//! Laws of route texts and of steering. The functions do nothing: each is called for what it ensures.
ghost use Rattle.std.specs.Prelude.{
  ◌≡◌,
  ◌≢◌,
  ◌⊎◌,
  ◌-◌,
  ℕ,
  List,
  [],
  ◌∷◌,
  length,
  Some,
  Result,
  Ok,
  Err,
  true,
  false,
};
ghost use Rattle.std.specs.List.{slice_get};
ghost use Rattle.ixp_num.specs.Forms.{StopsAt};
ghost use Rattle.ixp_lang.specs.declared.route.Route.{Route};
ghost use Rattle.ixp_lang.specs.declared.reading.fault.RouteFault.{RouteFault};
ghost use Rattle.ixp_lang.specs.declared.reading.fault.RouteFault.TheVariants.{NoMemory};
ghost use Rattle.ixp_lang.specs.Texts.{route_text};
ghost use Rattle.ixp_lang.specs.declared.reading.fault.Stop.TheVariants.{Text, Set, TooLong};
ghost use Rattle.ixp_lang.specs.RouteReading.{
  ◌then◌,
  bits_in,
  halt_place,
  list_at,
  after_blank,
  at_end,
  path_at,
  asn_item,
  pair_item,
  triple_item,
};
ghost use Rattle.ixp_lang.specs.RouteTexts.{
  IsBounded,
  IsAsnText,
  IsPairText,
  IsTripleText,
  AsnFits,
  PairFits,
  TripleFits,
  BeginsList,
  IsBoundedList,
  IsFieldText,
  IsLongList,
  HaltsAt,
  NumberAbove,
};
ghost use Rattle.ixp_lang.specs.Steering.{sends, prepends};
ghost use Rattle.ixp_lang.specs.Samples.{route_with};
ghost use Rattle.ixp_lang.specs.RouteAnswers.{RouteAnswer, IsOfOneFamily};

/// No text has two answers: what `read_route` ensures says exactly when each answer comes.
pub fn one_route_answer()
    ensures { (t : List ℕ) (x y : Result Route RouteFault) → x ≢ Err NoMemory → y ≢ Err NoMemory
        → RouteAnswer t x → RouteAnswer t y → x ≡ y }
{}

/// What `print_route` writes of a route within the bounds is read again as that route.
pub fn printed_route_is_read()
    ensures { (r : Route) → IsBounded r → IsOfOneFamily r → RouteAnswer (route_text r) (Ok r) }
{}

/// Steering, on small routes of the server 65500: a line for the peer decides before one for all, a prepend
/// for the peer before one for all, and communities of two parts have no say where a number doesn't fit them.
pub fn the_first_line_decides()
    ensures nothing_asked { (sends 65500 (route_with [] []) 65001 ≡ true)
        × (prepends 65500 (route_with [] []) 65001 ≡ 0) }
    ensures peer_before_all { sends 65500
        (route_with ((0, 65500) ∷ []) ((65500, 0, 0) ∷ (65500, 1, 65001) ∷ [])) 65001 ≡ true }
    ensures never_before_always { sends 65500
        (route_with [] ((65500, 1, 65001) ∷ (65500, 0, 65001) ∷ [])) 65001 ≡ false }
    ensures pairs { sends 65500 (route_with ((0, 65500) ∷ (65500, 65001) ∷ []) []) 65001 ≡ true }
    ensures wide { sends 4200000000 (route_with ((0, 65001) ∷ []) []) 65001 ≡ true }
    ensures prepends_for_all { prepends 65500 (route_with [] ((65500, 101, 0) ∷ (65500, 102, 0) ∷ [])) 65001
        ≡ 2 }
    ensures prepends_for_peer { prepends 65500
        (route_with [] ((65500, 103, 0) ∷ (65500, 101, 65001) ∷ [])) 65001 ≡ 1 }
    ensures prepends_not { prepends 65500 (route_with [] ((65500, 103, 0) ∷ (65500, 1, 65001) ∷ [])) 65001
        ≡ 0 }
{}

/// A net or next hop that no address goes on with at a byte is refused there, or at a number before that no
/// address has, whatever follows it: one above 255 beside a dot, or a length above the bits of the address.
/// `bytes` are those before the byte.
pub fn addresses_halt_at_their_faults()
    ensures { (bytes : List ℕ) (at : ℕ) → (halt_place bytes at ≡ at)
        ⊎ NumberAbove (bits_in bytes) bytes (halt_place bytes at) }
{}

/// Where a list's text can't go on, what stands before is the beginning of a list.
pub fn lists_go_on_before_their_faults()
    ensures path { (t : List ℕ) (left : ℕ) → list_at asn_item t ≡ Err (Text left)
        → BeginsList IsAsnText AsnFits t left }
    ensures pairs { (t : List ℕ) (left : ℕ) → list_at pair_item t ≡ Err (Text left)
        → BeginsList IsPairText PairFits t left }
    ensures triples { (t : List ℕ) (left : ℕ) → list_at triple_item t ≡ Err (Text left)
        → BeginsList IsTripleText TripleFits t left }
{}

/// Where a list's text can't go on is the first byte with which no list goes on, or the end of a list that
/// isn't complete; a number above its bound is told at its first byte, and no list goes on with it.
pub fn lists_halt_at_their_faults()
    ensures path { (t : List ℕ) (left : ℕ) → list_at asn_item t ≡ Err (Text left)
        → HaltsAt (IsBoundedList IsAsnText AsnFits) 4294967295 t (length t - left) }
    ensures pairs { (t : List ℕ) (left : ℕ) → list_at pair_item t ≡ Err (Text left)
        → HaltsAt (IsBoundedList IsPairText PairFits) 65535 t (length t - left) }
    ensures triples { (t : List ℕ) (left : ℕ) → list_at triple_item t ≡ Err (Text left)
        → HaltsAt (IsBoundedList IsTripleText TripleFits) 4294967295 t (length t - left) }
{}

/// The same of a list and the blank behind it, or the end behind the last one.
pub fn fields_halt_at_their_faults()
    ensures path { (t : List ℕ) (left : ℕ) → (list_at asn_item t then λ p. after_blank p.1) ≡ Err (Text left)
        → HaltsAt (IsFieldText (IsBoundedList IsAsnText AsnFits)) 4294967295 t (length t - left) }
    ensures pairs { (t : List ℕ) (left : ℕ)
        → (list_at pair_item t then λ p. after_blank p.1) ≡ Err (Text left)
        → HaltsAt (IsFieldText (IsBoundedList IsPairText PairFits)) 65535 t (length t - left) }
    ensures triples { (t : List ℕ) (left : ℕ) → (list_at triple_item t then λ p. at_end p.1) ≡ Err (Text left)
        → HaltsAt (IsBoundedList IsTripleText TripleFits) 4294967295 t (length t - left) }
{}

/// A path that halts at `{` has a set there, which is the first byte that can't stand; at any other byte it
/// has none.
pub fn paths_halt_at_their_sets()
    ensures set { (t : List ℕ) (left : ℕ) → path_at t ≡ Err (Set left)
        → StopsAt (IsFieldText (IsBoundedList IsAsnText AsnFits)) t (length t - left)
        × (slice_get t (length t - left) ≡ Some 123) }
    ensures text { (t : List ℕ) (left : ℕ) → path_at t ≡ Err (Text left)
        → HaltsAt (IsFieldText (IsBoundedList IsAsnText AsnFits)) 4294967295 t (length t - left)
        × (slice_get t (length t - left) ≢ Some 123) }
{}

/// A list is too long where one more item begins behind 1,000 items.
pub fn long_lists_have_a_thousand_items_before()
    ensures path { (t : List ℕ) (left : ℕ) → list_at asn_item t ≡ Err (TooLong left)
        → IsLongList IsAsnText AsnFits t left }
    ensures pairs { (t : List ℕ) (left : ℕ) → list_at pair_item t ≡ Err (TooLong left)
        → IsLongList IsPairText PairFits t left }
    ensures triples { (t : List ℕ) (left : ℕ) → list_at triple_item t ≡ Err (TooLong left)
        → IsLongList IsTripleText TripleFits t left }
{}
