//! What a change doesn't touch stays the same. The functions do nothing: they are called for what they
//! ensure.
ghost use Rattle.std.specs.Prelude.{◌≡◌, ℕ, false, List, [], ◌∷◌, Some};
ghost use Rattle.ixp_num_tables.specs.Tables.{find};
ghost use Rattle.ixp_registry.specs.declared.members.Member.{Member};
ghost use Rattle.ixp_registry.specs.declared.registry.Registry.{Registry};
ghost use Rattle.ixp_registry.specs.Keys.{member_key};
ghost use Rattle.ixp_registry.specs.Valid.{Valid};
ghost use Rattle.ixp_registry_change.specs.declared.change.RegistryChange.{RegistryChange};
ghost use Rattle.ixp_registry_change.specs.declared.change.RegistryChange.TheVariants.{Members};
ghost use Rattle.ixp_registry_change.specs.declared.change.TableChange.TheVariants.{Put};
ghost use Rattle.ixp_registry_change.specs.Changes.{with_change};
ghost use Rattle.ixp_compile_text.specs.Answers.{header_inputs_at, inputs_at};
ghost use Rattle.ixp_build_pending.specs.Pendings.{lists_header, lists_session, ListsOnce};
ghost use Rattle.ixp_build_touches.specs.Reaches.{peer};
ghost use Rattle.ixp_build_touches.specs.Touched.{reached, touch, with_after};

/// A header that isn't listed depends on the same before and after, so no router comes or goes unlisted.
pub fn untouched_headers_stay()
    ensures { (r : Registry) (c : RegistryChange) (h : List ℕ)
        → lists_header (touch r (with_change r c) c) h ≡ false
        → header_inputs_at r h ≡ header_inputs_at (with_change r c) h }
{}

/// A session's part that isn't listed depends on the same before and after, so no session comes or goes
/// unlisted.
pub fn untouched_sessions_stay()
    ensures { (r : Registry) (c : RegistryChange) (h : List ℕ) (n : ℕ) → Valid r
        → lists_session (touch r (with_change r c) c) h n ≡ false
        → inputs_at r h n ≡ inputs_at (with_change r c) h n }
{}

/// Where the ROAs aren't touched they are the same.
pub fn untouched_roas_stay()
    ensures { (r : Registry) (c : RegistryChange) → (touch r (with_change r c) c).roas ≡ false
        → r.public.roas ≡ (with_change r c).public.roas }
{}

/// No text is listed twice, so that as many are regenerated as are listed.
pub fn texts_are_listed_once()
    ensures { (r : Registry) (c : RegistryChange) → Valid r → ListsOnce (touch r (with_change r c) c) }
{}

/// What is reached before a change and after it are the texts that the change touches, and no others.
pub fn both_steps_list_what_is_touched()
    ensures headers { (r : Registry) (c : RegistryChange) (h : List ℕ)
        → lists_header (with_after (reached r c) (with_change r c)) h
        ≡ lists_header (touch r (with_change r c) c) h }
    ensures sessions { (r : Registry) (c : RegistryChange) (h : List ℕ) (n : ℕ) → Valid r
        → lists_session (with_after (reached r c) (with_change r c)) h n
        ≡ lists_session (touch r (with_change r c) c) h n }
    ensures roas { (r : Registry) (c : RegistryChange)
        → (with_after (reached r c) (with_change r c)).roas ≡ (touch r (with_change r c) c).roas }
{}

/// A member's row that is seen by routers as the one that it replaces touches no text, whatever its name and
/// its macro become.
pub fn alike_members_touch_nothing()
    ensures sessions { (r : Registry) (m : Member)
        → peer (find member_key (m.number ∷ []) r.members) ≡ peer (Some m)
        → (touch r (with_change r (Members (Put m))) (Members (Put m))).sessions ≡ [] }
    ensures headers { (r : Registry) (m : Member)
        → (touch r (with_change r (Members (Put m))) (Members (Put m))).headers ≡ [] }
{}
