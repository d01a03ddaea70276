//! Members by reference (RFC 2622 section 5.1).
ghost use Rattle.std.specs.Prelude.{
  ◌≡◌,
  ◌++◌,
  ◌&&◌,
  ◌||◌,
  ◌∷◌,
  [],
  Some,
  IfOk,
  OnOk,
  ℕ,
  List,
  bytes_eq,
  if◌then◌else◌,
};
ghost use Rattle.std.specs.List.{list_any, slice_get};
ghost use Rattle.std.specs.Option.{is_some};
ghost use Rattle.std.specs.BTreeMap.{get_by};
ghost use Rattle.ixp_rpsl.specs.Expansion.{is_among};
ghost use Rattle.ixp_rpsl.specs.Lookups.{sought};
ghost use Rattle.ixp_rpsl_sources.specs.Counting as spec;
ghost use Rattle.ixp_rpsl_sources.specs.Told as told;

use crate::best::{Best, counts};
use crate::objects::Claim;
use ixp_num::{Items, Name};
use ixp_rpsl::Item;
use std::alloc::{AllocError, Global};
use std::collections::BTreeMap;

/// Takes the places under a name out.
fn taken(alloc: Global, index: &mut BTreeMap<Vec<u8>, Items<usize>>, name: &Name) -> Items<usize>
    ensures places { result ≡ told.places_at index.old name.now }
    ensures others { (q : List ℕ)
        → told.places_at index.new q ≡ (if bytes_eq name.now q then [] else told.places_at index.old q) }
{
    match index.remove(name.as_bytes()) {
        Some(places) => places,
        None => Items::new(alloc),
    }
}

/// Adds a place under a name.
fn put_place(
    alloc: Global,
    index: &mut BTreeMap<Vec<u8>, Items<usize>>,
    place: usize,
    name: &Name,
) -> Result<(), AllocError>
    ensures { OnOk result ((q : List ℕ) → told.places_at index.new q
        ≡ (if bytes_eq name.now q
        then told.places_at index.old q ++ place ∷ [] else told.places_at index.old q)) }
{
    let mut places = taken(alloc, index, name);
    places.push(place)?;
    let key = Vec::from_slice(alloc, name.as_bytes())?;
    index.insert(key, places)?;
    Ok(())
}

/// Adds a place under the names of sets.
#[tactic(auto, using(crate::proofs::Places::place_more))]
fn put_places(
    alloc: Global,
    index: &mut BTreeMap<Vec<u8>, Items<usize>>,
    place: usize,
    sets: &[Name],
) -> Result<(), AllocError>
    ensures { OnOk result ((q : List ℕ) → told.places_at index.new q
        ≡ told.places_at index.old q ++ told.place_times place sets.now q) }
{
    let mut left = sets;
    'sets: while let Some((set, others)) = left.split_first() {
        put_place(alloc, index, place, set)?;
        left = others;
    }
    Ok(())
}

/// The places of claims, by the names of the sets.
pub(crate) fn places_of(
    alloc: Global,
    claims: &[Claim],
) -> Result<BTreeMap<Vec<u8>, Items<usize>>, AllocError>
    ensures { IfOk result (λ index. (q : List ℕ) → told.places_at index q ≡ told.places_from 0 claims.now q) }
{
    let mut index = BTreeMap::new(alloc);
    let mut place = 0;
    let mut left = claims;
    'claims: while let Some((claim, others)) = left.split_first() {
        put_places(alloc, &mut index, place, claim.sets.as_slice())?;
        place += 1;
        left = others;
    }
    Ok(index)
}

/// Words that are listed.
fn words_of(alloc: Global, words: &[Items<u8>]) -> Result<BTreeMap<Vec<u8>, ()>, AllocError>
    ensures { IfOk result (λ marks. (q : List ℕ) → is_some (get_by (sought q) marks) ≡ is_among words.now q) }
{
    let mut marks = BTreeMap::new(alloc);
    let mut left = words;
    'words: while let Some((word, others)) = left.split_first() {
        let key = Vec::from_slice(alloc, word.as_slice())?;
        marks.insert(key, ())?;
        left = others;
    }
    Ok(marks)
}

/// Whether a word is listed.
fn has_word(words: &BTreeMap<Vec<u8>, ()>, word: &[u8]) -> bool
    ensures { result ≡ is_some (get_by (sought word.now) words.now) }
{
    words.contains_key(word)
}

/// Whether one of these maintainers is listed.
fn lists_one(words: &BTreeMap<Vec<u8>, ()>, maintainers: &[Items<u8>]) -> bool
    ensures { result ≡ list_any (λ m. is_some (get_by (sought m) words.now)) maintainers.now }
{
    maintainers.iter().any(|m| has_word(words, m.as_slice()))
}

/// Whether a set lists one of these maintainers, or any.
fn admits(words: &BTreeMap<Vec<u8>, ()>, maintainers: &[Items<u8>]) -> bool
    ensures { result ≡ told.admits_by words.now maintainers.now }
{
    has_word(words, b"ANY") || lists_one(words, maintainers)
}

/// Whether the object of a claim counts.
fn claimant_counts(index: &BTreeMap<Vec<u8>, Best>, claim: &Claim) -> bool
    ensures { result ≡ told.claimant_kept index.now claim.now claim.now.member }
{
    match &claim.member {
        Item::As(_) => true,
        Item::Set(name) => counts(index, name.as_bytes(), claim.line),
    }
}

/// An equal member.
pub(crate) fn copied(alloc: Global, item: &Item) -> Result<Item, AllocError>
    ensures { IfOk result (λ i. i ≡ item.now) }
{
    match item {
        Item::As(asn) => Ok(Item::As(*asn)),
        Item::Set(name) => {
            let name = name.copied(alloc)?;
            Ok(Item::Set(name))
        }
    }
}

/// Adds the member of a claim, if the claim counts and the set admits it.
fn put_member(
    alloc: Global,
    index: &BTreeMap<Vec<u8>, Best>,
    words: &BTreeMap<Vec<u8>, ()>,
    claim: &Claim,
    members: &mut Items<Item>,
) -> Result<(), AllocError>
    ensures { OnOk result (members.new
        ≡ members.old ++ told.claimed_one index.now words.now (Some claim.now)) }
{
    if claimant_counts(index, claim) && admits(words, claim.maintainers.as_slice()) {
        let member = copied(alloc, &claim.member)?;
        members.push(member)?;
    }
    Ok(())
}

/// Adds the member of the claim at a place, if the claim counts and the set admits it.
fn put_at(
    alloc: Global,
    index: &BTreeMap<Vec<u8>, Best>,
    words: &BTreeMap<Vec<u8>, ()>,
    claims: &[Claim],
    place: usize,
    members: &mut Items<Item>,
) -> Result<(), AllocError>
    ensures { OnOk result (members.new
        ≡ members.old ++ told.claimed_one index.now words.now (slice_get claims.now place)) }
{
    match claims.get(place) {
        Some(claim) => put_member(alloc, index, words, claim, members),
        None => Ok(()),
    }
}

/// Adds the members of the claims at these places.
fn put_members(
    alloc: Global,
    index: &BTreeMap<Vec<u8>, Best>,
    words: &BTreeMap<Vec<u8>, ()>,
    claims: &[Claim],
    places: &[usize],
    members: &mut Items<Item>,
) -> Result<(), AllocError>
    ensures { OnOk result (members.new
        ≡ members.old ++ told.claimed_at index.now words.now claims.now places.now) }
{
    let mut left = places;
    'places: while let Some((place, others)) = left.split_first() {
        put_at(alloc, index, words, claims, *place, members)?;
        left = others;
    }
    Ok(())
}

/// Adds the members by reference of a set of this name that lists these maintainers.
pub(crate) fn put_claimed(
    alloc: Global,
    index: &BTreeMap<Vec<u8>, Best>,
    places: &BTreeMap<Vec<u8>, Items<usize>>,
    claims: &[Claim],
    name: &Name,
    by_ref: &[Items<u8>],
    members: &mut Items<Item>,
) -> Result<(), AllocError>
    ensures { OnOk result (told.PutsClaimed index.now by_ref.now claims.now
        (told.places_at places.now name.now) members.old members.new) }
{
    let words = words_of(alloc, by_ref)?;
    match places.get(name.as_bytes()) {
        Some(places) => {
            put_members(alloc, index, &words, claims, places.as_slice(), members)?;
            Ok(())
        }
        None => Ok(()),
    }
}
