//! The rows of a registry, gone through in the order of their names up to the first that is wrong.
ghost use Rattle.std.specs.Prelude.{
  ◌≡◌,
  ◌<◌,
  ◌^◌,
  ◌++◌,
  ◌∷◌,
  ◌↔◌,
  [],
  ℕ,
  suc,
  List,
  IfOk,
  IfErr,
  IfSome,
  IsTrue,
  Some,
  None,
  false,
  true,
  map,
  option_map,
  take,
  decimal,
};
ghost use Rattle.std.specs.declared.cmp.Ordering.TheVariants.{Less};
ghost use Rattle.ixp_io.specs.Tables.{row_entry};
ghost use Rattle.ixp_num.specs.AddressForms.{version_of};
ghost use Rattle.ixp_num.specs.declared.family.Family.{Family as Kin};
ghost use Rattle.ixp_num_tables.specs.Tables.{Ascends, order};
ghost use Rattle.ixp_rows_lines.specs.Lines.{place_of};
ghost use Rattle.ixp_store_rows.specs.Names.{Entry, version_row};
ghost use Rattle.ixp_store_damage.specs.Damages.{IsListRow};
ghost use Rattle.ixp_store_words.specs.Opening.{entry_name};
ghost use Rattle.ixp_store_damage.specs.Walking.{
  AreLines,
  IsRowFault,
  MayFollow,
  Reached,
  TellsFirst,
  is_listed,
  is_site,
};

use crate::decode::{damaged, front_line, is_row};
use ixp_io::{Row, RowName};
use ixp_num::{Asn, Family, Pattern, Roa};
use ixp_num_tables::Items;
use ixp_registry::{
    AddressRow, ApiKey, Contact, InterfaceRow, Member, MemberOrigin, MemberPrefix, MemberRule,
    Port, Router, Site, Switch, Vlan,
};
use ixp_rows_lines::Lined;
use ixp_store_rows::{Stored, list_name, place_of};
use ixp_store_words::{Damage, NoState, first_word, small_of};
use std::alloc::{AllocError, Global};
use std::cmp::Ordering;

/// Rows of a store, those that were not looked at yet.
pub type Left<'a> = &'a [Row];

/// Goes through the rows of a kind that stand first, and gives the rows behind them.
fn section<'a, R: Stored + Drop>(alloc: Global, rows: Left<'a>) -> Result<Left<'a>, NoState>
    requires plain { is_listed R.Lined.row_kind ≡ false }
    ensures reached { (es : List Entry)
        → Reached (place_of R.Lined.row_kind) (place_of R.Lined.row_kind) es (map row_entry rows.now)
        → IfOk result (λ rest. Reached (suc (place_of R.Lined.row_kind)) (suc (place_of R.Lined.row_kind)) es
        (map row_entry rest.now)) }
    ensures told { (es : List Entry)
        → Reached (place_of R.Lined.row_kind) (place_of R.Lined.row_kind) es (map row_entry rows.now)
        → IfErr result (TellsFirst es) }
{
    let mut left = rows;
    'rows: while let Some((row, others)) = left.split_first() {
        if row.name.kind != place_of(R::kind()) {
            return Ok(left);
        }
        if !is_row::<R>(alloc, row)? {
            return Err(damaged(alloc, &row.name));
        }
        left = others;
    }
    Ok(left)
}

/// Lines of a member's list of a family.
trait InList: Lined + Drop {
    /// Whether the line is of this member's list of the family.
    fn is_in(&self, member: u32, family: Family) -> bool
        ensures { IsTrue result ↔ take 2 (Self.Lined.key self.now) ≡ member ∷ version_of family ∷ [] };
}

impl InList for MemberPrefix {
    fn is_in(&self, member: u32, family: Family) -> bool {
        self.member == member && self.prefix.family == family
    }
}

impl InList for MemberOrigin {
    fn is_in(&self, member: u32, family: Family) -> bool {
        self.member == member && self.family == family
    }
}

/// Whether the text is lines of the list, which ascend.
fn are_lines<R: InList>(
    alloc: Global,
    text: &[u8],
    member: u32,
    family: Family,
) -> Result<bool, AllocError>
    ensures { IfOk result (λ are. IsTrue are ↔ AreLines R.Lined.row_kind member family None text.now) }
{
    let mut left = text;
    let mut last: Option<R> = None;
    'lines: while !left.is_empty() {
        let Some((line, behind)) = front_line::<R>(alloc, left)? else {
            return Ok(false);
        };
        if !may_follow(&last, &line, member, family) {
            return Ok(false);
        }
        last = Some(line);
        left = behind;
    }
    Ok(true)
}

fn is_above<R: Lined>(last: &Option<R>, line: &R) -> bool
    ensures { IsTrue result ↔ IfSome (option_map R.key last.now) (λ key. order key (R.key line.now) ≡ Less) }
{
    match last {
        Some(last) => last.order_lines(line) == Ordering::Less,
        None => true,
    }
}

/// Whether the line is one of the list, and above the line before it.
fn may_follow<R: InList>(last: &Option<R>, line: &R, member: u32, family: Family) -> bool
    ensures { IsTrue result
        ↔ MayFollow member family (option_map R.Lined.key last.now) (R.Lined.key line.now) }
{
    line.is_in(member, family) && is_above(last, line)
}

/// The family of an IP version, 4 or 6.
fn family_of(text: &[u8]) -> Option<Family>
    ensures { (family : Kin) → text.now ≡ decimal (version_of family) → result ≡ Some family }
{
    if text == b"4".as_slice() {
        Some(Family::V4)
    } else if text == b"6".as_slice() {
        Some(Family::V6)
    } else {
        None
    }
}

/// Which list a row's name says.
#[tactic(auto, using(ixp_store_words::proofs::WordTexts::small_unbroken))]
fn list_of(name: &RowName) -> Option<(u32, Family)>
    ensures { (member : ℕ) (family : Kin) → member < 2 ^ 32
        → name.now.key ≡ decimal member ++ 32 ∷ decimal (version_of family) → result ≡ Some (member, family) }
{
    let (member, family) = first_word(name.key.as_slice());
    let Some(member) = small_of(member) else {
        return None;
    };
    let Some(family) = family_of(family) else {
        return None;
    };
    Some((member, family))
}

/// Whether the row is a member's list of a family.
fn is_list<R: InList>(alloc: Global, row: &Row) -> Result<bool, AllocError>
    ensures { row.now.name.kind ≡ place_of R.Lined.row_kind
        → IfOk result (λ is. IsTrue is ↔ IsListRow R.Lined.row_kind (row_entry row.now)) }
{
    let Some((member, family)) = list_of(&row.name) else {
        return Ok(false);
    };
    let name = list_name(alloc, R::kind(), member, family)?;
    if name.key.as_slice() != row.name.key.as_slice() {
        return Ok(false);
    }
    if row.body.is_empty() {
        return Ok(false);
    }
    are_lines::<R>(alloc, row.body.as_slice(), member, family)
}

/// Goes through the lists of members that stand first, and gives the rows behind them.
fn lists<'a, R: InList>(alloc: Global, rows: Left<'a>) -> Result<Left<'a>, NoState>
    requires listed { is_listed R.Lined.row_kind ≡ true }
    ensures reached { (es : List Entry)
        → Reached (place_of R.Lined.row_kind) (place_of R.Lined.row_kind) es (map row_entry rows.now)
        → IfOk result (λ rest. Reached (suc (place_of R.Lined.row_kind)) (suc (place_of R.Lined.row_kind)) es
        (map row_entry rest.now)) }
    ensures told { (es : List Entry)
        → Reached (place_of R.Lined.row_kind) (place_of R.Lined.row_kind) es (map row_entry rows.now)
        → IfErr result (TellsFirst es) }
{
    let mut left = rows;
    'rows: while let Some((row, others)) = left.split_first() {
        if row.name.kind != place_of(R::kind()) {
            return Ok(left);
        }
        if !is_list::<R>(alloc, row)? {
            return Err(damaged(alloc, &row.name));
        }
        left = others;
    }
    Ok(left)
}

/// The number of the kind of the site's row.
const SITE: u8 = 1;

/// The fault of a row that isn't there, whose name is its kind alone.
pub fn missing(alloc: Global, kind: u8) -> NoState
    ensures { IsRowFault (record { kind = kind; key = [] }) result }
{
    NoState::Damaged {
        name: RowName {
            kind,
            key: Items::new(alloc),
        },
        damage: Damage::Row,
    }
}

fn is_site(row: &Row) -> bool
    ensures { result ≡ is_site row.now }
{
    row.name.kind == SITE && row.name.key.is_empty()
}

/// The site's row, which has to stand first behind that of the version.
fn site<'a>(alloc: Global, rows: Left<'a>) -> Result<Left<'a>, NoState>
    ensures reached { (es : List Entry) → es ≡ version_row ∷ map row_entry rows.now → Ascends entry_name es
        → IfOk result (λ rest. Reached 2 2 es (map row_entry rest.now)) }
    ensures told { (es : List Entry) → es ≡ version_row ∷ map row_entry rows.now → Ascends entry_name es
        → IfErr result (TellsFirst es) }
{
    let Some((row, others)) = rows.split_first() else {
        return Err(missing(alloc, SITE));
    };
    if row.name.kind < SITE {
        return Err(damaged(alloc, &row.name));
    }
    if !is_site(row) {
        return Err(missing(alloc, SITE));
    }
    if !is_row::<Site>(alloc, row)? {
        return Err(damaged(alloc, &row.name));
    }
    Ok(others)
}

fn people<'a>(alloc: Global, left: Left<'a>) -> Result<Left<'a>, NoState>
    ensures reached { (es : List Entry) → Reached 2 2 es (map row_entry left.now)
        → IfOk result (λ rest. Reached 5 5 es (map row_entry rest.now)) }
    ensures told { (es : List Entry) → Reached 2 2 es (map row_entry left.now)
        → IfErr result (TellsFirst es) }
{
    let left = section::<Member>(alloc, left)?;
    let left = section::<Contact>(alloc, left)?;
    section::<ApiKey>(alloc, left)
}

fn network<'a>(alloc: Global, left: Left<'a>) -> Result<Left<'a>, NoState>
    ensures reached { (es : List Entry) → Reached 5 5 es (map row_entry left.now)
        → IfOk result (λ rest. Reached 10 10 es (map row_entry rest.now)) }
    ensures told { (es : List Entry) → Reached 5 5 es (map row_entry left.now)
        → IfErr result (TellsFirst es) }
{
    let left = section::<Switch>(alloc, left)?;
    let left = section::<Port>(alloc, left)?;
    let left = section::<Vlan>(alloc, left)?;
    let left = section::<InterfaceRow>(alloc, left)?;
    section::<AddressRow>(alloc, left)
}

fn steering<'a>(alloc: Global, left: Left<'a>) -> Result<Left<'a>, NoState>
    ensures reached { (es : List Entry) → Reached 10 10 es (map row_entry left.now)
        → IfOk result (λ rest. Reached 14 14 es (map row_entry rest.now)) }
    ensures told { (es : List Entry) → Reached 10 10 es (map row_entry left.now)
        → IfErr result (TellsFirst es) }
{
    let left = section::<Router>(alloc, left)?;
    let left = lists::<MemberPrefix>(alloc, left)?;
    let left = lists::<MemberOrigin>(alloc, left)?;
    section::<MemberRule>(alloc, left)
}

fn public<'a>(alloc: Global, left: Left<'a>) -> Result<Left<'a>, NoState>
    ensures reached { (es : List Entry) → Reached 14 14 es (map row_entry left.now)
        → IfOk result (λ rest. Reached 18 18 es (map row_entry rest.now)) }
    ensures told { (es : List Entry) → Reached 14 14 es (map row_entry left.now)
        → IfErr result (TellsFirst es) }
{
    let left = section::<Pattern>(alloc, left)?;
    let left = section::<(Asn, Asn)>(alloc, left)?;
    let left = section::<Asn>(alloc, left)?;
    section::<Roa>(alloc, left)
}

/// Goes through the registry's rows, which stand behind that of the version, and gives the rows behind them.
pub fn registry_rows<'a>(alloc: Global, left: Left<'a>) -> Result<Left<'a>, NoState>
    ensures reached { (es : List Entry) → es ≡ version_row ∷ map row_entry left.now → Ascends entry_name es
        → IfOk result (λ rest. Reached 18 18 es (map row_entry rest.now)) }
    ensures told { (es : List Entry) → es ≡ version_row ∷ map row_entry left.now → Ascends entry_name es
        → IfErr result (TellsFirst es) }
{
    let left = site(alloc, left)?;
    let left = people(alloc, left)?;
    let left = network(alloc, left)?;
    let left = steering(alloc, left)?;
    public(alloc, left)
}
