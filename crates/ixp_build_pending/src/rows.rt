//! Texts that were touched, each with a count.
ghost use Rattle.std.specs.Prelude.{
  ◌≡◌,
  ◌≢◌,
  true,
  [],
  IfOk,
  OnOk,
  OnErr,
  MatchBool,
  filter,
  filter_map,
};
ghost use Rattle.std.specs.List.{AllByRecursion};
ghost use Rattle.ixp_num_tables.specs.Tables.{Ascends};
ghost use Rattle.ixp_build_pending.specs.Names.{row_key};
ghost use Rattle.ixp_build_pending.specs.Rows.{
  HasRow,
  HasText,
  all_put,
  header_in,
  is_later,
  is_pending,
  part_in,
};
ghost use Rattle.ixp_build_pending.specs.declared.name.TextName.{TextName};

use crate::name::TextName;
use ixp_num::{Items, Name};
use ixp_num_tables::{Row, Table};
use std::alloc::{AllocError, Global};
use std::cmp::Ordering;
use std::marker::Model;
use std::mem;

/// A text that was touched.
#[derive(Debug, Drop)]
pub struct PendingText {
    pub text: TextName,
    /// The count of the last edit that touched it.
    pub count: u64,
}

impl Row for PendingText {
    ghost use Rattle.ixp_build_pending.specs.Names.{row_key, text_key};

    type Key = TextName;

    ghost key_of = { row_key };

    ghost named = { text_key };

    fn compare(&self, key: &TextName) -> Ordering {
        self.text.order(key)
    }

    fn order(&self, other: &PendingText) -> Ordering {
        self.text.order(&other.text)
    }
}

/// Texts that were touched, each once. Contracts see those whose count isn't 0: a row with the count 0 is
/// room for one that comes.
#[derive(Drop)]
pub struct PendingTexts {
    rows: Table<PendingText>,
}

impl Model for PendingTexts {
    ghost use Rattle.std.specs.Prelude.{List, filter};
    ghost use Rattle.std.specs.Coded.{coded_list};
    ghost use Rattle.ixp_build_pending.specs.declared.rows.PendingText.{PendingText};
    ghost use Rattle.ixp_build_pending.specs.Rows.{is_pending};

    ghost Value = { List PendingText };

    ghost view = { λ p. filter is_pending p.rows };
}

/// Makes room for a text, with the count 0 where it has none. What is pending stays, whatever the result.
#[tactic(auto, using(crate::proofs::Room::room_made))]
fn make_room_for(
    alloc: Global,
    rows: &mut Table<PendingText>,
    text: &TextName,
) -> Result<(), AllocError>
    ensures same { filter is_pending rows.new ≡ filter is_pending rows.old }
    ensures room { OnOk result (HasText rows.new text.now) }
    ensures others { (t : TextName) → HasText rows.old t → HasText rows.new t }
{
    if rows.find(text).is_some() {
        return Ok(());
    }
    let text = text.copied(alloc)?;
    rows.put(PendingText { text, count: 0 })?;
    Ok(())
}

/// Makes room for these rows. What is pending stays, whatever the result.
fn make_room(
    alloc: Global,
    rows: &mut Table<PendingText>,
    fresh: &[PendingText],
) -> Result<(), AllocError>
    ensures same { filter is_pending rows.new ≡ filter is_pending rows.old }
    ensures room { OnOk result (AllByRecursion (HasRow rows.new) fresh.now) }
{
    let mut left = fresh;
    'each: while let Some((row, others)) = left.split_first() {
        make_room_for(alloc, rows, &row.text)?;
        left = others;
    }
    Ok(())
}

/// Puts rows in the places that there are for them.
fn fill(rows: &mut Table<PendingText>, fresh: Vec<PendingText>)
    requires { AllByRecursion (HasRow rows.old) fresh.items }
    ensures { rows.new ≡ all_put fresh.items rows.old }
{
    let mut left = fresh.into_iter();
    'each: while let Some(row) = left.next() {
        rows.replace(row);
    }
}

impl PendingTexts {
    /// No text.
    pub(crate) fn new(alloc: Global) -> PendingTexts
        ensures { result ≡ [] }
    {
        PendingTexts {
            rows: Table::new(alloc),
        }
    }

    /// Puts rows in, each instead of the one of its text if there is one. Where memory runs out the texts are
    /// as before.
    pub(crate) fn put_all(
        &mut self,
        alloc: Global,
        fresh: Vec<PendingText>,
    ) -> Result<(), AllocError>
        requires { AllByRecursion (λ r. is_pending r ≡ true) fresh.items }
        ensures ok { OnOk result (self.new ≡ all_put fresh.items self.old) }
        ensures err { OnErr result (self.new ≡ self.old) }
    {
        make_room(alloc, &mut self.rows, fresh.as_slice())?;
        let _rows = self.rows.as_slice();
        fill(&mut self.rows, fresh);
        Ok(())
    }

    /// Does nothing. It tells in which order the texts stand.
    #[tactic(auto, using(crate::proofs::Filters::ascends_filtered, crate::proofs::Filters::all_pass))]
    pub(crate) fn in_order(&self)
        ensures ascends { Ascends row_key self.now }
        ensures some { AllByRecursion (λ r. is_pending r ≡ true) self.now }
    {
        let _rows = self.rows.as_slice();
    }

    /// Whether no text is pending.
    pub(crate) fn is_empty(&self) -> bool
        ensures { MatchBool result (self.now ≡ []) (self.now ≢ []) }
    {
        let mut left = self.rows.as_slice();
        'each: while let Some((row, others)) = left.split_first() {
            if row.count != 0 {
                return false;
            }
            left = others;
        }
        true
    }

    /// The routers whose headers are pending.
    pub(crate) fn headers(&self, alloc: Global) -> Result<Items<Name>, AllocError>
        ensures { IfOk result (λ hs. hs ≡ filter_map header_in self.now) }
    {
        let mut handles = Items::new(alloc);
        let mut left = self.rows.as_slice();
        'each: while let Some((row, others)) = left.split_first() {
            if row.count != 0 && row.text.session.is_none() {
                handles.push(row.text.router.copied(alloc)?)?;
            }
            left = others;
        }
        Ok(handles)
    }

    /// The sessions whose parts are pending.
    pub(crate) fn sessions(&self, alloc: Global) -> Result<Items<(Name, u32)>, AllocError>
        ensures { IfOk result (λ ks. ks ≡ filter_map part_in self.now) }
    {
        let mut keys = Items::new(alloc);
        let mut left = self.rows.as_slice();
        'each: while let Some((row, others)) = left.split_first() {
            if row.count != 0 {
                if let Some(number) = row.text.session {
                    keys.push((row.text.router.copied(alloc)?, number))?;
                }
            }
            left = others;
        }
        Ok(keys)
    }

    /// Drops the rows whose counts are up to this one.
    pub(crate) fn drop_upto(&mut self, alloc: Global, upto: u64)
        ensures { self.new ≡ filter (is_later upto) self.old }
    {
        let mut rows = mem::replace(&mut self.rows, Table::new(alloc)).into_rows();
        rows.retain(|row| upto < row.count);
        self.rows = Table::from_ascending(rows);
    }
}
