//! What was seen of the history.
ghost use Rattle.std.specs.Prelude.{◌≡◌, ◌==◌, ◌++◌, ◌∷◌, [], length, IsTrue, MatchBool};
ghost use mathlib.Core.List.{IsPrefix};
ghost use Rattle.ixp_board.specs.Histories.{IsLegal, turns_of, with_turn};
ghost use Rattle.ixp_board.specs.Books.{head_of};

use crate::entry::Entry;
use crate::story::Story;
use logbook::{Gain, Offer, Plain, Play, Rule, Seen, Word};
use std::marker::{Brand, Model, PhantomData};

/// The rule of the book that keeps the history.
pub struct Law<S> {
    of: PhantomData<S>,
}

impl<S: Story> Rule<Entry<S::First, S::Op>, u64> for Law<S> {
    ghost use Rattle.std.specs.Prelude.{[]};
    ghost use base.Fml.{ftrue};
    ghost use Rattle.ixp_board.specs.Books.{IsKept};

    ghost holds = { λ cells log. IsKept S.legal cells log };

    ghost first = { [] };

    ghost hinted = { λ n log. Unit {0} };

    ghost shows = { λ log. [] };

    ghost keeps = { λ names log. ftrue };

    ghost moves = { λ ask before after answer. Unit {0} };
}

/// Callers trade nothing with the book.
pub struct NoGain;

impl<F, O> Gain<Entry<F, O>, u64> for NoGain {
    ghost use base.Fml.{ftrue};

    ghost after = { λ names about answer. ftrue };
}

/// A step that adds a turn.
pub struct Add;

impl<F, O> Play<Entry<F, O>, u64> for Add {
    ghost use Rattle.ixp_board.specs.Books.{Adds};

    ghost then = { Adds };
}

impl<F, O> Plain<O, Entry<F, O>, u64> for Add {
    ghost use Rattle.std.specs.Prelude.{None};
    ghost use Rattle.ixp_board.specs.declared.entry.Entry.TheVariants.{Turn};

    ghost ask = { λ op. Turn op };

    ghost state = { λ op. None };
}

/// A step that sees the whole history.
pub struct Look<S> {
    of: PhantomData<S>,
}

impl<S: Story> Play<Entry<S::First, S::Op>, u64> for Look<S> {
    ghost use Rattle.ixp_board.specs.Books.{Looks};

    ghost then = { Looks S.legal };
}

/// What a step asks for that adds nothing.
pub struct NoTurn;

impl<F, O> Plain<(), Entry<F, O>, u64> for NoTurn {
    ghost use Rattle.std.specs.Prelude.{None};
    ghost use Rattle.ixp_board.specs.declared.entry.Entry.TheVariants.{Nothing};

    ghost ask = { λ none. Nothing };

    ghost state = { λ none. None };
}

/// A beginning of the history that was seen.
pub type Log<S> = Seen<Entry<<S as Story>::First, <S as Story>::Op>, u64, Law<S>>;

/// The word that counts the turns of the history.
pub type Head<S> = Word<Entry<<S as Story>::First, <S as Story>::Op>, u64, Law<S>>;

/// Which board it is. Seats, notes and pens of two boards differ in their types, by this parameter. The
/// function that opens a board is generic in it and is called at [`Brand`]; the caller picks the board that
/// it has begun.
pub trait BoardName {
    ghost use Rattle.logbook.specs.Pages.{Book};

    ghost book: { Book };
}

impl BoardName for Brand {
    ghost book = { record { number = 0; log_name = 0; cells_name = 0 } };
}

/// A beginning of the history of a board, and how many turns it has. It knows the history without memory.
#[derive(Drop)]
pub struct Front<S: Story, N: BoardName> {
    turns: u64,
    seen: Log<S>,
    of: PhantomData<N>,
}

impl<S: Story, N: BoardName> Model for Front<S, N> {
    ghost use Rattle.std.specs.Prelude.{◌≡◌, List, length};
    ghost use Rattle.ixp_board.specs.declared.entry.Entry.{Entry};
    ghost use Rattle.ixp_board.specs.Histories.{IsLegal, turns_of};

    ghost Value = { List (Entry S.First S.Op) };

    ghost view = { λ f. f.seen.log };

    ghost invariant = { λ f. (f.turns ≡ length (turns_of f.seen.log)) × IsLegal S.legal f.seen.log
        × (f.seen.book ≡ N.book) };
}

impl<S: Story, N: BoardName> Front<S, N> {
    /// The history of a book that was just opened.
    pub fn at_first(seen: &Log<S>) -> Front<S, N>
        requires book { seen.now.book ≡ N.book }
        requires legal { IsLegal S.legal seen.now.log }
        requires turns { turns_of seen.now.log ≡ [] }
        ensures { result ≡ seen.now.log }
    {
        Front {
            turns: 0,
            seen: seen.again(),
            of: PhantomData,
        }
    }

    /// An equal one.
    pub fn again(&self) -> Front<S, N>
        ensures { result ≡ self.now }
    {
        Front {
            turns: self.turns,
            seen: self.seen.again(),
            of: PhantomData,
        }
    }

    /// It is legal.
    pub fn legal(&self)
        ensures { IsLegal S.legal self.now }
    {
        let _turns = self.turns;
    }

    /// Whether the other one goes on from this one. If it doesn't, this one begins with it.
    pub fn is_before(&self, other: &Front<S, N>) -> bool
        ensures { MatchBool result (IsPrefix self.now other.now) (IsPrefix other.now self.now) }
    {
        let mut both = self.seen.again();
        both.learn(&other.seen);
        self.turns < other.turns
    }

    /// Whether this is the whole history; then it begins with the other one.
    pub fn is_whole(&self, head: &Head<S>, other: &Front<S, N>) -> bool
        requires { head.now ≡ head_of N.book }
        ensures { IsTrue result → IsPrefix other.now self.now }
    {
        let mut both = self.seen.again();
        both.learn(&other.seen);
        let mut offer: Offer<Entry<S::First, S::Op>, u64, Law<S>, NoGain> = both.plain::<
            NoGain,
            (),
            NoTurn,
        >(&());
        head.load::<Look<S>, NoGain>(&mut both, &mut offer) == self.turns
    }

    /// Adds a turn, if this is the whole history and the turns can still be counted.
    pub fn add(&mut self, head: &Head<S>, op: &S::Op) -> bool
        requires head { head.now ≡ head_of N.book }
        requires legal { IsLegal S.legal (with_turn self.old op.now) }
        ensures { MatchBool result (self.new ≡ with_turn self.old op.now) (self.new ≡ self.old) }
    {
        let Some(next) = self.turns.checked_add(1) else {
            return false;
        };
        let mut seen = self.seen.again();
        let mut offer: Offer<Entry<S::First, S::Op>, u64, Law<S>, NoGain> = seen.plain::<
            NoGain,
            S::Op,
            Add,
        >(op);
        let mut pen = seen.no_pen();
        let turns = self.turns;
        let found = head.compare_exchange::<Add, NoGain>(
            turns, next, &mut seen, &mut offer, &mut pen,
        );
        if found != turns {
            return false;
        }
        self.turns = next;
        self.seen = seen;
        true
    }
}
