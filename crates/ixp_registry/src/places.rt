//! Where the first row stands that breaks a sentence.
ghost use Rattle.std.specs.Prelude.{◌≡◌, ◌+◌, ◌<◌, ◌^◌, ℕ, Bool, List, length};
ghost use Rattle.std.specs.Fn.{FnReturnsAt};
ghost use Rattle.ixp_registry.specs.Places.{earlier_of, earliest, first};

/// The first of the rows that breaks a sentence, where the first of them stands on the line `start`. In the
/// clause `test` is what `breaks` computes of each row, and `at` and `all` are what a caller knows `start`
/// and `rows` to be.
pub fn first<R, P: Fn(&R) -> bool>(start: usize, rows: &[R], breaks: P) -> Option<usize>
    requires callable { P.IsAlwaysCallable breaks }
    requires fits { start + length rows.now < 2 ^ 64 }
    ensures { (at : ℕ) (all : List R) (test : R → Bool) → start ≡ at → rows.now ≡ all
        → ((r : R) (b : Bool) → FnReturnsAt P.Fn breaks r b → b ≡ test r) → result ≡ first at test all }
{
    let mut left = rows;
    let mut at = start;
    'rows: while let Some((row, others)) = left.split_first() {
        if breaks(row) {
            return Some(at);
        }
        left = others;
        at += 1;
    }
    None
}

/// The earlier of two places.
fn earlier_of(one: Option<usize>, other: Option<usize>) -> Option<usize>
    ensures { result ≡ earlier_of one other }
{
    match (one, other) {
        (None, place) => place,
        (Some(a), None) => Some(a),
        (Some(a), Some(b)) => Some(a.min(b)),
    }
}

/// The earliest of the places.
pub fn earliest(places: &[Option<usize>]) -> Option<usize>
    ensures { result ≡ earliest places.now }
{
    match places.split_first() {
        None => None,
        Some((place, others)) => earlier_of(*place, earliest(others)),
    }
}
