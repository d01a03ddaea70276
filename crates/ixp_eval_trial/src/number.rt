//! Numbers in lines.
ghost use Rattle.std.specs.Prelude.{◌≡◌, ◌<◌, ◌^◌, ℕ, MatchOption};
ghost use Rattle.ixp_eval_trial.specs.Readings.{IsUpTo};

use ixp_num::number_of;

/// The decimal number that a field is, of at most so much.
pub(crate) fn number_up_to(field: &[u8], most: u64) -> Option<u64>
    requires { most < 2 ^ 32 }
    ensures { MatchOption result ((n : ℕ) → ¬ (IsUpTo most field.now n)) (λ n. IsUpTo most field.now n) }
{
    match number_of(field) {
        Ok((number, [])) => { if number <= most { Some(number) } else { None } }
        Ok((_, [_, ..])) => None,
        Err(_) => None,
    }
}
