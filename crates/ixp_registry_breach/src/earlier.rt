//! Rows that don't go together with earlier ones.
ghost use Rattle.std.specs.Prelude.{◌≡◌, ◌+◌, ◌<◌, ◌^◌, Bool, List, length};
ghost use Rattle.ixp_registry.specs.Places.{first_with_earlier};

/// What a row must not do with those before it.
pub trait MeetsEarlier: Sized {
    ghost meets: { List Self → Self → Bool };

    fn meets(&self, earlier: &[Self]) -> bool
        ensures { result ≡ meets earlier.now self.now };
}

/// The first row that meets an earlier one, where the first of the rows stands on the line `start`.
pub fn first_with_earlier<R: MeetsEarlier>(start: usize, rows: &[R]) -> Option<usize>
    requires { start + length rows.now < 2 ^ 64 }
    ensures { result ≡ first_with_earlier start R.meets rows.now }
{
    let mut left = rows;
    let mut count = 0;
    'rows: while let Some((row, others)) = left.split_first() {
        if row.meets(&rows[..count]) {
            return Some(start + count);
        }
        left = others;
        count += 1;
    }
    None
}
