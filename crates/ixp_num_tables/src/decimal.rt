//! Decimal numbers.
ghost use Rattle.std.specs.Prelude.{◌≡◌, ◌≤◌, IfSome};
ghost use Rattle.ixp_num_tables.specs.Decimals as spec;

/// The number that a text is in decimal, without a sign and without leading zeros, where it is at most
/// `most`.
pub fn number_upto(most: u64, text: &[u8]) -> Option<u64>
    ensures number { result ≡ spec.number_upto most text.now }
    ensures within { IfSome result (λ n. n ≤ most) }
{
    match text {
        [] => return None,
        [b'0', _, ..] => return None,
        _ => {}
    }
    let mut value: u64 = 0;
    for digit in text {
        if !digit.is_ascii_digit() {
            return None;
        }
        let next = u128::from(value) * 10 + u128::from(*digit - b'0');
        if next > u128::from(most) {
            return None;
        }
        value = next as u64;
    }
    Some(value)
}
