//! Numbers in decimal.
ghost use Rattle.std.specs.Prelude.{◌≡◌, ◌≤◌, IfSome};
ghost use Rattle.sd_routes.specs.Decimals.{decimal_in, next_of};

/// The greatest number of 32 bits.
pub(crate) const MOST_OF_32_BITS: u64 = 4_294_967_295;

/// The greatest number of 64 bits.
pub(crate) const MOST_OF_64_BITS: u64 = 18_446_744_073_709_551_615;

/// The number that decimal digits write, where it has at most 32 bits.
pub(crate) fn decimal_of_32_bits(digits: &[u8]) -> Option<u32>
    ensures { result ≡ decimal_in MOST_OF_32_BITS digits.now }
{
    match decimal(digits, MOST_OF_32_BITS) {
        Some(number) => Some(number as u32),
        None => None,
    }
}

/// The number that decimal digits write, where it is at most this. Leading zeros are read; a sign is not.
pub(crate) fn decimal(digits: &[u8], most: u64) -> Option<u64>
    ensures number { result ≡ decimal_in most digits.now }
    ensures most { IfSome result (λ n. n ≤ most) }
{
    if digits.is_empty() {
        return None;
    }
    let mut value = 0;
    for &digit in digits {
        value = next(value, digit, most)?;
    }
    Some(value)
}

/// The number after one more digit.
fn next(value: u64, digit: u8, most: u64) -> Option<u64>
    ensures number { result ≡ next_of most value digit }
    ensures most { IfSome result (λ n. n ≤ most) }
{
    if !digit.is_ascii_digit() {
        return None;
    }
    let value = u128::from(value) * 10 + u128::from(digit - b'0');
    if value > u128::from(most) {
        return None;
    }
    Some(value as u64)
}
