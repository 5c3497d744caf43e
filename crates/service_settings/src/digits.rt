//! Decimal digits at the front of a text.
ghost use Rattle.std.specs.Prelude.{◌≡◌, ◌≤◌, ◌^◌};
ghost use Rattle.std.specs.List.{before_first};
ghost use Rattle.service_settings.specs.Digits.{is_digit as is_digit_byte, number_from, past_digits as past_digits_of, past_word as past_word_of, begins_with_digit as begins_with_digit_bytes, up_to as up_to_most};

/// The number that the digits at the front write, where it is not greater than the most.
pub(crate) fn number_of(text: &[u8], most: u64) -> Option<u64>
    requires { most ≤ 2 ^ 59 }
    ensures { result ≡ up_to_most most (number_from 0 text.now) }
{
    let mut number: u64 = 0;
    for byte in text {
        if !is_digit(*byte) {
            return Some(number);
        }
        number = up_to(most, 10 * number + (*byte - b'0') as u64)?;
    }
    Some(number)
}

/// The number, where it is not greater than the most.
pub(crate) fn up_to(most: u64, number: u64) -> Option<u64>
    ensures { result ≡ up_to_most most number }
{
    if number <= most { Some(number) } else { None }
}

/// What stands behind the digits at the front.
pub(crate) fn past_digits(text: &[u8]) -> &[u8]
    ensures { result.now ≡ past_digits_of text.now }
{
    let mut rest = text;
    while let [first, others @ ..] = rest {
        if !is_digit(*first) {
            return rest;
        }
        rest = others;
    }
    rest
}

/// What stands before the first digit.
pub(crate) fn word_of(text: &[u8]) -> &[u8]
    ensures { result.now ≡ before_first is_digit_byte text.now }
{
    for (i, byte) in text.iter().enumerate() {
        if is_digit(*byte) {
            return &text[..i];
        }
    }
    text
}

/// The first digit, and what stands behind it.
pub(crate) fn past_word(text: &[u8]) -> &[u8]
    ensures { result.now ≡ past_word_of text.now }
{
    let mut rest = text;
    while let [first, others @ ..] = rest {
        if is_digit(*first) {
            return rest;
        }
        rest = others;
    }
    rest
}

/// Whether the text begins with a digit.
pub(crate) fn begins_with_digit(text: &[u8]) -> bool
    ensures { result ≡ begins_with_digit_bytes text.now }
{
    match text {
        [first, ..] => is_digit(*first),
        [] => false,
    }
}

fn is_digit(byte: u8) -> bool
    ensures { result ≡ is_digit_byte byte }
{
    b'0' <= byte && byte <= b'9'
}
