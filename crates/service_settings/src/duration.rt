//! Durations in the spelling of Prometheus.
ghost use Rattle.std.specs.Prelude.{◌≡◌, ◌↔◌, ℕ, Some};
ghost use Rattle.service_settings.specs.Spelled.{IsDuration};
ghost use Rattle.service_settings.specs.Durations.{unit_name, unit_length, has_part, part_length as part_length_of, part_rest as part_rest_of, within, sum_from, parts_said, duration_said};

use crate::digits::{begins_with_digit, number_of, past_digits, past_word, up_to, word_of};

/// The longest duration in milliseconds: 2^63 - 1 nanoseconds, some 292 years.
pub const LONGEST_DURATION: u64 = 9_223_372_036_854;

/// A unit of time. A day has 24 hours, a week 7 days and a year 365.
#[derive(Clone, Copy, PartialEq, Eq)]
enum Unit {
    Year,
    Week,
    Day,
    Hour,
    Minute,
    Second,
    Millisecond,
}

/// All units, in the order in which a duration has them.
const UNITS: [Unit; 7] = [
    Unit::Year,
    Unit::Week,
    Unit::Day,
    Unit::Hour,
    Unit::Minute,
    Unit::Second,
    Unit::Millisecond,
];

impl Unit {
    fn name(self) -> &'static str
        ensures { result.now ≡ unit_name self }
    {
        match self {
            Unit::Year => "y",
            Unit::Week => "w",
            Unit::Day => "d",
            Unit::Hour => "h",
            Unit::Minute => "m",
            Unit::Second => "s",
            Unit::Millisecond => "ms",
        }
    }

    /// In milliseconds.
    fn length(self) -> u64
        ensures { result ≡ unit_length self }
    {
        match self {
            Unit::Year => 31_536_000_000,
            Unit::Week => 604_800_000,
            Unit::Day => 86_400_000,
            Unit::Hour => 3_600_000,
            Unit::Minute => 60_000,
            Unit::Second => 1_000,
            Unit::Millisecond => 1,
        }
    }
}

/// The duration that a text spells, in milliseconds: Prometheus's configuration documentation, `<duration>`. Units stand from the
/// longest to the shortest, each at most once. It takes no memory.
pub fn duration_of(text: &str) -> Option<u64>
    ensures said { result ≡ duration_said text.now }
    ensures spelled { (n : ℕ) → (result ≡ Some n) ↔ IsDuration text.now n }
{
    read(text)
}

#[tactic(auto, unfolding(crate::specs::Durations::duration_said))]
fn read(text: &str) -> Option<u64>
    ensures { result ≡ duration_said text.now }
{
    if text.is_empty() {
        return None;
    }
    if text == "0" {
        return Some(0);
    }
    parts_of(text.as_bytes())
}

/// The sum of the parts of all units.
fn parts_of(text: &[u8]) -> Option<u64>
    ensures { result ≡ parts_said text.now }
{
    sum_of(&UNITS, text)
}

/// The sum of the parts that the text is made of.
fn sum_of(units: &[Unit], text: &[u8]) -> Option<u64>
    ensures { result ≡ sum_from 0 units.now text.now }
{
    let mut sum: u64 = 0;
    let mut left = text;
    for unit in units {
        sum = up_to(LONGEST_DURATION, sum + part_length(*unit, left)?)?;
        left = part_rest(*unit, left);
    }
    if !left.is_empty() {
        return None;
    }
    Some(sum)
}

/// The length of the part of this unit at the front, 0 where there is none.
fn part_length(unit: Unit, text: &[u8]) -> Option<u64>
    ensures { result ≡ within (part_length_of unit text.now) }
{
    if !begins_with(unit, text) {
        return Some(0);
    }
    let number = number_of(text, LONGEST_DURATION)?;
    up_to(LONGEST_DURATION, number.checked_mul(unit.length())?)
}

/// What stands behind the part of this unit at the front, all of it where there is none.
fn part_rest(unit: Unit, text: &[u8]) -> &[u8]
    ensures { result.now ≡ part_rest_of unit text.now }
{
    if begins_with(unit, text) {
        past_word(past_digits(text))
    } else {
        text
    }
}

/// Whether the text begins with a number and this unit.
fn begins_with(unit: Unit, text: &[u8]) -> bool
    ensures { result ≡ has_part unit text.now }
{
    begins_with_digit(text) && word_of(past_digits(text)) == unit.name().as_bytes()
}
