//! The addresses that can be listened at.
ghost use Rattle.std.specs.Prelude.{◌≡◌, ◌==◌, IfSome, option_map};
ghost use Rattle.std.specs.List.{before_first};
ghost use Rattle.service_settings.specs.Texts.{behind};
ghost use Rattle.service_settings.specs.Addresses.{has_leading_zero as has_leading_zero_bytes, octet_at as octet_at_bytes, next_octet_at as next_octet_at_bytes, dotted_said, host_said, port_said, address_said};

use crate::digits::{begins_with_digit, number_of, past_digits};

/// An address of IPv4 with a port.
#[derive(Clone, Copy, PartialEq, Eq)]
pub struct Address {
    pub octets: [u8; 4],
    pub port: u16,
}

/// The address that a text says: dotted IPv4 or `localhost`, a colon and a port. It takes no memory.
#[tactic(auto, unfolding(crate::specs::Addresses::address_said))]
pub fn address_of(text: &str) -> Option<Address>
    ensures { result ≡ address_said text.now }
{
    let (host, port) = parts_of(text)?;
    let octets = host_of(host)?;
    let port = port_of(port.as_bytes())?;
    Some(Address { octets, port })
}

/// What stands before the first colon, and what behind it.
pub(crate) fn parts_of(text: &str) -> Option<(&str, &str)>
    ensures host { IfSome result (λ parts. parts.0.now ≡ before_first (λ b. b == 58) text.now) }
    ensures port { option_map (λ parts. parts.1.now) result ≡ behind 58 text.now }
{
    match text.split_once(':') {
        Some((host, port)) => Some((host, port)),
        None => None,
    }
}

fn host_of(text: &str) -> Option<[u8; 4]>
    ensures { result ≡ host_said text.now }
{
    if text == "localhost" {
        return Some([127, 0, 0, 1]);
    }
    dotted(text.as_bytes())
}

/// Four numbers with dots between them.
#[tactic(auto, unfolding(crate::specs::Addresses::dotted_said))]
fn dotted(text: &[u8]) -> Option<[u8; 4]>
    ensures { result ≡ dotted_said text.now }
{
    let (a, rest) = octet_at(text)?;
    let (b, rest) = next_octet_at(rest)?;
    let (c, rest) = next_octet_at(rest)?;
    let (d, rest) = next_octet_at(rest)?;
    if !rest.is_empty() {
        return None;
    }
    Some([a, b, c, d])
}

/// A number behind a dot, and what stands behind it.
fn next_octet_at(text: &[u8]) -> Option<(u8, &[u8])>
    ensures { option_map (λ found. (found.0, found.1.now)) result ≡ next_octet_at_bytes text.now }
{
    match text {
        [first, rest @ ..] if *first == b'.' => octet_at(rest),
        _ => None,
    }
}

/// A number below 256 at the front, and what stands behind it.
fn octet_at(text: &[u8]) -> Option<(u8, &[u8])>
    ensures { option_map (λ found. (found.0, found.1.now)) result ≡ octet_at_bytes text.now }
{
    if !begins_with_digit(text) || has_leading_zero(text) {
        return None;
    }
    let octet = number_of(text, 255)?;
    Some((octet as u8, past_digits(text)))
}

fn has_leading_zero(text: &[u8]) -> bool
    ensures { result ≡ has_leading_zero_bytes text.now }
{
    match text {
        [first, rest @ ..] => *first == b'0' && begins_with_digit(rest),
        [] => false,
    }
}

pub(crate) fn port_of(digits: &[u8]) -> Option<u16>
    ensures { result ≡ port_said digits.now }
{
    if !begins_with_digit(digits) || !past_digits(digits).is_empty() {
        return None;
    }
    let port = number_of(digits, 65535)?;
    Some(port as u16)
}
