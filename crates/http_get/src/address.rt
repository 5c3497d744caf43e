//! The addresses that a request can be sent to.
ghost use Rattle.std.specs.Prelude.{◌≡◌, ◌==◌, ℕ, MatchOption, option_map};
ghost use Rattle.std.specs.declared.net.ipv4_addr.Ipv4Addr.{Ipv4Addr as Host};
ghost use Rattle.std.specs.declared.net.socket_addr.SocketAddrV4.{SocketAddrV4 as Address};
ghost use Rattle.std.specs.List.{before_first};
ghost use Rattle.http_get.specs.Addresses.{IsHost, IsNumberedPort, behind_colon, IsPort, IsAddress};

use std::net::{Ipv4Addr, SocketAddrV4};

/// The port of an address that names none.
pub const DEFAULT_PORT: u16 = 80;

/// The address that a text says: dotted IPv4 or `localhost`, with a colon and a port or without. It takes no memory.
pub fn address_of(text: &str) -> Option<SocketAddrV4>
    ensures { MatchOption result ((a : Address) → ¬ (IsAddress text.now a)) (IsAddress text.now) }
{
    let (host, digits) = parts_of(text);
    let host = host_of(host)?;
    let port = port_of(digits)?;
    Some(SocketAddrV4::new(host, port))
}

/// What stands before the first colon, and what behind it.
pub(crate) fn parts_of(text: &str) -> (&str, Option<&str>)
    ensures host { result.0.now ≡ before_first (λ b. b == 58) text.now }
    ensures digits { option_map (λ s. s.now) result.1 ≡ behind_colon text.now }
{
    match text.split_once(':') {
        Some((host, digits)) => (host, Some(digits)),
        None => (text, None),
    }
}

fn host_of(text: &str) -> Option<Ipv4Addr>
    ensures { MatchOption result ((h : Host) → ¬ (IsHost text.now h)) (IsHost text.now) }
{
    if text == "localhost" {
        return Some(Ipv4Addr::LOCALHOST);
    }
    match text.parse::<Ipv4Addr>() {
        Ok(host) => Some(host),
        Err(_) => None,
    }
}

/// The port of these digits, or the default one.
pub(crate) fn port_of(digits: Option<&str>) -> Option<u16>
    ensures { MatchOption result ((port : ℕ) → ¬ (IsPort (option_map (λ s. s.now) digits.entry) port)) (IsPort (option_map (λ s. s.now) digits.entry)) }
{
    match digits {
        Some(digits) => number_of(digits),
        None => Some(DEFAULT_PORT),
    }
}

/// A port in decimal digits, without a sign.
fn number_of(digits: &str) -> Option<u16>
    ensures { MatchOption result ((port : ℕ) → ¬ (IsNumberedPort digits.now port)) (IsNumberedPort digits.now) }
{
    if digits.starts_with('+') {
        return None;
    }
    digits.parse::<u16>().ok()
}
