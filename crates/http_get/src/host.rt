//! The names by which a source can be asked.
ghost use Rattle.std.specs.Prelude.{◌≡◌, ℕ, List, MatchOption};
ghost use Rattle.std.specs.List.{list_all};
ghost use Rattle.http_get.specs.Hosts.{may_end as label_may_end, may_follow as byte_may_follow, are_labels as are_labels_from, is_digit_or_dot as is_digit_or_dot_byte, is_host_name as is_host_name_text, IsNamed};

use crate::address::{parts_of, port_of};

/// The most bytes of a name.
pub const LONGEST_NAME: usize = 253;

/// The most bytes of a name between two dots.
pub const LONGEST_LABEL: usize = 63;

/// The name and the port that a text says: the name of a host, with a colon and a port or without. It takes no memory.
pub fn name_of(text: &str) -> Option<(&str, u16)>
    ensures { MatchOption result ((name : List ℕ) (port : ℕ) → ¬ (IsNamed text.now name port)) (λ named. IsNamed text.now named.0.now named.1) }
{
    let (name, digits) = parts_of(text);
    if !is_host_name(name.as_bytes()) {
        return None;
    }
    match port_of(digits) {
        Some(port) => Some((name, port)),
        None => None,
    }
}

fn is_host_name(name: &[u8]) -> bool
    ensures { result ≡ is_host_name_text name.now }
{
    name.len() <= LONGEST_NAME && are_labels(name) && !is_number(name)
}

/// Whether a name is made of labels with dots between them.
fn are_labels(name: &[u8]) -> bool
    ensures { result ≡ are_labels_from 0 46 name.now }
{
    let mut long: usize = 0;
    let mut last = b'.';
    for byte in name {
        if *byte == b'.' {
            if !may_end(long, last) {
                return false;
            }
            long = 0;
        } else {
            if !may_follow(long, *byte) {
                return false;
            }
            long += 1;
        }
        last = *byte;
    }
    may_end(long, last)
}

/// Whether a label of so many bytes, the last of which is this, may end.
fn may_end(long: usize, last: u8) -> bool
    ensures { result ≡ label_may_end long last }
{
    0 < long && long <= LONGEST_LABEL && last != b'-'
}

/// Whether a byte may stand behind so many bytes of a label.
fn may_follow(long: usize, byte: u8) -> bool
    ensures { result ≡ byte_may_follow long byte }
{
    byte.is_ascii_alphanumeric() || (byte == b'-' && 0 < long)
}

/// Whether there are but digits and dots.
fn is_number(name: &[u8]) -> bool
    ensures { result ≡ list_all is_digit_or_dot_byte name.now }
{
    for byte in name {
        if !(byte.is_ascii_digit() || *byte == b'.') {
            return false;
        }
    }
    true
}
