//! Where a journal in etcd is.
ghost use Rattle.std.specs.Prelude.{◌≡◌, ◌<◌, ◌==◌, IfOk, option_map};
ghost use Rattle.std.specs.List.{after_first, before_first, list_all, slice_split};
ghost use Rattle.service_settings.specs.Acknowledge.{is_host_and_port as is_host_and_port_text};
ghost use Rattle.etcd_settings.specs.Reading.{Gives};
ghost use Rattle.etcd_settings.specs.Reading.{is_filled as is_filled_text};
ghost use Rattle.etcd_settings.specs.Places.{behind_scheme as behind_scheme_text, endpoints_said, is_in_etcd as is_in_etcd_text, journal_said, place_said, prefix_said};

use crate::error::{Member, SettingsError};
use lists::{List, Text};
use service_settings::is_host_and_port;
use std::alloc::{AllocError, Global};

/// What a text begins with that names a journal in etcd.
const SCHEME: &str = "etcd://";

/// Where a journal in etcd is.
#[derive(Debug, Drop)]
pub struct Place {
    /// Where etcd is reached, each a host, a colon and a port. There is one at least.
    pub endpoints: List<Text>,
    /// What the journal's keys begin with behind a slash: names with slashes between them.
    pub prefix: Text,
}

/// Whether a text names a journal in etcd, be it right or not.
pub fn is_in_etcd(journal: &str) -> bool
    ensures { result ≡ is_in_etcd_text journal.now }
{
    behind_scheme(journal).is_some()
}

/// Where a text says that a journal is. None where it is a file.
pub(crate) fn journal_in(alloc: Global, journal: &str) -> Result<Option<Place>, SettingsError>
    ensures { Gives (λ o. o) result (journal_said journal.now) }
{
    match behind_scheme(journal) {
        Some(text) => Ok(Some(place_in(alloc, text)?)),
        None => Ok(None),
    }
}

fn behind_scheme(text: &str) -> Option<&str>
    ensures { option_map (λ s. s.now) result ≡ behind_scheme_text text.now }
{
    text.strip_prefix(SCHEME)
}

/// The hosts stand before the first slash, and the prefix behind it.
fn place_in(alloc: Global, text: &str) -> Result<Place, SettingsError>
    ensures { Gives (λ p. p) result (place_said text.now) }
{
    let (hosts, prefix) = parts_of(text);
    let endpoints = endpoints_in(alloc, hosts)?;
    let prefix = prefix_in(alloc, prefix)?;
    Ok(Place { endpoints, prefix })
}

/// What stands before the first slash, and what behind it.
fn parts_of(text: &str) -> (&str, &str)
    ensures hosts { result.0.now ≡ before_first (λ b. b == 47) text.now }
    ensures prefix { result.1.now ≡ after_first (λ b. b == 47) text.now }
{
    match text.split_once('/') {
        Some((hosts, prefix)) => (hosts, prefix),
        None => (text, ""),
    }
}

/// Hosts with ports, with commas between them.
fn endpoints_in(alloc: Global, hosts: &str) -> Result<List<Text>, SettingsError>
    ensures { Gives (λ e. e) result (endpoints_said hosts.now) }
{
    let endpoints = parts_at(alloc, hosts, ',')?;
    if are_reached(endpoints.as_slice()) {
        Ok(endpoints)
    } else {
        Err(SettingsError::Shape(Member::Endpoints))
    }
}

/// Names with slashes between them.
fn prefix_in(alloc: Global, prefix: &str) -> Result<Text, SettingsError>
    ensures { Gives (λ p. p) result (prefix_said prefix.now) }
{
    let names = parts_at(alloc, prefix, '/')?;
    if are_filled(names.as_slice()) {
        Ok(Text::from_str(alloc, prefix)?)
    } else {
        Err(SettingsError::Shape(Member::Prefix))
    }
}

/// What stands between the signs of a text.
fn parts_at(alloc: Global, text: &str, sign: char) -> Result<List<Text>, AllocError>
    requires { sign < 128 }
    ensures { IfOk result (λ l. l ≡ slice_split (λ b. b == sign) text.now) }
{
    let mut parts = List::new(alloc);
    for part in text.split(sign) {
        parts.push(Text::from_str(alloc, part)?)?;
    }
    Ok(parts)
}

fn are_reached(hosts: &[Text]) -> bool
    ensures { result ≡ list_all is_host_and_port_text hosts.now }
{
    for host in hosts {
        if !is_host_and_port(host.as_str()) {
            return false;
        }
    }
    true
}

fn are_filled(names: &[Text]) -> bool
    ensures { result ≡ list_all is_filled_text names.now }
{
    for name in names {
        if !is_filled(name.as_str()) {
            return false;
        }
    }
    true
}

pub(crate) fn is_filled(text: &str) -> bool
    ensures { result ≡ is_filled_text text.now }
{
    0 < text.len()
}
