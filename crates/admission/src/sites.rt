//! Under which name a service is asked, and by pages of which site.
ghost use Rattle.std.specs.Prelude.{◌≡◌, ◌==◌, option_copied};
ghost use Rattle.std.specs.List.{before_first};
ghost use Rattle.admission.specs.Sites.{same_letters as same_letters_of, is_own_host as is_own_host_of, are_own_hosts as are_own_hosts_of, is_origin_of as is_origin_at, is_own_origin as is_own_origin_of, has_own_origin as has_own_origin_of, only_shows as only_shows_of, is_shown as is_shown_of, is_from_other_site as is_from_other_site_of, is_foreign as is_foreign_of};

use http_header::{HOST, HeaderMap, ORIGIN};
use lists::{List, Text};
use sd_routes::{Access, Ask};

/// Whether each host that is named is one of these.
pub(crate) fn are_own_hosts(hosts: &Option<List<Text>>, fields: &HeaderMap) -> bool
    ensures { result ≡ are_own_hosts_of hosts.now fields.now }
{
    let Some(hosts) = hosts else {
        return true;
    };
    for value in fields.get_all(HOST) {
        if !is_own_host(hosts.as_slice(), value.as_bytes()) {
            return false;
        }
    }
    true
}

/// Whether a host is one of these, whatever its port.
fn is_own_host(hosts: &[Text], host: &[u8]) -> bool
    ensures { result ≡ is_own_host_of hosts.now host.now }
{
    let name = before_colon(host);
    for own in hosts {
        if same_letters(own.as_str().as_bytes(), name) {
            return true;
        }
    }
    false
}

fn before_colon(host: &[u8]) -> &[u8]
    ensures { result.now ≡ before_first (λ b. b == 58) host.now }
{
    for (i, byte) in host.iter().enumerate() {
        if *byte == b':' {
            return &host[..i];
        }
    }
    host
}

/// Whether two texts differ in nothing but the case of letters.
pub(crate) fn same_letters(one: &[u8], other: &[u8]) -> bool
    ensures { result ≡ same_letters_of one.now other.now }
{
    one.eq_ignore_ascii_case(other)
}

/// Whether a request that changes something comes from a page of another site (Fetch Standard, section 3.2; Fetch Metadata Request Headers,
/// section 2). What is only shown is no fault: such a page may link to it, and reads nothing of it.
pub(crate) fn is_foreign(ask: Option<&Ask>, fields: &HeaderMap) -> bool
    ensures { result ≡ is_foreign_of (option_copied ask.entry) fields.now }
{
    !is_shown(ask) && (!has_own_origin(fields) || is_from_other_site(fields))
}

/// Whether a request has a place, and what it asks for is only shown.
fn is_shown(ask: Option<&Ask>) -> bool
    ensures { result ≡ is_shown_of (option_copied ask.entry) }
{
    match ask {
        Some(ask) => only_shows(ask),
        None => false,
    }
}

/// Whether nothing is changed by what is asked for, no list is taken and none is noted as followed.
fn only_shows(ask: &Ask) -> bool
    ensures { result ≡ only_shows_of ask.now }
{
    match ask.access() {
        Access::Shown | Access::Looked => true,
        Access::Noted | Access::Taken | Access::Reported | Access::Changed => false,
    }
}

/// Whether each origin that is told is the service itself.
fn has_own_origin(fields: &HeaderMap) -> bool
    ensures { result ≡ has_own_origin_of fields.now }
{
    for origin in fields.get_all(ORIGIN) {
        if !is_own_origin(fields, origin.as_bytes()) {
            return false;
        }
    }
    true
}

/// Whether an origin is the host that is asked.
fn is_own_origin(fields: &HeaderMap, origin: &[u8]) -> bool
    ensures { result ≡ is_own_origin_of fields.now origin.now }
{
    for host in fields.get_all(HOST) {
        if is_origin_of(host.as_bytes(), origin) {
            return true;
        }
    }
    false
}

/// Whether an origin is a host, by HTTP or behind a proxy that speaks TLS.
fn is_origin_of(host: &[u8], origin: &[u8]) -> bool
    ensures { result ≡ is_origin_at host.now origin.now }
{
    if origin.starts_with(b"http://") {
        return same_letters(host, &origin[7..]);
    }
    if origin.starts_with(b"https://") {
        return same_letters(host, &origin[8..]);
    }
    false
}

/// Whether a page of another site has the browser ask.
fn is_from_other_site(fields: &HeaderMap) -> bool
    ensures { result ≡ is_from_other_site_of fields.now }
{
    match fields.get("sec-fetch-site") {
        Some(site) => site.as_bytes() != b"same-origin".as_slice()
            && site.as_bytes() != b"none".as_slice(),
        None => false,
    }
}
