//! Who may ask the service.
ghost use Rattle.std.specs.Prelude.{◌≡◌, option_map};
ghost use Rattle.serde_json.specs.View.{view, items_view};
ghost use Rattle.service_settings.specs.Reading.{Gives, each_from};
ghost use Rattle.service_settings.specs.Doors.{is_host_byte as is_host_code, is_host_name as is_host_text, host_said, hosts_said, doors_said};

use crate::error::{Member, SettingsError};
use crate::reading::{flag_or, items_in, member_of, text_or_none};
use crate::settings::members::{Kind, known_or_none};
use lists::{List, Text};
use serde_json::Value;
use std::alloc::Global;

/// Who may ask the service, and under which names of its host.
#[derive(Drop)]
pub struct Doors {
    /// Names in small letters and without a port under which the service is asked, beside `localhost` and the address where it listens.
    pub hosts: List<Text>,
    /// The path of the file with the tokens of those who may change who collects, read the configuration again and stop the service.
    pub admin_tokens: Option<Text>,
    /// The path of the file with the tokens of those who may take lists and report.
    pub collector_tokens: Option<Text>,
    /// Whether all may ask for all, also where others than those of this machine can ask.
    pub open_to_all: bool,
}

#[tactic(auto, unfolding(crate::specs::Doors::doors_said))]
pub(crate) fn doors_in(alloc: Global, allocator: Option<&Value>) -> Result<Doors, SettingsError>
    ensures { Gives (λ d. d) result (doors_said (option_map (λ v. view v.now) allocator.entry)) }
{
    let hosts = hosts_in(alloc, member_of(allocator, "hosts"))?;
    let found = member_of(allocator, "tokens");
    let tokens = known_or_none(alloc, Kind::Tokens, Member::Tokens, found)?;
    let admin = member_of(tokens, "admin");
    let admin_tokens = text_or_none(alloc, Member::AdminTokens, admin)?;
    let collectors = member_of(tokens, "collectors");
    let collector_tokens = text_or_none(alloc, Member::CollectorTokens, collectors)?;
    let open_to_all = flag_or(
        false,
        Member::OpenToAll,
        member_of(allocator, "open_to_all"),
    )?;
    Ok(Doors {
        hosts,
        admin_tokens,
        collector_tokens,
        open_to_all,
    })
}

fn hosts_in(alloc: Global, found: Option<&Value>) -> Result<List<Text>, SettingsError>
    ensures { Gives (λ h. h) result (hosts_said (option_map (λ v. view v.now) found.entry)) }
{
    let items = items_in(Member::Hosts, found)?;
    each_host(alloc, items)
}

fn each_host(alloc: Global, items: &[Value]) -> Result<List<Text>, SettingsError>
    ensures { Gives (λ h. h) result (each_from host_said 0 (items_view items.now)) }
{
    let mut hosts = List::new(alloc);
    for (index, item) in items.iter().enumerate() {
        let host = host_in(alloc, index, item)?;
        hosts.push(host)?;
    }
    Ok(hosts)
}

fn host_in(alloc: Global, index: usize, value: &Value) -> Result<Text, SettingsError>
    ensures { Gives (λ h. h) result (host_said index (view value.now)) }
{
    match value.as_str() {
        Some(name) if is_host_name(name.as_bytes()) => Ok(Text::from_str(alloc, name)?),
        _ => Err(SettingsError::Shape(Member::Host(index))),
    }
}

/// Whether the bytes may stand for a host: small letters, digits, dots and hyphens.
pub(crate) fn is_host_name(name: &[u8]) -> bool
    ensures { result ≡ is_host_text name.now }
{
    if name.is_empty() {
        return false;
    }
    for byte in name {
        if !is_host_byte(*byte) {
            return false;
        }
    }
    true
}

fn is_host_byte(byte: u8) -> bool
    ensures { result ≡ is_host_code byte }
{
    (b'a' <= byte && byte <= b'z') || (b'0' <= byte && byte <= b'9') || byte == b'.' || byte == b'-'
}
