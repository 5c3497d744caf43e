//! The settings of an agent.
ghost use Rattle.std.specs.Prelude.{◌≡◌, option_map};
ghost use Rattle.serde_json.specs.View.{view};
ghost use Rattle.agent_settings.specs.Reading.{Gives};
ghost use Rattle.agent_settings.specs.Settings.{settings_read, settings_said, tokens_said};

use crate::error::{Member, SettingsError};
use crate::members::{Kind, check_members, known_or_none};
use crate::reading::{json_in, lease_or_none, listen_or, path_or_none, text_in, url_in};
use lists::Text;
use serde_json::Value;
use service_settings::{Address, member_of};
use std::alloc::Global;

/// Where an agent serves its Prometheus where nothing is said.
pub const DEFAULT_LISTEN: Address = Address {
    octets: [127, 0, 0, 1],
    port: 9099,
};

/// The files that have an agent's tokens.
#[derive(Drop)]
pub struct Tokens {
    /// What is shown to the allocator where lists are asked for and reports are posted.
    pub allocator: Option<Text>,
    /// What is shown to it where the collector joins.
    pub admin: Option<Text>,
    /// What is shown to the Prometheus.
    pub prometheus: Option<Text>,
}

/// The settings of an agent.
#[derive(Drop)]
pub struct Settings {
    /// The name of its collector.
    pub name: Text,
    /// The URL of the allocator.
    pub allocator: Text,
    /// The URL of its Prometheus.
    pub prometheus: Text,
    /// Where it serves its Prometheus the lists.
    pub listen: Address,
    /// The path of the file in which is written down what was told.
    pub state: Text,
    /// For how long it keeps its lists without a word of the allocator, in milliseconds. Above 0. For ever where nothing is said.
    pub lease: Option<u64>,
    pub tokens: Tokens,
}

/// Reads the settings of an agent. The first fault is an unknown member of the document, or else that of the member which stands first in
/// `docs/operate/AGENT.md`.
pub fn read_settings(alloc: Global, bytes: &[u8]) -> Result<Settings, SettingsError>
    ensures { Gives (λ s. s) result (settings_read bytes.now) }
{
    let value = json_in(alloc, bytes)?;
    settings_in(alloc, &value)
}

#[tactic(auto, unfolding(crate::specs::Settings::settings_said))]
fn settings_in(alloc: Global, document: &Value) -> Result<Settings, SettingsError>
    ensures { Gives (λ s. s) result (settings_said (view document.now)) }
{
    check_members(alloc, Kind::Document, document)?;
    let name = text_in(alloc, Member::Name, document.get("name"))?;
    let allocator = url_in(alloc, Member::Allocator, document.get("allocator"))?;
    let prometheus = url_in(alloc, Member::Prometheus, document.get("prometheus"))?;
    let listen = listen_or(DEFAULT_LISTEN, Member::Listen, document.get("listen"))?;
    let state = text_in(alloc, Member::State, document.get("state"))?;
    let lease = lease_or_none(Member::Lease, document.get("lease"))?;
    let tokens = tokens_in(alloc, document.get("tokens"))?;
    Ok(Settings {
        name,
        allocator,
        prometheus,
        listen,
        state,
        lease,
        tokens,
    })
}

#[tactic(auto, unfolding(crate::specs::Settings::tokens_said))]
fn tokens_in(alloc: Global, found: Option<&Value>) -> Result<Tokens, SettingsError>
    ensures { Gives (λ t. t) result (tokens_said (option_map (λ v. view v.now) found.entry)) }
{
    let tokens = known_or_none(alloc, Kind::Tokens, found)?;
    let allocator = member_of(tokens, "allocator");
    let allocator = path_or_none(alloc, Member::AllocatorToken, allocator)?;
    let admin = path_or_none(alloc, Member::AdminToken, member_of(tokens, "admin"))?;
    let prometheus = member_of(tokens, "prometheus");
    let prometheus = path_or_none(alloc, Member::PrometheusToken, prometheus)?;
    Ok(Tokens {
        allocator,
        admin,
        prometheus,
    })
}
