//! The settings of the service, which stand in the configuration's document.
ghost use Rattle.std.specs.Prelude.{◌≡◌, IfOk};
ghost use Rattle.serde_json.specs.View.{view};
ghost use Rattle.service_settings.specs.Reading.{Gives};
ghost use Rattle.service_settings.specs.Beside.{AreBeside, AreBesideUrls};
ghost use Rattle.service_settings.specs.Settings.{settings_of as settings_made, settings_said, settings_read};

mod acknowledge;
mod allocator;
mod collector_timeout;
mod collectors;
mod doors;
mod handover;
mod job_spread;
mod joining_pattern;
mod lifecycle;
mod members;
mod reach_changes;
mod release_after;
mod scrapes;
mod spread;

use crate::address::Address;
use crate::error::{Member, SettingsError};
use crate::reading::json_in;
pub use acknowledge::is_host_and_port;
use allocator::{Collecting, Housekeeping, collecting_in, housekeeping_in};
pub use collector_timeout::CollectorTimeout;
pub use collectors::Collector;
pub use doors::Doors;
use doors::doors_in;
pub use handover::Handover;
pub use job_spread::JobSpread;
use job_spread::spreads_in;
pub use joining_pattern::{JoiningPattern, LONGEST_PATTERN};
pub use lifecycle::Lifecycle;
use lists::{List, Text};
use members::{Kind, known_or_none};
pub use reach_changes::ReachChanges;
pub use release_after::ReleaseAfter;
use scrapes::{refresh_in, scrape_interval_in};
use serde_json::Value;
pub use spread::{MOST_SLACK, Spread};
use std::alloc::Global;

/// How long a round is, and how often a source is asked, in milliseconds.
pub const DEFAULT_INTERVAL: u64 = 60_000;
/// How long changes settle before a plan is made, in milliseconds.
pub const DEFAULT_SETTLE: u64 = 1_000;
/// How many old journals are kept.
pub const DEFAULT_KEEP: u32 = 16;
/// How long after a failed write the service ends, in milliseconds.
pub const DEFAULT_GIVE_UP: u64 = 30_000;
/// How many connections there may be at once.
pub const DEFAULT_CONNECTIONS: u32 = 4_096;
/// Of how many of the last rounds a report is booked.
pub const DEFAULT_REPORT_ROUNDS: u32 = 3;
/// By how many percent a collector may have more targets than where the loads are the most even.
pub const DEFAULT_SLACK: u32 = 10;
/// How long a fetch may take, in milliseconds.
pub const DEFAULT_FETCH_TIMEOUT: u64 = 10_000;
/// Where HTTP is served.
pub const DEFAULT_LISTEN: Address = Address {
    octets: [127, 0, 0, 1],
    port: 8080,
};

/// The settings of the service. Lengths of time are in milliseconds, and those that may not be 0 are above it.
#[derive(Drop)]
pub struct Settings {
    /// How long a round is. Above 0.
    pub scrape_interval: u64,
    /// How often each source is asked: for each job, in order, a length of time for each of its URLs. Above 0.
    pub refresh: List<List<u64>>,
    /// How even the targets of each job are made, in order of the jobs, where loads are made even.
    pub spreads: List<JobSpread>,
    /// Where HTTP is served.
    pub listen: Address,
    /// Whether HTTP may stop the service, and make it read its configuration again.
    pub lifecycle: Lifecycle,
    /// The path of the journal.
    pub journal: Option<Text>,
    /// How many old journals are kept.
    pub keep: u32,
    /// How long changes settle before a plan is made.
    pub settle: u64,
    /// How long after a failed write of the journal the service ends. Above 0.
    pub give_up: u64,
    /// How many connections there may be at once. From 64 to 65,535.
    pub connections: u32,
    /// Of how many of the last rounds a report is booked. From 1 to 64.
    pub report_rounds: u32,
    /// Who may ask.
    pub doors: Doors,
    /// Whether a configuration without jobs is taken.
    pub allow_no_jobs: bool,
    /// Collectors that join when the service starts. Their names differ.
    pub collectors: List<Collector>,
    /// What a collector joins with that is not live, and that the configuration does not name, when its list is asked for: what the first
    /// pattern has that its name matches.
    pub join_by_asking: List<JoiningPattern>,
    /// When another reach of a collector of the configuration is taken.
    pub reach_changes: ReachChanges,
    /// Whether a collector of the configuration that is not live joins where its list is asked for.
    pub rejoin: bool,
    /// After how long without a word a collector counts as gone.
    pub collector_timeout: CollectorTimeout,
    /// When a target that moved is in the list of the collector that it moved to.
    pub handover: Handover,
    /// Where collectors tell that they follow their lists, as they reach it: a host, a colon and a port.
    pub acknowledge: Option<Text>,
    /// How long after a collector was last heard of its lists count as let go.
    pub release_after: ReleaseAfter,
    /// How even the collectors' loads are made; nothing is evened where there is nothing here.
    pub spread: Option<Spread>,
    /// How long a fetch may take. Above 0.
    pub fetch_timeout: u64,
}

/// Reads the settings out of the document of a configuration. What the document says of jobs is not looked at. The first fault is
/// that of the member that stands first in `docs/understand/FORMATS.md`.
pub fn read_settings(alloc: Global, bytes: &[u8]) -> Result<Settings, SettingsError>
    ensures said { Gives (λ s. s) result (settings_read bytes.now) }
    ensures beside { IfOk result (λ s. AreBesideUrls bytes.now s.refresh) }
{
    let value = json_in(alloc, bytes)?;
    settings_in(alloc, &value)
}

#[tactic(auto, unfolding(crate::specs::Settings::settings_said))]
fn settings_in(alloc: Global, document: &Value) -> Result<Settings, SettingsError>
    ensures said { Gives (λ s. s) result (settings_said (view document.now)) }
    ensures beside { IfOk result (λ s. AreBeside (view document.now) s.refresh) }
{
    if !document.is_object() {
        return Err(SettingsError::Shape(Member::Document));
    }
    let scrape_interval = scrape_interval_in(document)?;
    let refresh = refresh_in(alloc, document)?;
    let spreads = spreads_in(alloc, document)?;
    let found = document.get("allocator");
    let allocator = known_or_none(alloc, Kind::Allocator, Member::Allocator, found)?;
    let housekeeping = housekeeping_in(alloc, allocator)?;
    let doors = doors_in(alloc, allocator)?;
    let collecting = collecting_in(alloc, allocator)?;
    Ok(settings_of(
        scrape_interval,
        refresh,
        spreads,
        housekeeping,
        doors,
        collecting,
    ))
}

fn settings_of(
    scrape_interval: u64,
    refresh: List<List<u64>>,
    spreads: List<JobSpread>,
    housekeeping: Housekeeping,
    doors: Doors,
    collecting: Collecting,
) -> Settings
    ensures { result ≡ settings_made scrape_interval refresh spreads housekeeping doors collecting }
{
    Settings {
        scrape_interval,
        refresh,
        spreads,
        listen: housekeeping.listen,
        lifecycle: housekeeping.lifecycle,
        journal: housekeeping.journal,
        keep: housekeeping.keep,
        settle: housekeeping.settle,
        give_up: housekeeping.give_up,
        connections: housekeeping.connections,
        report_rounds: housekeeping.report_rounds,
        doors,
        allow_no_jobs: collecting.allow_no_jobs,
        collectors: collecting.collectors,
        join_by_asking: collecting.join_by_asking,
        reach_changes: collecting.reach_changes,
        rejoin: collecting.rejoin,
        collector_timeout: collecting.collector_timeout,
        handover: collecting.handover,
        acknowledge: collecting.acknowledge,
        release_after: collecting.release_after,
        spread: collecting.spread,
        fetch_timeout: collecting.fetch_timeout,
    }
}
