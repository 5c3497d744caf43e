//! The members of `allocator`.
ghost use Rattle.std.specs.Prelude.{option_map};
ghost use Rattle.serde_json.specs.View.{view};
ghost use Rattle.service_settings.specs.Reading.{Gives};
ghost use Rattle.service_settings.specs.Settings.{housekeeping_said, collecting_said};

use crate::address::Address;
use crate::error::{Member, SettingsError};
use crate::reading::{
    address_or, connections_or, duration_or, flag_or, member_of, number_or, report_rounds_or,
    text_or_none, time_or,
};
use crate::settings::acknowledge::acknowledge_in;
use crate::settings::collector_timeout::{CollectorTimeout, collector_timeout_in};
use crate::settings::collectors::{Collector, collectors_in};
use crate::settings::handover::{Handover, handover_in};
use crate::settings::joining_pattern::{JoiningPattern, join_by_asking_in};
use crate::settings::lifecycle::{Lifecycle, lifecycle_in};
use crate::settings::reach_changes::{ReachChanges, reach_changes_in};
use crate::settings::release_after::{ReleaseAfter, release_after_in};
use crate::settings::spread::{Spread, spread_in};
use crate::settings::{
    DEFAULT_CONNECTIONS, DEFAULT_FETCH_TIMEOUT, DEFAULT_GIVE_UP, DEFAULT_KEEP, DEFAULT_LISTEN,
    DEFAULT_REPORT_ROUNDS, DEFAULT_SETTLE,
};
use lists::{List, Text};
use serde_json::Value;
use std::alloc::Global;

/// How the service runs.
#[derive(Drop)]
pub(crate) struct Housekeeping {
    pub(crate) listen: Address,
    pub(crate) lifecycle: Lifecycle,
    pub(crate) journal: Option<Text>,
    pub(crate) keep: u32,
    pub(crate) settle: u64,
    pub(crate) give_up: u64,
    pub(crate) connections: u32,
    pub(crate) report_rounds: u32,
}

/// What is collected, who collects, and how long it may take.
#[derive(Drop)]
pub(crate) struct Collecting {
    pub(crate) allow_no_jobs: bool,
    pub(crate) collectors: List<Collector>,
    pub(crate) join_by_asking: List<JoiningPattern>,
    pub(crate) reach_changes: ReachChanges,
    pub(crate) rejoin: bool,
    pub(crate) collector_timeout: CollectorTimeout,
    pub(crate) handover: Handover,
    pub(crate) acknowledge: Option<Text>,
    pub(crate) release_after: ReleaseAfter,
    pub(crate) spread: Option<Spread>,
    pub(crate) fetch_timeout: u64,
}

#[tactic(auto, unfolding(crate::specs::Settings::housekeeping_said))]
pub(crate) fn housekeeping_in(
    alloc: Global,
    allocator: Option<&Value>,
) -> Result<Housekeeping, SettingsError>
    ensures { Gives (λ h. h) result (housekeeping_said (option_map (λ v. view v.now) allocator.entry)) }
{
    let listen = member_of(allocator, "listen");
    let listen = address_or(DEFAULT_LISTEN, Member::Listen, listen)?;
    let lifecycle = lifecycle_in(alloc, member_of(allocator, "lifecycle"))?;
    let journal = text_or_none(alloc, Member::Journal, member_of(allocator, "journal"))?;
    let keep = number_or(DEFAULT_KEEP, Member::Keep, member_of(allocator, "keep"))?;
    let settle = member_of(allocator, "settle");
    let settle = duration_or(DEFAULT_SETTLE, Member::Settle, settle)?;
    let give_up = member_of(allocator, "give_up");
    let give_up = time_or(DEFAULT_GIVE_UP, Member::GiveUp, give_up)?;
    let connections = member_of(allocator, "connections");
    let connections = connections_or(DEFAULT_CONNECTIONS, Member::Connections, connections)?;
    let rounds = member_of(allocator, "report_rounds");
    let report_rounds = report_rounds_or(DEFAULT_REPORT_ROUNDS, Member::ReportRounds, rounds)?;
    Ok(Housekeeping {
        listen,
        lifecycle,
        journal,
        keep,
        settle,
        give_up,
        connections,
        report_rounds,
    })
}

#[tactic(auto, unfolding(crate::specs::Settings::collecting_said))]
pub(crate) fn collecting_in(
    alloc: Global,
    allocator: Option<&Value>,
) -> Result<Collecting, SettingsError>
    ensures { Gives (λ c. c) result (collecting_said (option_map (λ v. view v.now) allocator.entry)) }
{
    let allow_no_jobs = member_of(allocator, "allow_no_jobs");
    let allow_no_jobs = flag_or(false, Member::AllowNoJobs, allow_no_jobs)?;
    let collectors = collectors_in(alloc, member_of(allocator, "collectors"))?;
    let join_by_asking = join_by_asking_in(alloc, member_of(allocator, "join_by_asking"))?;
    let reach_changes = reach_changes_in(member_of(allocator, "reach_changes"))?;
    let rejoin = flag_or(true, Member::Rejoin, member_of(allocator, "rejoin"))?;
    let collector_timeout = member_of(allocator, "collector_timeout");
    let collector_timeout = collector_timeout_in(collector_timeout)?;
    let handover = handover_in(member_of(allocator, "handover"))?;
    let acknowledge = acknowledge_in(alloc, member_of(allocator, "acknowledge"))?;
    let release_after = release_after_in(member_of(allocator, "release_after"))?;
    let spread = spread_in(alloc, member_of(allocator, "spread"))?;
    let fetch_timeout = member_of(allocator, "fetch_timeout");
    let fetch_timeout = time_or(DEFAULT_FETCH_TIMEOUT, Member::FetchTimeout, fetch_timeout)?;
    Ok(Collecting {
        allow_no_jobs,
        collectors,
        join_by_asking,
        reach_changes,
        rejoin,
        collector_timeout,
        handover,
        acknowledge,
        release_after,
        spread,
        fetch_timeout,
    })
}
