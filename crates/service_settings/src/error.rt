//! Why settings are refused, and the text of it.
ghost use Rattle.std.specs.Prelude.{◌≡◌, IfOk, string_bytes};
ghost use Rattle.service_settings.specs.Lines.{member_path, member_text, missing, error_line};

use lists::Text;
use std::alloc::{AllocError, Global};

/// Why settings were not read.
#[derive(Drop)]
pub enum SettingsError {
    NotJson,
    /// The member is not what it has to be.
    Shape(Member),
    /// The object at this member has another member of this name, which says nothing.
    Unknown(Member, Text),
    /// The collector at this index has the name of an earlier one.
    RepeatedCollector(usize),
    Memory,
}

/// A member of the document. The indices are those of a scrape config and of an entry of its `http_sd_configs`, of a collector, or
/// of an entry of `join_by_asking`.
#[derive(Clone, Copy, Debug, PartialEq, Eq)]
pub enum Member {
    Document,
    Global,
    ScrapeInterval,
    ScrapeConfigs,
    ScrapeConfig(usize),
    HttpSdConfigs(usize),
    HttpSdConfig(usize, usize),
    RefreshInterval(usize, usize),
    JobSpread(usize),
    Allocator,
    Listen,
    Lifecycle,
    LifecycleReload,
    LifecycleQuit,
    Journal,
    Keep,
    Settle,
    GiveUp,
    Connections,
    ReportRounds,
    Hosts,
    /// A name of `allocator.hosts`, by its index.
    Host(usize),
    Tokens,
    AdminTokens,
    CollectorTokens,
    OpenToAll,
    AllowNoJobs,
    Collectors,
    Collector(usize),
    CollectorName(usize),
    CollectorReach(usize),
    CollectorLimits(usize),
    JoinByAsking,
    JoiningPattern(usize),
    Pattern(usize),
    PatternReach(usize),
    PatternLimits(usize),
    ReachChanges,
    Rejoin,
    CollectorTimeout,
    Handover,
    Acknowledge,
    ReleaseAfter,
    Spread,
    Slack,
    MostMoves,
    FetchTimeout,
}

impl SettingsError {
    /// The line that names the member and says what is wrong with it.
    pub fn line(&self, alloc: Global) -> Result<String, AllocError>
        ensures { IfOk result (λ s. string_bytes s ≡ error_line self.now) }
    {
        match self {
            SettingsError::NotJson => String::from_str(alloc, "no JSON"),
            SettingsError::Shape(member) => shape_line(alloc, *member),
            SettingsError::Unknown(member, name) => unknown_line(alloc, *member, name.as_str()),
            SettingsError::RepeatedCollector(index) => {
                format!(in alloc;
                    "allocator.collectors[{index}].name: the name of an earlier collector"
                )
            }
            SettingsError::Memory => String::from_str(alloc, "no memory"),
        }
    }
}

fn shape_line(alloc: Global, member: Member) -> Result<String, AllocError>
    ensures { IfOk result (λ s. string_bytes s ≡ error_line (SettingsError.Shape member)) }
{
    let mut line = member.text(alloc)?;
    line.push_str(": ")?;
    line.push_str(member.missing())?;
    Ok(line)
}

fn unknown_line(alloc: Global, member: Member, name: &str) -> Result<String, AllocError>
    ensures { IfOk result (λ s. string_bytes s ≡ error_line (SettingsError.Unknown member name.now)) }
{
    let mut line = member.text(alloc)?;
    line.push_str(".")?;
    line.push_str(name)?;
    line.push_str(": unknown member")?;
    Ok(line)
}

impl Member {
    /// The way to the member from the document.
    fn text(self, alloc: Global) -> Result<String, AllocError>
        ensures { IfOk result (λ s. string_bytes s ≡ member_text self) }
    {
        match self {
            Member::ScrapeConfig(job) => format!(in alloc; "scrape_configs[{job}]"),
            Member::HttpSdConfigs(job) => {
                format!(in alloc; "scrape_configs[{job}].http_sd_configs")
            }
            Member::HttpSdConfig(job, entry) => {
                format!(in alloc; "scrape_configs[{job}].http_sd_configs[{entry}]")
            }
            Member::RefreshInterval(job, entry) => {
                format!(in alloc; "scrape_configs[{job}].http_sd_configs[{entry}].refresh_interval")
            }
            Member::JobSpread(job) => format!(in alloc; "scrape_configs[{job}].spread"),
            Member::Host(index) => format!(in alloc; "allocator.hosts[{index}]"),
            Member::Collector(index) => format!(in alloc; "allocator.collectors[{index}]"),
            Member::CollectorName(index) => format!(in alloc; "allocator.collectors[{index}].name"),
            Member::CollectorReach(index) => {
                format!(in alloc; "allocator.collectors[{index}].reach")
            }
            Member::CollectorLimits(index) => {
                format!(in alloc; "allocator.collectors[{index}].limits")
            }
            Member::JoiningPattern(index) => {
                format!(in alloc; "allocator.join_by_asking[{index}]")
            }
            Member::Pattern(index) => {
                format!(in alloc; "allocator.join_by_asking[{index}].pattern")
            }
            Member::PatternReach(index) => {
                format!(in alloc; "allocator.join_by_asking[{index}].reach")
            }
            Member::PatternLimits(index) => {
                format!(in alloc; "allocator.join_by_asking[{index}].limits")
            }
            other => String::from_str(alloc, other.path()),
        }
    }

    /// The way to a member that is not of a list, and the list's for another.
    fn path(self) -> &'static str
        ensures { result.now ≡ member_path self }
    {
        match self {
            Member::Document => "document",
            Member::Global => "global",
            Member::ScrapeInterval => "global.scrape_interval",
            Member::ScrapeConfigs
            | Member::ScrapeConfig(_)
            | Member::HttpSdConfigs(_)
            | Member::HttpSdConfig(_, _)
            | Member::RefreshInterval(_, _)
            | Member::JobSpread(_) => "scrape_configs",
            Member::Allocator => "allocator",
            Member::Listen => "allocator.listen",
            Member::Lifecycle => "allocator.lifecycle",
            Member::LifecycleReload => "allocator.lifecycle.reload",
            Member::LifecycleQuit => "allocator.lifecycle.quit",
            Member::Journal => "allocator.journal",
            Member::Keep => "allocator.keep",
            Member::Settle => "allocator.settle",
            Member::GiveUp => "allocator.give_up",
            Member::Connections => "allocator.connections",
            Member::ReportRounds => "allocator.report_rounds",
            Member::Hosts | Member::Host(_) => "allocator.hosts",
            Member::Tokens => "allocator.tokens",
            Member::AdminTokens => "allocator.tokens.admin",
            Member::CollectorTokens => "allocator.tokens.collectors",
            Member::OpenToAll => "allocator.open_to_all",
            Member::AllowNoJobs => "allocator.allow_no_jobs",
            Member::Collectors
            | Member::Collector(_)
            | Member::CollectorName(_)
            | Member::CollectorReach(_)
            | Member::CollectorLimits(_) => "allocator.collectors",
            Member::JoinByAsking
            | Member::JoiningPattern(_)
            | Member::Pattern(_)
            | Member::PatternReach(_)
            | Member::PatternLimits(_) => "allocator.join_by_asking",
            Member::ReachChanges => "allocator.reach_changes",
            Member::Rejoin => "allocator.rejoin",
            Member::CollectorTimeout => "allocator.collector_timeout",
            Member::Handover => "allocator.handover",
            Member::Acknowledge => "allocator.acknowledge",
            Member::ReleaseAfter => "allocator.release_after",
            Member::Spread => "allocator.spread",
            Member::Slack => "allocator.spread.slack",
            Member::MostMoves => "allocator.spread.most_moves",
            Member::FetchTimeout => "allocator.fetch_timeout",
        }
    }

    /// What the member is not.
    fn missing(self) -> &'static str
        ensures { result.now ≡ missing self }
    {
        match self {
            Member::Document
            | Member::Global
            | Member::ScrapeConfig(_)
            | Member::HttpSdConfig(_, _)
            | Member::Allocator
            | Member::Tokens
            | Member::Spread
            | Member::Collector(_)
            | Member::JoiningPattern(_) => "no object",
            Member::ScrapeConfigs
            | Member::HttpSdConfigs(_)
            | Member::Hosts
            | Member::Collectors
            | Member::JoinByAsking => "no list",
            Member::ScrapeInterval
            | Member::RefreshInterval(_, _)
            | Member::GiveUp
            | Member::CollectorTimeout
            | Member::FetchTimeout => "no duration above 0",
            Member::JobSpread(_) => "neither \"off\" nor a whole number from 0 to 1000",
            Member::Settle => "no duration",
            Member::Listen => "no address with a port",
            Member::Acknowledge => "no host with a port",
            Member::Lifecycle => "neither true nor false nor an object",
            Member::LifecycleReload
            | Member::LifecycleQuit
            | Member::OpenToAll
            | Member::AllowNoJobs
            | Member::Rejoin => "neither true nor false",
            Member::Journal => "no text",
            Member::Host(_) => "no name of a host in small letters, without a port",
            Member::AdminTokens | Member::CollectorTokens => "no path of a file",
            Member::ReachChanges => "neither \"drained\" nor \"now\"",
            Member::Handover => "neither \"ordered\" nor \"free\"",
            Member::ReleaseAfter => "neither a duration above 0 nor \"never\"",
            Member::Keep => "no whole number of 32 bits",
            Member::Slack => "no whole number from 0 to 1000",
            Member::MostMoves => "no whole number of 32 bits above 0",
            Member::Connections => "no whole number from 64 to 65535",
            Member::ReportRounds => "no whole number from 1 to 64",
            Member::CollectorName(_) => "no name of a collector",
            Member::Pattern(_) => "no pattern of collectors' names",
            Member::CollectorReach(_) | Member::PatternReach(_) => "no list of reach rules",
            Member::CollectorLimits(_) | Member::PatternLimits(_) => "no object of limits",
        }
    }
}

impl From<AllocError> for SettingsError {
    ghost use Rattle.std.specs.Prelude.{◌≡◌};
    ghost use Rattle.service_settings.specs.declared.error.SettingsError.TheVariants.{Memory};

    ghost from_gives = { λ _ e. e ≡ Memory };

    fn from(_refused: AllocError) -> SettingsError {
        SettingsError::Memory
    }
}
