//! What a request asks for, of which kind that is, and its route in the figures.
ghost use Rattle.std.specs.Prelude.{◌≡◌, option_map};
ghost use Rattle.sd_routes.specs.Asks.{access_of, taker_of};

use crate::access::Access;
use crate::acknowledgement::Acknowledgement;
use crate::which_collector::WhichCollector;
use fleet_events::Round;
use lists::Text;
use reach_rules::CollectorName;

/// What a request asks for, decoded.
#[derive(Drop)]
pub enum Ask {
    /// The page for people.
    Status,
    /// The scrape configs: as they were read, with their rules of relabelling, or as collectors are to have them.
    ScrapeConfigs {
        rules: bool,
    },
    /// The jobs with their links.
    Jobs,
    /// A job: how many targets it has, its sources, and who holds how many.
    Job(Text),
    /// What each live collector holds of a job.
    JobTargets(Text),
    /// What one collector has of a job: it takes its list, or somebody only looks at it.
    CollectorTargets {
        job: Text,
        name: CollectorName,
        takes: bool,
    },
    /// The live targets of a job that nobody holds.
    Uncovered(Text),
    /// The live targets that have a text in their address or in the value of a label.
    FindTargets(Text),
    /// A collector tells that it follows a list, or somebody only looks what that would be told.
    Acknowledged {
        told: Acknowledgement,
        counts: bool,
    },
    /// The allocations that were published last, and what moved with each from whom to whom.
    Allocations,
    /// What was booked in the round of a number, or in the last one that is over.
    Books(Option<Round>),
    /// The certificate of the last published allocation.
    Certificate,
    /// The live collectors.
    Collectors,
    /// One live collector.
    Collector(WhichCollector),
    /// A collector joins; the body says which.
    Join,
    Leave(WhichCollector),
    Drain(WhichCollector),
    /// The lists that a collector was served count as let go.
    Release(WhichCollector),
    /// A collector's own limits are replaced; the body has them.
    SetLimits(WhichCollector),
    /// A scrape is reported; the body has it.
    Report,
    /// Whether the service answers.
    Healthy,
    /// Whether the service is to go on as it is.
    Live,
    /// Whether the service is ready to answer.
    Ready,
    /// Whether the service leads, and does not stand by.
    Leading,
    /// What the service counts.
    Metrics,
    /// The configuration is to be read again.
    Reload,
    /// The service is to end.
    Quit,
}

impl Ask {
    /// Of which kind it is.
    pub fn access(&self) -> Access
        ensures { result ≡ access_of self.now }
    {
        match self {
            Ask::Status
            | Ask::ScrapeConfigs { rules: _ }
            | Ask::Jobs
            | Ask::Job(_)
            | Ask::JobTargets(_)
            | Ask::Uncovered(_)
            | Ask::FindTargets(_)
            | Ask::Allocations
            | Ask::Books(_)
            | Ask::Certificate
            | Ask::Collectors
            | Ask::Collector(_)
            | Ask::Healthy
            | Ask::Live
            | Ask::Ready
            | Ask::Leading
            | Ask::Metrics => Access::Shown,
            Ask::Acknowledged {
                told: _,
                counts: true,
            } => Access::Noted,
            Ask::Acknowledged {
                told: _,
                counts: false,
            } => Access::Shown,
            Ask::CollectorTargets {
                job: _,
                name: _,
                takes: true,
            } => Access::Taken,
            Ask::CollectorTargets {
                job: _,
                name: _,
                takes: false,
            } => Access::Looked,
            Ask::Report => Access::Reported,
            Ask::Join
            | Ask::Leave(_)
            | Ask::Drain(_)
            | Ask::Release(_)
            | Ask::SetLimits(_)
            | Ask::Reload
            | Ask::Quit => Access::Changed,
        }
    }

    /// The name of the collector whose list it is.
    pub fn taker(&self) -> Option<&str>
        ensures { option_map (λ s. s.now) result ≡ taker_of self.now }
    {
        match self {
            Ask::CollectorTargets {
                job: _,
                name,
                takes: _,
            } => Some(name.as_str()),
            _ => None,
        }
    }

    /// Its route, as requests are counted.
    pub fn route(&self) -> Route {
        match self {
            Ask::Status => Route::Status,
            Ask::ScrapeConfigs { .. } => Route::ScrapeConfigs,
            Ask::Jobs => Route::Jobs,
            Ask::JobTargets(_) => Route::JobTargets,
            Ask::CollectorTargets { .. } => Route::CollectorTargets,
            Ask::Uncovered(_) => Route::Uncovered,
            Ask::Acknowledged { .. } => Route::Acknowledged,
            Ask::Allocations => Route::Allocations,
            Ask::Books(_) => Route::Books,
            Ask::Certificate => Route::Certificate,
            Ask::Join => Route::Join,
            Ask::Leave(_) => Route::Leave,
            Ask::Drain(_) => Route::Drain,
            Ask::Release(_) => Route::Release,
            Ask::SetLimits(_) => Route::SetLimits,
            Ask::Report => Route::Report,
            Ask::Healthy => Route::Healthy,
            Ask::Live => Route::Live,
            Ask::Ready => Route::Ready,
            Ask::Leading => Route::Leading,
            Ask::Metrics => Route::Metrics,
            Ask::Reload => Route::Reload,
            Ask::Quit => Route::Quit,
            Ask::FindTargets(_) => Route::FindTargets,
            Ask::Collectors => Route::Collectors,
            Ask::Collector(_) => Route::Collector,
            Ask::Job(_) => Route::Job,
        }
    }
}

/// A route as requests are counted, or that there is none.
#[derive(Clone, Copy, PartialEq, Eq)]
pub enum Route {
    Status,
    ScrapeConfigs,
    Jobs,
    JobTargets,
    CollectorTargets,
    Uncovered,
    Acknowledged,
    Certificate,
    Join,
    Leave,
    Drain,
    Release,
    SetLimits,
    Report,
    Healthy,
    Live,
    Ready,
    Leading,
    Metrics,
    Reload,
    Quit,
    FindTargets,
    Collectors,
    Collector,
    Job,
    Allocations,
    Books,
    /// What has no route.
    NoRoute,
}

/// How many routes there are, what no route has among them.
pub const ROUTE_COUNT: usize = Route::NoRoute as usize + 1;

/// All of them, in the order in which they are told.
pub const ROUTES: [Route; ROUTE_COUNT] = [
    Route::Status,
    Route::ScrapeConfigs,
    Route::Jobs,
    Route::JobTargets,
    Route::CollectorTargets,
    Route::Uncovered,
    Route::Acknowledged,
    Route::Certificate,
    Route::Join,
    Route::Leave,
    Route::Drain,
    Route::Release,
    Route::SetLimits,
    Route::Report,
    Route::Healthy,
    Route::Live,
    Route::Ready,
    Route::Leading,
    Route::Metrics,
    Route::Reload,
    Route::Quit,
    Route::FindTargets,
    Route::Collectors,
    Route::Collector,
    Route::Job,
    Route::Allocations,
    Route::Books,
    Route::NoRoute,
];

impl Route {
    /// The route as it is told.
    pub fn name(self) -> &'static str {
        match self {
            Route::Status => "/",
            Route::ScrapeConfigs => "/scrape_configs",
            Route::Jobs => "/jobs",
            Route::JobTargets => "/jobs/{job}/targets",
            Route::CollectorTargets => "/jobs/{job}/targets?collector_id",
            Route::Uncovered => "/jobs/{job}/uncovered",
            Route::Acknowledged => "/acknowledged",
            Route::Certificate => "/certificate",
            Route::Join => "POST /collectors",
            Route::Leave => "DELETE /collectors/{id}",
            Route::Drain => "POST /collectors/{id}/drain",
            Route::Release => "POST /collectors/{id}/release",
            Route::SetLimits => "PUT /collectors/{id}/limits",
            Route::Report => "POST /reports",
            Route::Healthy => "/-/healthy",
            Route::Live => "/livez",
            Route::Ready => "/-/ready",
            Route::Leading => "/-/leading",
            Route::Metrics => "/metrics",
            Route::Reload => "POST /-/reload",
            Route::Quit => "POST /-/quit",
            Route::FindTargets => "/targets",
            Route::Collectors => "/collectors",
            Route::Collector => "/collectors/{id}",
            Route::Job => "/jobs/{job}",
            Route::Allocations => "/allocations",
            Route::Books => "/books",
            Route::NoRoute => "none",
        }
    }
}
