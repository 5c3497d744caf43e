//! What the allocator is asked.
use crate::ids::CollectorId;
use crate::report::Report;
use label_sets::Target;
use lists::{List, Plain, Text};
use price_certificate::Plan;
use reach_rules::{CollectorName, OwnLimits, Reach};
use spread_certificate::Spread;
use std::alloc::AllocError;

/// What the allocator is asked.
#[derive(Debug, Drop)]
pub enum Event {
    /// A source of a job lists these targets, in place of those that it listed before.
    Discover {
        job: Text,
        source: u32,
        targets: List<Target>,
    },
    /// A collector joins.
    Join {
        name: CollectorName,
        reach: Reach,
        limits: OwnLimits,
    },
    /// The collector leaves.
    Leave(CollectorId),
    /// The collector is to be emptied before it is stopped.
    Drain(CollectorId),
    /// The collector has these limits of its own, in place of all that it had before.
    SetLimits {
        collector: CollectorId,
        limits: OwnLimits,
    },
    /// A plan is to be published.
    Install(Plan),
    /// A plan within caps is to be published.
    Spread(Spread),
    /// The next round opens.
    NextRound,
    /// The collector takes the current allocation.
    Take(CollectorId),
    /// The collector is served its list of a job: what it holds of it in the current allocation, but for what another collector's list
    /// still has.
    Serve {
        collector: CollectorId,
        job: Text,
    },
    /// The lists that the collector was served last count as let go, that of a job where one is named.
    Release {
        collector: CollectorId,
        job: Option<Text>,
    },
    /// A collector reports what a scrape came to.
    Report(Report),
}

impl Plain for Event {
    fn copy(&self) -> Result<Event, AllocError> {
        match self {
            Event::Discover {
                job,
                source,
                targets,
            } => {
                let job = job.copy()?;
                let targets = targets.copy()?;
                Ok(Event::Discover {
                    job,
                    source: *source,
                    targets,
                })
            }
            Event::Join {
                name,
                reach,
                limits,
            } => {
                let name = name.copy()?;
                let reach = reach.copy()?;
                let limits = limits.copy()?;
                Ok(Event::Join {
                    name,
                    reach,
                    limits,
                })
            }
            Event::Leave(collector) => Ok(Event::Leave(*collector)),
            Event::Drain(collector) => Ok(Event::Drain(*collector)),
            Event::SetLimits { collector, limits } => {
                let limits = limits.copy()?;
                Ok(Event::SetLimits {
                    collector: *collector,
                    limits,
                })
            }
            Event::Install(plan) => Ok(Event::Install(plan.copy()?)),
            Event::Spread(spread) => Ok(Event::Spread(spread.copy()?)),
            Event::NextRound => Ok(Event::NextRound),
            Event::Take(collector) => Ok(Event::Take(*collector)),
            Event::Serve { collector, job } => {
                let job = job.copy()?;
                Ok(Event::Serve {
                    collector: *collector,
                    job,
                })
            }
            Event::Release { collector, job } => {
                let job = job.copy()?;
                Ok(Event::Release {
                    collector: *collector,
                    job,
                })
            }
            Event::Report(report) => Ok(Event::Report(*report)),
        }
    }

    fn same(&self, other: &Event) -> bool {
        match (self, other) {
            (
                Event::Discover {
                    job,
                    source,
                    targets,
                },
                Event::Discover {
                    job: other_job,
                    source: other_source,
                    targets: other_targets,
                },
            ) => job.same(other_job) && *source == *other_source && targets.same(other_targets),
            (
                Event::Join {
                    name,
                    reach,
                    limits,
                },
                Event::Join {
                    name: other_name,
                    reach: other_reach,
                    limits: other_limits,
                },
            ) => name.same(other_name) && reach.same(other_reach) && limits.same(other_limits),
            (Event::Leave(collector), Event::Leave(other_collector)) => {
                *collector == *other_collector
            }
            (Event::Drain(collector), Event::Drain(other_collector)) => {
                *collector == *other_collector
            }
            (
                Event::SetLimits { collector, limits },
                Event::SetLimits {
                    collector: other_collector,
                    limits: other_limits,
                },
            ) => *collector == *other_collector && limits.same(other_limits),
            (Event::Install(plan), Event::Install(other_plan)) => plan.same(other_plan),
            (Event::Spread(spread), Event::Spread(other_spread)) => spread.same(other_spread),
            (Event::NextRound, Event::NextRound) => true,
            (Event::Take(collector), Event::Take(other_collector)) => {
                *collector == *other_collector
            }
            (
                Event::Serve { collector, job },
                Event::Serve {
                    collector: other_collector,
                    job: other_job,
                },
            ) => *collector == *other_collector && job.same(other_job),
            (
                Event::Release { collector, job },
                Event::Release {
                    collector: other_collector,
                    job: other_job,
                },
            ) => *collector == *other_collector && job.same(other_job),
            (Event::Report(report), Event::Report(other_report)) => *report == *other_report,
            _ => false,
        }
    }
}
