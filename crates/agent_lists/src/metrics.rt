//! An agent's figures, in Prometheus's text exposition format.
use crate::counts::Counts;
use exposition::{Exposition, Kind};
use std::alloc::{AllocError, Global};
use std::sync::atomic::{AtomicU64, Ordering};

/// The figures of an agent.
pub(crate) fn metrics_page(alloc: Global, counts: &Counts) -> Result<String, AllocError> {
    let mut page = Exposition::new(alloc);
    write_lists(&mut page, counts)?;
    write_reports(&mut page, counts)?;
    write_failures(&mut page, counts)?;
    page.into_string().ok_or(AllocError)
}

fn write_lists(page: &mut Exposition, counts: &Counts) -> Result<(), AllocError> {
    write(
        page,
        "allocd_agent_targets_held",
        Kind::Gauge,
        "Targets of the list that was taken last.",
        &counts.held,
    )?;
    write(
        page,
        "allocd_agent_targets_served",
        Kind::Gauge,
        "Held targets that Prometheus is served.",
        &counts.served,
    )?;
    write(
        page,
        "allocd_agent_lists_total",
        Kind::Counter,
        "Lists that Prometheus was told.",
        &counts.lists,
    )?;
    write(
        page,
        "allocd_agent_takes_total",
        Kind::Counter,
        "How often the lists were taken.",
        &counts.takes,
    )
}

fn write_reports(page: &mut Exposition, counts: &Counts) -> Result<(), AllocError> {
    write(
        page,
        "allocd_agent_reports_total",
        Kind::Counter,
        "Reports that were posted.",
        &counts.reports,
    )?;
    write(
        page,
        "allocd_agent_reports_refused_total",
        Kind::Counter,
        "How often reports were refused since their list or their round was over.",
        &counts.refusals,
    )
}

fn write_failures(page: &mut Exposition, counts: &Counts) -> Result<(), AllocError> {
    write(
        page,
        "allocd_agent_allocator_failures_total",
        Kind::Counter,
        "How often the allocator was not heard.",
        &counts.allocator_failures,
    )?;
    write(
        page,
        "allocd_agent_prometheus_failures_total",
        Kind::Counter,
        "How often Prometheus was not heard.",
        &counts.prometheus_failures,
    )?;
    write(
        page,
        "allocd_agent_state_failures_total",
        Kind::Counter,
        "How often the state file could not be written.",
        &counts.state_failures,
    )
}

/// Writes a family of one sample.
fn write(
    page: &mut Exposition,
    name: &str,
    kind: Kind,
    help: &str,
    count: &AtomicU64,
) -> Result<(), AllocError> {
    page.family(name, kind, help)?;
    page.sample(name, u128::from(count.load(Ordering::SeqCst)))
}
