//! Which reports are made of what Prometheus said.
ghost use Rattle.std.specs.Prelude.{◌≡◌, ◌++◌, ℕ, take, IfOk, OnErr, OnOk};
ghost use Rattle.agent_core.specs.Choices.{after, chosen, chosen_of, with_chosen};
ghost use Rattle.agent_core.specs.Offered.{after_offers, all_after, all_chosen, chosen_offer, chosen_offers, given_to, part_after};

use crate::adding::add;
use crate::memory::Memory;
use crate::report::{Head, Report, report_of};
use crate::said::{Said, points_of};
use crate::sharing::{Lasts, Offer, offers};
use crate::slot::{Point, slot};
use crate::target::Listed;
use std::alloc::{AllocError, Global};

/// Chooses reports of all that Prometheus said, first of the targets that have their series alone. Without memory those that were chosen before are
/// lost.
pub(crate) fn choose_all(
    alloc: Global,
    memory: &mut Memory,
    head: Head,
    targets: &[Listed],
    said: &Said,
    lasts: &Lasts,
) -> Result<Vec<Report>, AllocError>
    ensures reports { IfOk result (λ v. v.items ≡ all_chosen memory.old head said.now.entries lasts.now.entries targets.now) }
    ensures memory { OnOk result (memory.new ≡ all_after memory.old head said.now.entries lasts.now.entries targets.now) }
    ensures err { OnErr result ((count : ℕ) × ((more : ℕ) × (memory.new ≡ part_after memory.old head said.now.entries lasts.now.entries targets.now count more))) }
{
    let offers = offers(alloc, targets, said, lasts)?;
    let mut reports = choose(alloc, memory, head, targets, said)?;
    choose_offers(memory, head, targets, offers.as_slice(), &mut reports)?;
    Ok(reports)
}

/// Adds the reports of points of shared series, one after the other. Without memory those that were chosen before are lost.
fn choose_offers(
    memory: &mut Memory,
    head: Head,
    targets: &[Listed],
    offers: &[Offer],
    reports: &mut Vec<Report>,
) -> Result<(), AllocError>
    ensures reports { OnOk result (reports.new.items ≡ reports.old.items ++ chosen_offers memory.old head targets.now offers.now) }
    ensures memory { OnOk result (memory.new ≡ after_offers memory.old head targets.now offers.now) }
    ensures err { OnErr result ((count : ℕ) × (memory.new ≡ after_offers memory.old head targets.now (take count offers.now))) }
{
    for offer in offers {
        let report = choose_offer(memory, head, targets, offer)?;
        add(reports, report)?;
    }
    Ok(())
}

/// Chooses a report of one point. Without memory nothing changes.
fn choose_offer(
    memory: &mut Memory,
    head: Head,
    targets: &[Listed],
    offer: &Offer,
) -> Result<Option<Report>, AllocError>
    ensures report { IfOk result (λ r. r ≡ chosen_offer memory.old head targets.now offer.now) }
    ensures memory { IfOk result (λ r. memory.new ≡ with_chosen memory.old r) }
    ensures err { OnErr result (memory.new ≡ memory.old) }
{
    let report = report_of_offer(memory, head, targets, offer)?;
    noted(memory, report)
}

/// The report of a point, where there is one.
fn report_of_offer(
    memory: &Memory,
    head: Head,
    targets: &[Listed],
    offer: &Offer,
) -> Result<Option<Report>, AllocError>
    ensures { IfOk result (λ r. r ≡ chosen_offer memory.now head targets.now offer.now) }
{
    match targets.get(offer.place) {
        Some(listed) => given_to(memory, head, offer.point, listed),
        None => Ok(None),
    }
}

/// The report of a target's point, where nothing was told of that target in the round, and the point is behind the mark of its series.
fn given_to(
    memory: &Memory,
    head: Head,
    point: Point,
    listed: &Listed,
) -> Result<Option<Report>, AllocError>
    ensures { IfOk result (λ r. r ≡ given_to memory.now head point listed.now) }
{
    let is_open = memory.is_open(head.epoch, head.round, listed.target);
    if is_open && memory.mark(&listed.series) < point.time {
        Ok(Some(report_of(head, listed, point)?))
    } else {
        Ok(None)
    }
}

/// Chooses reports by a list with this head, one after the other. Without memory those that were chosen before are lost.
pub(crate) fn choose(
    alloc: Global,
    memory: &mut Memory,
    head: Head,
    targets: &[Listed],
    said: &Said,
) -> Result<Vec<Report>, AllocError>
    ensures reports { IfOk result (λ v. v.items ≡ chosen memory.old head said.now.entries targets.now) }
    ensures memory { OnOk result (memory.new ≡ after memory.old head said.now.entries targets.now) }
    ensures err { OnErr result ((count : ℕ) × (memory.new ≡ after memory.old head said.now.entries (take count targets.now))) }
{
    let mut reports = Vec::new(alloc);
    for listed in targets {
        let points = points_of(said, &listed.series);
        let report = choose_one(alloc, memory, head, listed, points)?;
        add(&mut reports, report)?;
    }
    Ok(reports)
}

/// Chooses a report of one target. Without memory nothing changes.
fn choose_one(
    alloc: Global,
    memory: &mut Memory,
    head: Head,
    listed: &Listed,
    points: &[Point],
) -> Result<Option<Report>, AllocError>
    ensures report { IfOk result (λ r. r ≡ chosen_of memory.old head points.now listed.now) }
    ensures memory { IfOk result (λ r. memory.new ≡ with_chosen memory.old r) }
    ensures err { OnErr result (memory.new ≡ memory.old) }
{
    let report = report_for(alloc, memory, head, listed, points)?;
    noted(memory, report)
}

/// Notes a report, where there is one. Without memory nothing changes.
fn noted(memory: &mut Memory, report: Option<Report>) -> Result<Option<Report>, AllocError>
    ensures report { IfOk result (λ r. r ≡ report) }
    ensures memory { IfOk result (λ r. memory.new ≡ with_chosen memory.old r) }
    ensures err { OnErr result (memory.new ≡ memory.old) }
{
    if let Some(report) = &report {
        memory.note(report)?;
    }
    Ok(report)
}

/// The report of one target, where there is one.
fn report_for(
    alloc: Global,
    memory: &Memory,
    head: Head,
    listed: &Listed,
    points: &[Point],
) -> Result<Option<Report>, AllocError>
    ensures { IfOk result (λ r. r ≡ chosen_of memory.now head points.now listed.now) }
{
    if !listed.alone || !memory.is_open(head.epoch, head.round, listed.target) {
        return Ok(None);
    }
    match slot(alloc, memory.mark(&listed.series), points)? {
        Some(point) => Ok(Some(report_of(head, listed, point)?)),
        None => Ok(None),
    }
}
