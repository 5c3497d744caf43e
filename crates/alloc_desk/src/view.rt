//! What a desk shows of one moment.
ghost use Rattle.std.specs.Prelude.{◌≡◌, ◌++◌, IfOk, OnOk, map, slice_get};
ghost use Rattle.alloc_desk.specs.Views.{collector_view_of, numbered_in, numbered_of, share_of, shares_of, target_of, view_of};

use allocation_core::{Collector, Core};
use fleet_events::{AllocationNumber, CollectorId, Round, TargetId};
use label_sets::Target;
use lists::{List, Plain};
use price_certificate::{Instance, Plan};
use reach_rules::CollectorName;
use std::alloc::{AllocError, Global};
use target_shares::{NumberedTarget, Share};

/// A live collector.
#[derive(Drop)]
pub struct CollectorView {
    pub id: CollectorId,
    pub name: CollectorName,
    pub draining: bool,
    /// The targets that it holds in the current allocation, in order of number, also those that are live no longer.
    pub held: List<TargetId>,
}

/// One moment of the allocator.
#[derive(Drop)]
pub struct View {
    /// The assignment problem of the moment.
    pub instance: Instance,
    /// The instance and the plan of the last allocation that was published, both empty before the first.
    pub published_instance: Instance,
    pub published_plan: Plan,
    /// The live collectors in order of number.
    pub collectors: List<CollectorView>,
    /// The number of the current allocation, 0 before the first.
    pub current: AllocationNumber,
    /// The open round.
    pub round: Round,
    /// The samples of all reports that are booked.
    pub total: u128,
}

/// What is shown of a state.
pub(crate) fn shown(alloc: Global, core: &Core) -> Result<View, AllocError>
    ensures { IfOk result (λ v. v ≡ view_of core.now) }
{
    let instance = core.instance()?;
    let (published_instance, published_plan) = core.certificate()?;
    let collectors = collector_views(alloc, core)?;
    Ok(View {
        instance,
        published_instance,
        published_plan,
        collectors,
        current: core.current(),
        round: core.round(),
        total: core.total(),
    })
}

/// The live collectors in order of number.
fn collector_views(alloc: Global, core: &Core) -> Result<List<CollectorView>, AllocError>
    ensures { IfOk result (λ l. l ≡ map (collector_view_of core.now) core.now.fleet.collectors) }
{
    let mut views = List::new(alloc);
    for collector in core.collectors() {
        views.push(collector_view(core, collector)?)?;
    }
    Ok(views)
}

fn collector_view(core: &Core, collector: &Collector) -> Result<CollectorView, AllocError>
    ensures { IfOk result (λ v. v ≡ collector_view_of core.now collector.now) }
{
    let name = collector.name.copy()?;
    let held = core.held(collector.id)?;
    Ok(CollectorView {
        id: collector.id,
        name,
        draining: collector.draining,
        held,
    })
}

/// The place of a known target's job in the configuration, and the target.
pub(crate) fn target(core: &Core, number: TargetId) -> Result<Option<(usize, Target)>, AllocError>
    ensures { IfOk result (λ t. t ≡ target_of core.now number) }
{
    match core.target(number) {
        Some((job, target)) => Ok(Some((job, target.copy()?))),
        None => Ok(None),
    }
}

/// What each live collector holds of the job at a place in the configuration, in order of the collectors' numbers.
pub(crate) fn shares(alloc: Global, core: &Core, job: usize) -> Result<List<Share>, AllocError>
    ensures { IfOk result (λ l. l ≡ shares_of core.now job) }
{
    let mut all = List::new(alloc);
    for collector in core.collectors() {
        all.push(share_held(alloc, core, job, collector)?)?;
    }
    Ok(all)
}

fn share_held(
    alloc: Global,
    core: &Core,
    job: usize,
    collector: &Collector,
) -> Result<Share, AllocError>
    ensures { IfOk result (λ s. s ≡ share_of core.now job collector.now) }
{
    let name = collector.name.copy()?;
    let held = core.held(collector.id)?;
    let targets = numbered(alloc, core, job, held.as_slice())?;
    Ok(Share {
        collector: name,
        targets,
    })
}

/// The targets of a job among those of these numbers, in their order.
pub(crate) fn numbered(
    alloc: Global,
    core: &Core,
    job: usize,
    numbers: &[TargetId],
) -> Result<List<NumberedTarget>, AllocError>
    ensures { IfOk result (λ l. l ≡ numbered_of core.now job numbers.now) }
{
    let mut all = List::new(alloc);
    for number in numbers {
        push_numbered(core, job, *number, &mut all)?;
    }
    Ok(all)
}

fn push_numbered(
    core: &Core,
    job: usize,
    number: TargetId,
    all: &mut List<NumberedTarget>,
) -> Result<(), AllocError>
    ensures { OnOk result (all.new ≡ all.old ++ numbered_in job number (slice_get core.now.fleet.known number)) }
{
    match core.target(number) {
        Some((place, target)) if place == job => {
            let target = target.copy()?;
            all.push(NumberedTarget { number, target })
        }
        _ => Ok(()),
    }
}
