//! The live targets that have a text.
ghost use Rattle.std.specs.Prelude.{◌+◌, ◌≤◌, length, IfOk};
ghost use Rattle.page_rows.specs.declared.found.TheConstants.{MOST_FOUND};

use crate::handing_over::{HandingOver, targets_handing_over};
use allocation_core::Core;
use fleet_events::{CollectorId, Round, TargetId};
use label_sets::Target;
use lists::{List, Plain, Text};
use memchr::memmem::Finder;
use reach_rules::CollectorName;
use sd_routes::FoundTarget;
use std::alloc::{AllocError, Global};
use target_shares::NumberedTarget;

/// How many targets are told at most of those that are found.
pub const MOST_FOUND: usize = 100;

/// How many known targets are looked at under one hold of the lock.
pub const LOOKED_AT_ONCE: usize = 4_096;

/// The live targets that are found.
#[derive(Debug, Drop)]
pub struct Found {
    /// How many they are.
    pub all: u32,
    /// The first of them, in order of number.
    pub first: List<FoundTarget>,
}

/// The numbers of those known targets from a number on that have a text, of as many as are looked at once.
pub fn matching(
    alloc: Global,
    core: &Core,
    text: &str,
    from: usize,
) -> Result<Vec<TargetId>, AllocError> {
    let finder = Finder::new(text.as_bytes());
    let mut found = Vec::new(alloc);
    let known = core.fleet().known().iter().enumerate();
    for (number, known) in known.skip(from).take(LOOKED_AT_ONCE) {
        if let (true, Ok(id)) = (has_text(&known.target, &finder), TargetId::try_from(number)) {
            found.push(id)?;
        }
    }
    Ok(found)
}

/// Whether a target has a text in its address or in the value of a label.
fn has_text(target: &Target, finder: &Finder) -> bool {
    let address = target.get("__address__").as_bytes();
    finder.find(address).is_some()
        || target
            .labels()
            .entries()
            .iter()
            .any(|label| finder.find(label.1.as_str().as_bytes()).is_some())
}

/// Those of these targets that are live.
pub fn found_of(alloc: Global, core: &Core, numbers: &[TargetId]) -> Result<Found, AllocError>
    ensures { IfOk result (λ f. length f.first ≤ MOST_FOUND) }
{
    let live = core.fleet().live_marks()?;
    let waiting = targets_handing_over(alloc, core)?;
    let mut first = Vec::new(alloc);
    let mut all: u32 = 0;
    for number in numbers {
        if live.get(*number as usize) == Some(&true) {
            all = all.saturating_add(1);
            if first.len() < MOST_FOUND {
                push_found(core, *number, waiting.as_slice(), &mut first)?;
            }
        }
    }
    Ok(Found {
        all,
        first: List::from_vec(first),
    })
}

fn push_found(
    core: &Core,
    number: TargetId,
    waiting: &[HandingOver],
    found: &mut Vec<FoundTarget>,
) -> Result<(), AllocError>
    ensures { length found.new.items ≤ length found.old.items + 1 }
{
    let Some((job, target)) = core.target(number) else {
        return Ok(());
    };
    let Some(spec) = core.fleet().jobs().get(job) else {
        return Ok(());
    };
    let handing_over = waiting.iter().any(|one| one.target == number);
    let one = found_target(core, number, &spec.name, target, handing_over)?;
    found.push(one)?;
    Ok(())
}

fn found_target(
    core: &Core,
    number: TargetId,
    job: &Text,
    target: &Target,
    handing_over: bool,
) -> Result<FoundTarget, AllocError> {
    let job = job.copy()?;
    let collector = holder_name(core, number)?;
    let since = if collector.is_some() {
        core.held_since(number)
    } else {
        None
    };
    let target = target.copy()?;
    Ok(FoundTarget {
        job,
        target: NumberedTarget { number, target },
        collector,
        handing_over,
        since,
        last_round: last_round(core, number),
    })
}

/// The last round of which a report of a target is booked, if one is.
pub(crate) fn last_round(core: &Core, number: TargetId) -> Option<Round> {
    match core.books().last_round(number) {
        0 => None,
        round => Some(round),
    }
}

/// The collector that holds a target, if one does. It may have left.
pub(crate) fn holder_of(core: &Core, number: TargetId) -> Option<CollectorId> {
    let pairs = core.allocation();
    let Ok(place) = pairs.binary_search_by(|pair| pair.0.cmp(&number)) else {
        return None;
    };
    match pairs.get(place) {
        Some(pair) => Some(pair.1),
        None => None,
    }
}

/// The name of the live collector that holds a target, if one does.
fn holder_name(core: &Core, number: TargetId) -> Result<Option<CollectorName>, AllocError> {
    let Some(holder) = holder_of(core, number) else {
        return Ok(None);
    };
    let collectors = core.collectors();
    match collectors.binary_search_by(|collector| collector.id.cmp(&holder)) {
        Ok(place) => match collectors.get(place) {
            Some(collector) => Ok(Some(collector.name.copy()?)),
            None => Ok(None),
        },
        Err(_) => Ok(None),
    }
}
