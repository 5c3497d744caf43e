//! Live targets as rows of a page for people.
use crate::found::{holder_of, last_round};
use crate::uncovered::is_reached;
use allocation_core::Core;
use fleet_events::{AllocationNumber, CollectorId, TargetId};
use label_sets::Target;
use lists::{Plain, Text};
use service_pages::{Coverage, TargetRow};
use std::alloc::{AllocError, Global};

/// Adds the row of a target that a live collector holds. One that has left holds nothing.
pub(crate) fn push_held(
    alloc: Global,
    core: &Core,
    number: TargetId,
    holder: CollectorId,
    awaits: bool,
    rows: &mut Vec<TargetRow>,
) -> Result<(), AllocError> {
    match keeper_of(alloc, core, holder, awaits)? {
        Some(coverage) => push_row(alloc, core, number, coverage, rows),
        None => Ok(()),
    }
}

/// Who has what a collector holds, where it is live.
fn keeper_of(
    alloc: Global,
    core: &Core,
    holder: CollectorId,
    awaits: bool,
) -> Result<Option<Coverage>, AllocError> {
    let collectors = core.collectors();
    let Ok(place) = collectors.binary_search_by(|collector| collector.id.cmp(&holder)) else {
        return Ok(None);
    };
    let Some(collector) = collectors.get(place) else {
        return Ok(None);
    };
    let name = Text::from_str(alloc, collector.name.as_str())?;
    if awaits {
        Ok(Some(Coverage::Awaits(holder, name)))
    } else {
        Ok(Some(Coverage::Holds(holder, name)))
    }
}

/// Adds the row of a live target, whoever holds it, or why nobody does.
pub(crate) fn push_live(
    alloc: Global,
    core: &Core,
    number: TargetId,
    awaits: bool,
    rows: &mut Vec<TargetRow>,
) -> Result<(), AllocError> {
    let holder = match holder_of(core, number) {
        Some(holder) => keeper_of(alloc, core, holder, awaits)?,
        None => None,
    };
    match holder {
        Some(coverage) => push_row(alloc, core, number, coverage, rows),
        None => push_row(alloc, core, number, why_unheld(core, number), rows),
    }
}

/// Why nobody holds a live target.
fn why_unheld(core: &Core, number: TargetId) -> Coverage {
    if is_reached(core, number as usize) {
        Coverage::Full
    } else {
        Coverage::Unreached
    }
}

/// Adds the row of a target.
pub(crate) fn push_row(
    alloc: Global,
    core: &Core,
    number: TargetId,
    coverage: Coverage,
    rows: &mut Vec<TargetRow>,
) -> Result<(), AllocError> {
    match row_of(alloc, core, number, coverage)? {
        Some(row) => Ok(rows.push(row)?),
        None => Ok(()),
    }
}

fn row_of(
    alloc: Global,
    core: &Core,
    number: TargetId,
    coverage: Coverage,
) -> Result<Option<TargetRow>, AllocError> {
    let Some((job, target)) = core.target(number) else {
        return Ok(None);
    };
    let Some(spec) = core.fleet().jobs().get(job) else {
        return Ok(None);
    };
    let address = Text::from_str(alloc, target.get("__address__"))?;
    let job = spec.name.copy()?;
    let labels = labels_of(alloc, target)?;
    let since = since_of(core, number, &coverage);
    Ok(Some(TargetRow {
        number,
        address,
        job,
        labels,
        coverage,
        since,
        last_round: last_round(core, number),
    }))
}

/// The labels whose names do not begin with two underscores.
fn labels_of(alloc: Global, target: &Target) -> Result<Vec<(Text, Text)>, AllocError> {
    let mut labels = Vec::new(alloc);
    for label in target.labels().entries() {
        if !label.0.as_str().starts_with("__") {
            let name = Text::from_str(alloc, label.0.as_str())?;
            labels.push((name, label.1.copy()?))?;
        }
    }
    Ok(labels)
}

/// Since when a collector has it, where one does.
fn since_of(core: &Core, number: TargetId, coverage: &Coverage) -> Option<AllocationNumber> {
    match coverage {
        Coverage::Holds(_, _) | Coverage::Awaits(_, _) => core.held_since(number),
        Coverage::Full | Coverage::Unreached => None,
    }
}
