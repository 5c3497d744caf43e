//! The allocator's list of a collector and a job, as the targets of an agent.
ghost use Rattle.std.specs.Prelude.{◌≡◌, [], IfOk, OnOk, codes};
ghost use Rattle.label_sets.specs.Labels.{with_label};
ghost use Rattle.agent_documents.specs.Lists.{group_said, is_shared, listed_by, listed_for, lists_said, refused, seen_with, targets_said, targets_with, with_alone, with_seen};
ghost use Rattle.agent_documents.specs.Reading.{Gives};

use crate::error::{DocumentError, Part};
use crate::numbers::small_in;
use crate::series::series_of_labels;
use crate::url::url_of;
use agent_core::{Listed, Series};
use indexmap::{IndexMap, IndexSet};
use label_sets::{Finished, LabelError, Labels, Target, finish};
use lists::{Plain, Text};
use sd_documents::{Group, SdError, read_groups};
use std::alloc::{AllocError, Global};

/// Reads the list of a job, the index of which is given. A target without a number, as one that acknowledges a list, is served and not
/// reported.
pub fn read_list(alloc: Global, job: u32, bytes: &[u8]) -> Result<Vec<Listed>, DocumentError>
    ensures { Gives (λ v. v.items) result (lists_said job bytes.now) }
{
    let groups = read_groups(alloc, bytes).map_err(refused)?;
    targets_of(alloc, job, groups.as_slice())
}

/// Why a list of groups is refused.
fn refused(error: SdError) -> DocumentError
    ensures { result ≡ refused error }
{
    match error {
        SdError::Memory => DocumentError::Memory,
        SdError::NotJson => DocumentError::NotJson,
        SdError::Shape(_, _)
        | SdError::BadLabelName
        | SdError::RepeatedJob(_)
        | SdError::UnsupportedDiscovery(_)
        | SdError::TooMany(_) => DocumentError::Shape(Part::Group),
    }
}

fn targets_of(alloc: Global, job: u32, groups: &[Group]) -> Result<Vec<Listed>, DocumentError>
    ensures { Gives (λ v. v.items) result (targets_said job groups.now) }
{
    let mut targets = Vec::new(alloc);
    for group in groups {
        let listed = listed_of(alloc, job, group)?;
        targets.push(listed)?;
    }
    Ok(targets)
}

/// The target of a group.
fn listed_of(alloc: Global, job: u32, group: &Group) -> Result<Listed, DocumentError>
    ensures { Gives (λ l. l) result (group_said job group.now) }
{
    let [address] = group.targets.as_slice() else {
        return Err(DocumentError::Shape(Part::Group));
    };
    let number = small_in(group.labels.get("__meta_allocator_target"));
    let labels = at_address(&group.labels, address.as_str())?;
    let finished = finish(alloc, &labels)?;
    listed_by(alloc, job, number, &finished)
}

/// The target that labels are finished to.
fn listed_by(
    alloc: Global,
    job: u32,
    number: Option<u32>,
    finished: &Finished,
) -> Result<Listed, DocumentError>
    ensures { Gives (λ l. l) result (listed_by job number finished.now) }
{
    match finished {
        Finished::Target(target) => Ok(listed_for(alloc, job, number, target)?),
        Finished::NoAddress => Err(DocumentError::Shape(Part::Group)),
    }
}

/// Labels with an address.
fn at_address(labels: &Labels, address: &str) -> Result<Labels, AllocError>
    ensures { IfOk result (λ l. l ≡ with_label labels.now (codes "__address__") address.now) }
{
    let mut labels = labels.copy()?;
    match labels.set("__address__", address) {
        Ok(()) => Ok(labels),
        Err(LabelError::BadLabelName) => unreachable!(),
        Err(LabelError::Memory) => Err(AllocError),
    }
}

/// The target of a list, with its number if it has one.
#[tactic(auto, unfolding(crate::specs::Lists::listed_for))]
fn listed_for(
    alloc: Global,
    job: u32,
    number: Option<u32>,
    target: &Target,
) -> Result<Listed, AllocError>
    ensures { IfOk result (λ l. l ≡ listed_for job number target.now) }
{
    let group = Text::from_str(alloc, target.text())?;
    let series = series_of_labels(target.labels())?;
    let url = url_of(alloc, target)?;
    Ok(Listed {
        job,
        group,
        target: number.unwrap_or(0),
        series,
        alone: number.is_some(),
        shared: false,
        url,
    })
}

/// The targets of all jobs' lists: of those that share a series none is alone, and those with a number are marked as shared.
pub fn all_targets(alloc: Global, targets: Vec<Listed>) -> Result<IndexSet<Listed>, AllocError>
    ensures { IfOk result (λ s. s.keys ≡ targets_with (seen_with [] targets.items) [] targets.items) }
{
    let seen = seen_in(alloc, targets.as_slice())?;
    marked(alloc, &seen, targets)
}

/// The targets, marked by the series that were seen.
fn marked(
    alloc: Global,
    seen: &IndexMap<Series, bool>,
    targets: Vec<Listed>,
) -> Result<IndexSet<Listed>, AllocError>
    ensures { IfOk result (λ s. s.keys ≡ targets_with seen.now.entries [] targets.items) }
{
    let mut all = IndexSet::new(alloc);
    for listed in targets {
        all.insert(with_alone(seen, listed))?;
    }
    Ok(all)
}

/// The target, if it has a number, is alone or shares its series.
fn with_alone(seen: &IndexMap<Series, bool>, listed: Listed) -> Listed
    ensures { result ≡ with_alone seen.now.entries listed }
{
    let mut listed = listed;
    let is_shared = is_shared(seen, &listed.series);
    listed.shared = listed.alone && is_shared;
    listed.alone = listed.alone && !is_shared;
    listed
}

fn is_shared(seen: &IndexMap<Series, bool>, series: &Series) -> bool
    ensures { result ≡ is_shared seen.now.entries series.now }
{
    match seen.get(series) {
        Some(shared) => *shared,
        None => false,
    }
}

/// The series of targets, and whether there is more than one target of each.
fn seen_in(alloc: Global, targets: &[Listed]) -> Result<IndexMap<Series, bool>, AllocError>
    ensures { IfOk result (λ m. m.entries ≡ seen_with [] targets.now) }
{
    let mut seen = IndexMap::new(alloc);
    for listed in targets {
        see(&mut seen, &listed.series)?;
    }
    Ok(seen)
}

fn see(seen: &mut IndexMap<Series, bool>, series: &Series) -> Result<(), AllocError>
    ensures { OnOk result (seen.new.entries ≡ with_seen seen.old.entries series.now) }
{
    let before = seen.contains_key(series);
    seen.insert(series.copy()?, before)?;
    Ok(())
}
