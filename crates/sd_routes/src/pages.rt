//! The JSON texts of pages.
ghost use Rattle.std.specs.Prelude.{◌≡◌, IfOk, OnOk};
ghost use Rattle.serde_json.specs.Data.{object, no_members};
ghost use Rattle.serde_json.specs.View.{view, items_view, members_view};
ghost use Rattle.serde_json.specs.Written.{compact_text};
ghost use Rattle.json_values.specs.Spelling.{items_data, list_data};
ghost use Rattle.sd_routes.specs.Pages.{job_data, jobs_data, labels_data, group_data, share_data, shares_data, uncovered_data};

use crate::link::{collector_link, job_link};
use crate::members::object_of;
use json_values::text_of;
use label_sets::LabelName;
use lists::Text;
use sd_documents::Job;
use serde_json::{Map, Value, json, put};
use std::alloc::{AllocError, Global};
use target_shares::{NumberedTarget, Share};

/// The jobs: an object from each job's name to an object with its link.
#[tactic(auto, using(crate::proofs::Floats::jobs_no_float))]
pub fn jobs_page(alloc: Global, jobs: &[Job]) -> Result<Text, AllocError>
    ensures { IfOk result (λ t. t ≡ compact_text (jobs_data jobs.now)) }
{
    let page = jobs_value(alloc, jobs)?;
    text_of(alloc, &page)
}

fn jobs_value(alloc: Global, jobs: &[Job]) -> Result<Value, AllocError>
    ensures { IfOk result (λ v. view v ≡ jobs_data jobs.now) }
{
    let mut members = Map::new(alloc);
    for job in jobs {
        let value = job_value(alloc, job.name.as_str())?;
        put(&mut members, alloc, job.name.as_str(), value)?;
    }
    Ok(Value::Object(members))
}

fn job_value(alloc: Global, job: &str) -> Result<Value, AllocError>
    ensures { IfOk result (λ v. view v ≡ job_data job.now) }
{
    let link = job_link(alloc, job)?;
    let link = link.as_str();
    json!(in alloc; {"_link": link})
}

/// The targets of a job: an object from each collector's name to an object with its link and what it holds of the job.
#[tactic(auto, using(crate::proofs::Floats::shares_no_float))]
pub fn job_page(alloc: Global, job: &str, shares: &[Share]) -> Result<Text, AllocError>
    ensures { IfOk result (λ t. t ≡ compact_text (shares_data job.now shares.now)) }
{
    let page = shares_value(alloc, job, shares)?;
    text_of(alloc, &page)
}

fn shares_value(alloc: Global, job: &str, shares: &[Share]) -> Result<Value, AllocError>
    ensures { IfOk result (λ v. view v ≡ shares_data job.now shares.now) }
{
    let mut members = Map::new(alloc);
    for share in shares {
        let value = share_value(alloc, job, share)?;
        put(&mut members, alloc, share.collector.as_str(), value)?;
    }
    Ok(Value::Object(members))
}

fn share_value(alloc: Global, job: &str, share: &Share) -> Result<Value, AllocError>
    ensures { IfOk result (λ v. view v ≡ share_data job.now share.now) }
{
    let link = collector_link(alloc, job, share.collector.as_str())?;
    let link = link.as_str();
    let targets = groups_value(alloc, share.targets.as_slice())?;
    json!(in alloc; {"_link": link, "targets": targets})
}

/// What a collector holds of a job: the list of the targets' groups.
#[tactic(auto, using(crate::proofs::Floats::groups_no_float))]
pub fn targets_page(alloc: Global, targets: &[NumberedTarget]) -> Result<Text, AllocError>
    ensures { IfOk result (λ t. t ≡ compact_text (list_data group_data targets.now)) }
{
    let page = groups_value(alloc, targets)?;
    text_of(alloc, &page)
}

/// The targets of a job that no list has: the groups of those that nobody holds and some collector reaches, of those that are handed over,
/// and of those that no collector reaches.
#[tactic(auto, using(crate::proofs::Floats::uncovered_no_float))]
pub fn uncovered_page(
    alloc: Global,
    full: &[NumberedTarget],
    handing_over: &[NumberedTarget],
    unreached: &[NumberedTarget],
) -> Result<Text, AllocError>
    ensures { IfOk result (λ t. t ≡ compact_text (uncovered_data full.now handing_over.now unreached.now)) }
{
    let page = uncovered_value(alloc, full, handing_over, unreached)?;
    text_of(alloc, &page)
}

fn uncovered_value(
    alloc: Global,
    full: &[NumberedTarget],
    handing_over: &[NumberedTarget],
    unreached: &[NumberedTarget],
) -> Result<Value, AllocError>
    ensures { IfOk result (λ v. view v ≡ uncovered_data full.now handing_over.now unreached.now) }
{
    let mut members = Map::new(alloc);
    let done = put_uncovered(&mut members, alloc, full, handing_over, unreached);
    object_of(done, members)
}

fn put_uncovered(
    members: &mut Map<String, Value>,
    alloc: Global,
    full: &[NumberedTarget],
    handing_over: &[NumberedTarget],
    unreached: &[NumberedTarget],
) -> Result<(), AllocError>
    requires { members_view members.old.entries ≡ no_members }
    ensures { OnOk result (object (members_view members.new.entries) ≡ uncovered_data full.now handing_over.now unreached.now) }
{
    let full = groups_value(alloc, full)?;
    put(members, alloc, "full", full)?;
    let handing_over = groups_value(alloc, handing_over)?;
    put(members, alloc, "handing_over", handing_over)?;
    let unreached = groups_value(alloc, unreached)?;
    put(members, alloc, "unreached", unreached)
}

fn groups_value(alloc: Global, targets: &[NumberedTarget]) -> Result<Value, AllocError>
    ensures { IfOk result (λ v. view v ≡ list_data group_data targets.now) }
{
    Ok(Value::Array(group_values(alloc, targets)?))
}

fn group_values(alloc: Global, targets: &[NumberedTarget]) -> Result<Vec<Value>, AllocError>
    ensures { IfOk result (λ vs. items_view vs.items ≡ items_data group_data targets.now) }
{
    let mut values = Vec::with_capacity(alloc, targets.len())?;
    for target in targets {
        values.push(group_value(alloc, target)?)?;
    }
    Ok(values)
}

/// A target's group, with the target's number as a further label.
fn group_value(alloc: Global, numbered: &NumberedTarget) -> Result<Value, AllocError>
    ensures { IfOk result (λ v. view v ≡ group_data numbered.now) }
{
    let labels = numbered.target.labels().entries();
    let labels = labels_value(alloc, labels, numbered.number)?;
    let address = numbered.target.get("__address__");
    json!(in alloc; {"labels": labels, "targets": [address]})
}

pub(crate) fn labels_value(
    alloc: Global,
    labels: &[(LabelName, Text)],
    number: u32,
) -> Result<Value, AllocError>
    ensures { IfOk result (λ v. view v ≡ labels_data labels.now number) }
{
    let mut members = Map::new(alloc);
    for label in labels {
        let text = Value::try_from_str(alloc, label.1.as_str())?;
        put(&mut members, alloc, label.0.as_str(), text)?;
    }
    let number = Value::String(format!(in alloc; "{number}")?);
    put(&mut members, alloc, "__meta_allocator_target", number)?;
    Ok(Value::Object(members))
}
