//! The lists that an agent's Prometheus is served.
ghost use Rattle.std.specs.Prelude.{◌≡◌, [], IfOk, map, option_map};
ghost use Rattle.sd_documents.specs.Written.{list_text};
ghost use Rattle.agent_documents.specs.Serving.{group_at, groups_of};

use agent_core::Listed;
use sd_documents::write_groups;
use std::alloc::{AllocError, Global};

/// The list of a job: the groups of those of the targets that are served, by their places.
pub fn list_of(
    alloc: Global,
    targets: &[Listed],
    served: &[usize],
    job: u32,
) -> Result<Vec<u8>, AllocError>
    ensures { IfOk result (λ v. v.items ≡ list_text (groups_of targets.now job served.now)) }
{
    let texts = texts_of(alloc, targets, served, job)?;
    write_groups(alloc, texts.as_slice())
}

fn texts_of<'a>(
    alloc: Global,
    targets: &'a [Listed],
    served: &[usize],
    job: u32,
) -> Result<Vec<&'a str>, AllocError>
    ensures { IfOk result (λ v. map (λ t. t.now) v.items ≡ groups_of targets.now job served.now) }
{
    let mut texts = Vec::new(alloc);
    for place in served {
        if let Some(text) = group_at(targets, *place, job) {
            texts.push(text)?;
        }
    }
    Ok(texts)
}

/// The group of a target at a place, where it is of a job.
fn group_at(targets: &[Listed], place: usize, job: u32) -> Option<&str>
    ensures { option_map (λ t. t.now) result ≡ group_at targets.now job place }
{
    match targets.get(place) {
        Some(listed) if listed.job == job => Some(listed.group.as_str()),
        _ => None,
    }
}
