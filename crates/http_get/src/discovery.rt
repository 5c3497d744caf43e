//! What the answer of a discovery source says.
ghost use Rattle.std.specs.Prelude.{◌≡◌, ◌≤◌, length, IfOk};
ghost use Rattle.http_get.specs.Discoveries.{Gives, groups_said, groups_answered, found_said, files_listing, listing, listing_from, listed_said};

use crate::error::RefreshError;
use crate::reply::Reply;
use fleet_events::Event;
use lists::{List, Plain};
use relabel::{Found, Rules};
use sd_documents::{Group, Job, SdError, is_json_media, read_groups};
use std::alloc::{AllocError, Global};

/// What an answer of a source lists, and how many targets of it are left out.
#[derive(Drop)]
pub struct Listing {
    /// The source lists the final targets.
    pub event: Event,
    /// How many targets a rule dropped.
    pub dropped: usize,
    /// How many targets had no address after the rules.
    pub no_address: usize,
}

/// What an answer of a job's source says: the final targets of all its groups in order, or the first refusal, by the
/// status, the media type and the body in this order. Source 1 + i is the job's i-th URL.
pub fn found(
    alloc: Global,
    job: &Job,
    rules: &Rules,
    source: u32,
    reply: &Reply,
) -> Result<Event, RefreshError>
    requires { source ≤ length job.now.http_urls }
    ensures { Gives result (found_said job.now rules.now source reply.now) }
{
    let groups = answered(alloc, reply)?;
    let Listing { event, .. } = listing_from(alloc, job, rules, source, source, groups.as_slice())?;
    Ok(event)
}

/// The same, with how many targets are left out.
pub fn listed(
    alloc: Global,
    job: &Job,
    rules: &Rules,
    source: u32,
    reply: &Reply,
) -> Result<Listing, RefreshError>
    requires { source ≤ length job.now.http_urls }
    ensures { Gives result (listed_said job.now rules.now source reply.now) }
{
    let groups = answered(alloc, reply)?;
    let listing = listing_from(alloc, job, rules, source, source, groups.as_slice())?;
    Ok(listing)
}

/// The groups of an answer, or the first refusal.
fn answered(alloc: Global, reply: &Reply) -> Result<List<Group>, RefreshError>
    ensures { Gives result (groups_answered reply.now) }
{
    if reply.status != 200 {
        return Err(RefreshError::Status(reply.status));
    }
    if !is_json_media(reply.media.as_str()) {
        return Err(RefreshError::Media);
    }
    groups_in(alloc, reply.body.as_slice())
}

fn groups_in(alloc: Global, body: &[u8]) -> Result<List<Group>, RefreshError>
    ensures { Gives result (groups_said body.now) }
{
    match read_groups(alloc, body) {
        Ok(groups) => Ok(groups),
        Err(SdError::Memory) => Err(RefreshError::Memory),
        Err(fault) => Err(RefreshError::Document(fault)),
    }
}

/// What a job's source of files lists, by the groups of its files: their final targets in order. As in Prometheus they have no label of a URL.
pub fn listed_in_files(
    alloc: Global,
    job: &Job,
    rules: &Rules,
    source: u32,
    groups: &[Group],
) -> Result<Listing, AllocError>
    ensures { IfOk result (λ l. l ≡ files_listing job.now rules.now source groups.now) }
{
    listing_from(alloc, job, rules, 0, source, groups)
}

/// The source lists the targets of these groups, which have the labels of groups of another source, or of its own.
fn listing_from(
    alloc: Global,
    job: &Job,
    rules: &Rules,
    from: u32,
    source: u32,
    groups: &[Group],
) -> Result<Listing, AllocError>
    requires { from ≤ length job.now.http_urls }
    ensures { IfOk result (λ l. l ≡ listing_from job.now rules.now from source groups.now) }
{
    let Found {
        targets,
        dropped,
        no_address,
    } = rules.discover(alloc, job, from, groups)?;
    let job = job.name.copy()?;
    Ok(Listing {
        event: Event::Discover {
            job,
            source,
            targets,
        },
        dropped,
        no_address,
    })
}
