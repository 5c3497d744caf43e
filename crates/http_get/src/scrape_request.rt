//! How a target is asked for its metrics.
ghost use Rattle.std.specs.Prelude.{◌≡◌, IfOk};
ghost use Rattle.http_get.specs.Gets.{get_said, get_said_in, request_path};

use crate::get::Get;
use crate::path::path_of;
use crate::query::query_of;
use label_sets::Target;
use lists::Text;
use sd_documents::{Job, Param};
use std::alloc::{AllocError, Global};

/// How a target of a job is asked for its metrics. There is no way but over `http`.
pub fn get_of(alloc: Global, job: &Job, target: &Target) -> Result<Option<Get>, AllocError>
    ensures { IfOk result (λ get. get ≡ get_said job.now.params target.now) }
{
    if target.get("__scheme__") != "http" {
        return Ok(None);
    }
    let address = Text::from_str(alloc, target.get("__address__"))?;
    let path = path_with_query(alloc, job.params.as_slice(), target)?;
    Ok(Some(Get { address, path }))
}

/// The same for the job at an index. There is no way where no job stands there.
pub fn get_in(
    alloc: Global,
    jobs: &[Job],
    job: usize,
    target: &Target,
) -> Result<Option<Get>, AllocError>
    ensures { IfOk result (λ get. get ≡ get_said_in jobs.now job target.now) }
{
    match jobs.get(job) {
        Some(job) => get_of(alloc, job, target),
        None => Ok(None),
    }
}

fn path_with_query(alloc: Global, params: &[Param], target: &Target) -> Result<Text, AllocError>
    ensures { IfOk result (λ path. path ≡ request_path params.now target.now) }
{
    let mut path = path_of(alloc, target.get("__metrics_path__"))?;
    let query = query_of(alloc, params, target.labels())?;
    if !query.is_empty() {
        path.push_str("?")?;
        path.push_str(query.as_str())?;
    }
    Ok(Text::from_string(path))
}
