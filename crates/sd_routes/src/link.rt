//! The links of pages.
ghost use Rattle.std.specs.Prelude.{◌≡◌, ◌++◌, IfOk, OnOk, string_bytes};
ghost use Rattle.sd_routes.specs.Links.{escaped, job_link, uncovered_link, collector_link};

use form_urlencoded::Serializer;
use percent_encoding::{AsciiSet, NON_ALPHANUMERIC, ascii_set, percent_encode};
use std::alloc::{AllocError, Global};

/// What is escaped in a segment of a path: all but the unreserved characters (RFC 3986, section 2.3).
const RESERVED: AsciiSet = ascii_set!(
    NON_ALPHANUMERIC
        .remove(b'-')
        .remove(b'.')
        .remove(b'_')
        .remove(b'~')
);

/// The link of a job's targets.
pub(crate) fn job_link(alloc: Global, job: &str) -> Result<String, AllocError>
    ensures { IfOk result (λ link. string_bytes link ≡ job_link job.now) }
{
    let mut link = String::from_str(alloc, "/jobs/")?;
    push_escaped(&mut link, job)?;
    link.push_str("/targets")?;
    Ok(link)
}

/// The link of a job's targets that no list has.
pub(crate) fn uncovered_link(alloc: Global, job: &str) -> Result<String, AllocError>
    ensures { IfOk result (λ link. string_bytes link ≡ uncovered_link job.now) }
{
    let mut link = String::from_str(alloc, "/jobs/")?;
    push_escaped(&mut link, job)?;
    link.push_str("/uncovered")?;
    Ok(link)
}

fn push_escaped(link: &mut String, segment: &str) -> Result<(), AllocError>
    ensures { OnOk result (string_bytes link.new ≡ string_bytes link.old ++ escaped segment.now) }
{
    percent_encode(segment.as_bytes(), RESERVED).append_to(link)?;
    Ok(())
}

/// The link of what a collector holds of a job.
pub(crate) fn collector_link(alloc: Global, job: &str, name: &str) -> Result<String, AllocError>
    ensures { IfOk result (λ link. string_bytes link ≡ collector_link job.now name.now) }
{
    let mut link = job_link(alloc, job)?;
    let mut query = Serializer::new(String::new(alloc));
    query.append_pair("collector_id", name)?;
    let query = query.finish();
    link.push_str("?")?;
    link.push_str(query.as_str())?;
    Ok(link)
}
