//! Links to what a job and a collector have.
use hypertext::Hypertext;
use std::alloc::AllocError;

/// Begins a link to the uncovered targets of a job.
pub(crate) fn begin_uncovered_link(page: &mut Hypertext, job: &str) -> Result<(), AllocError> {
    page.markup("<a href=\"/jobs/")?;
    page.segment(job)?;
    page.markup("/uncovered\">")
}

/// Begins a link to who holds what of a job.
pub(crate) fn begin_targets_link(page: &mut Hypertext, job: &str) -> Result<(), AllocError> {
    page.markup("<a href=\"/jobs/")?;
    page.segment(job)?;
    page.markup("/targets\">")
}

/// A link to a job.
pub(crate) fn job_link(page: &mut Hypertext, job: &str) -> Result<(), AllocError> {
    page.markup("<a href=\"/jobs/")?;
    page.segment(job)?;
    page.markup("\">")?;
    page.text(job)?;
    page.markup("</a>")
}

/// A link to a collector, by its number.
pub(crate) fn collector_link(page: &mut Hypertext, id: u32, name: &str) -> Result<(), AllocError> {
    page.markup("<a href=\"/collectors/")?;
    page.number(u128::from(id))?;
    page.markup("\">")?;
    page.text(name)?;
    page.markup("</a>")
}

/// A link to what a collector has of a job, which is only looked at.
pub(crate) fn list_link(
    page: &mut Hypertext,
    job: &str,
    collector: &str,
) -> Result<(), AllocError> {
    page.markup("<a href=\"/jobs/")?;
    page.segment(job)?;
    page.markup("/targets?collector_id=")?;
    page.segment(collector)?;
    page.markup("&amp;take=false\">")?;
    page.text(job)?;
    page.markup("</a>")
}
