//! The page of a job.
use crate::cells::{begin_bad_cell, begin_cell_of, end_cell, number_cell};
use crate::frame::{begin_title, end_page, end_title, finished, write_links};
use crate::links::{begin_targets_link, begin_uncovered_link, collector_link};
use crate::moment::{Moment, write_moment};
use crate::notes::SourceNote;
use crate::sources::write_sources_of;
use crate::standing::Standing;
use crate::targets::{Beside, Rows, write_targets};
use hypertext::Hypertext;
use lists::Text;
use std::alloc::{AllocError, Global};

const COUNTS: &str =
    "<table id=\"counts\"><caption>How many targets</caption><thead><tr><th scope=\"col\">Live</th><th scope=\"col\">Covered</th><th scope=\"col\">Uncovered</th><th scope=\"col\">Unreached</th><th scope=\"col\">Handing over</th></tr></thead><tbody>\n";

const COLLECTORS: &str =
    "<table id=\"collectors\"><caption>Collectors</caption><thead><tr><th scope=\"col\">Collector</th><th scope=\"col\">Holds</th></tr></thead><tbody>\n";

/// What the page of a job shows.
#[derive(Clone, Copy)]
pub struct ShownJob<'a> {
    pub name: &'a str,
    /// How many targets are live.
    pub live: u64,
    /// How many of them somebody holds.
    pub covered: u64,
    /// How many of them nobody holds.
    pub uncovered: u64,
    /// How many of the uncovered ones no collector reaches that is not draining.
    pub unreached: u64,
    /// How many of the covered ones the list of the holder leaves out, since another list has them.
    pub handing_over: u64,
    /// How many each collector holds, of those that hold one.
    pub shares: &'a [JobShare],
    pub sources: &'a [SourceNote],
    /// The URLs of the job's sources, by their numbers.
    pub urls: &'a [Text],
    pub targets: Rows<'a>,
    pub moment: Moment,
    pub standing: &'a Standing,
}

/// How many targets of a job a collector holds.
#[derive(Drop)]
pub struct JobShare {
    /// The collector's number.
    pub id: u32,
    /// Its name.
    pub name: Text,
    pub held: u32,
}

/// The page of a job, in HTML.
pub fn job_document(alloc: Global, shown: &ShownJob<'_>) -> Result<Text, AllocError> {
    let mut page = Hypertext::new(alloc);
    write_page(&mut page, shown)?;
    finished(page)
}

fn write_page(page: &mut Hypertext, shown: &ShownJob<'_>) -> Result<(), AllocError> {
    begin_title(page)?;
    page.markup(": job ")?;
    page.text(shown.name)?;
    end_title(page)?;
    page.markup("<h1>Job ")?;
    page.text(shown.name)?;
    page.markup("</h1>\n")?;
    write_links(page)?;
    write_moment(page, shown.moment)?;
    write_lists(page, shown.name)?;
    write_counts(page, shown)?;
    write_collectors(page, shown.shares)?;
    write_sources_of(page, shown.name, shown.sources, shown.urls, shown.standing)?;
    write_targets(page, shown.targets, Beside::Coverage)?;
    end_page(page)
}

/// Links to the lists of the job.
fn write_lists(page: &mut Hypertext, job: &str) -> Result<(), AllocError> {
    page.markup("<p>As JSON: ")?;
    begin_targets_link(page, job)?;
    page.markup("who holds what</a>, ")?;
    begin_uncovered_link(page, job)?;
    page.markup("what no list has</a>.</p>\n")
}

fn write_counts(page: &mut Hypertext, shown: &ShownJob<'_>) -> Result<(), AllocError> {
    page.markup(COUNTS)?;
    page.markup("<tr>")?;
    number_cell(page, "Live", shown.live)?;
    number_cell(page, "Covered", shown.covered)?;
    write_uncovered(page, shown)?;
    write_bad_count(page, "Unreached", shown.unreached)?;
    write_bad_count(page, "Handing over", shown.handing_over)?;
    page.markup("</tr>\n</tbody></table>\n")
}

fn write_uncovered(page: &mut Hypertext, shown: &ShownJob<'_>) -> Result<(), AllocError> {
    if shown.uncovered == 0 {
        return number_cell(page, "Uncovered", 0);
    }
    begin_bad_cell(page, "Uncovered")?;
    begin_uncovered_link(page, shown.name)?;
    page.number(u128::from(shown.uncovered))?;
    page.markup("</a>")?;
    end_cell(page)
}

/// A count that needs attention where it is not 0.
fn write_bad_count(
    page: &mut Hypertext,
    heading: &'static str,
    count: u64,
) -> Result<(), AllocError> {
    begin_cell_of(page, heading, count > 0)?;
    page.number(u128::from(count))?;
    end_cell(page)
}

fn write_collectors(page: &mut Hypertext, shares: &[JobShare]) -> Result<(), AllocError> {
    page.markup(COLLECTORS)?;
    for share in shares {
        page.markup("<tr><th scope=\"row\">")?;
        collector_link(page, share.id, share.name.as_str())?;
        page.markup("</th>")?;
        number_cell(page, "Holds", u64::from(share.held))?;
        page.markup("</tr>\n")?;
    }
    page.markup("</tbody></table>\n")
}
