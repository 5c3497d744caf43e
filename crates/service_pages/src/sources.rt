//! The discovery sources: those that fail first.
use crate::cells::{begin_bad_cell, begin_cell, end_cell, length_of_time, number_cell, text_cell};
use crate::notes::{ListCounts, SourceNote};
use crate::standing::Standing;
use hypertext::Hypertext;
use lists::Text;
use std::alloc::AllocError;

const HEAD: &str =
    "<table id=\"sources\"><caption>Discovery sources</caption><thead><tr><th scope=\"col\">Source</th><th scope=\"col\">Asked</th><th scope=\"col\">Failed</th><th scope=\"col\">Targets</th><th scope=\"col\">Dropped</th><th scope=\"col\">Without address</th><th scope=\"col\">Last list</th><th scope=\"col\">Last refresh</th><th scope=\"col\">Last fault</th></tr></thead><tbody>\n";

pub(crate) fn write_sources(
    page: &mut Hypertext,
    sources: &[SourceNote],
    standing: &Standing,
) -> Result<(), AllocError> {
    page.markup(HEAD)?;
    for source in sources {
        if source.fails() {
            write_source(page, source, standing)?;
        }
    }
    for source in sources {
        if !source.fails() {
            write_source(page, source, standing)?;
        }
    }
    page.markup("</tbody></table>\n")
}

/// The sources of a job, with their URLs, which stand by number.
pub(crate) fn write_sources_of(
    page: &mut Hypertext,
    job: &str,
    sources: &[SourceNote],
    urls: &[Text],
    standing: &Standing,
) -> Result<(), AllocError> {
    page.markup(HEAD)?;
    for source in sources {
        if source.job.as_str() == job {
            page.markup("<tr><th scope=\"row\">")?;
            page.text(url_of(source, urls))?;
            write_rest(page, source, standing)?;
        }
    }
    page.markup("</tbody></table>\n")
}

/// The URL of a source, empty where it is not told.
fn url_of<'a>(source: &SourceNote, urls: &'a [Text]) -> &'a str {
    match urls.get((source.number as usize).saturating_sub(1)) {
        Some(url) => url.as_str(),
        None => "",
    }
}

fn write_source(
    page: &mut Hypertext,
    source: &SourceNote,
    standing: &Standing,
) -> Result<(), AllocError> {
    page.markup("<tr><th scope=\"row\">")?;
    page.text(source.job.as_str())?;
    page.markup("/")?;
    page.number(u128::from(source.number))?;
    write_rest(page, source, standing)
}

/// What follows the name of a source in its row.
fn write_rest(
    page: &mut Hypertext,
    source: &SourceNote,
    standing: &Standing,
) -> Result<(), AllocError> {
    page.markup("</th>")?;
    number_cell(page, "Asked", source.refreshes)?;
    number_cell(page, "Failed", source.failures)?;
    write_counts(page, source.counts)?;
    write_last_list(page, standing.seconds_since(source.succeeded))?;
    text_cell(page, "Last refresh", source.at.as_str())?;
    write_fault(page, source)?;
    page.markup("</tr>\n")
}

/// What its last list has, and what is left out of it. Nothing where it gave none.
fn write_counts(page: &mut Hypertext, counts: Option<ListCounts>) -> Result<(), AllocError> {
    match counts {
        Some(counts) => {
            number_cell(page, "Targets", counts.targets)?;
            number_cell(page, "Dropped", counts.dropped)?;
            number_cell(page, "Without address", counts.without_address)
        }
        None => page.markup("<td></td><td></td><td></td>"),
    }
}

fn write_last_list(page: &mut Hypertext, ago: Option<u64>) -> Result<(), AllocError> {
    match ago {
        Some(seconds) => {
            begin_cell(page, "Last list")?;
            length_of_time(page, seconds)?;
            page.markup(" ago")?;
        }
        None => {
            begin_bad_cell(page, "Last list")?;
            page.markup("none yet")?;
        }
    }
    end_cell(page)
}

fn write_fault(page: &mut Hypertext, source: &SourceNote) -> Result<(), AllocError> {
    if !source.fails() {
        return page.markup("<td></td>");
    }
    page.markup("<td class=\"bad long\" data-h=\"Last fault\">")?;
    page.text(source.fault.as_str())?;
    end_cell(page)
}
