//! What needs attention, in words, each with a link.
use crate::cells::counted_words;
use crate::counted::Counted;
use crate::figures::{CollectorFigures, JobFigures};
use crate::links::begin_uncovered_link;
use crate::needs::{NEEDS, Need, is_needed};
use crate::page::Shown;
use hypertext::Hypertext;
use std::alloc::AllocError;

/// How many names are told in one line at most.
const MOST_NAMES: usize = 8;

pub(crate) fn write_attention(
    page: &mut Hypertext,
    shown: &Shown<'_>,
    counted: &Counted,
) -> Result<(), AllocError> {
    page.markup("<ul>\n")?;
    for need in &NEEDS {
        if is_needed(*need, counted) {
            page.markup("<li class=\"bad\">")?;
            write_need(page, *need, shown, counted)?;
            page.markup("</li>\n")?;
        }
    }
    write_draining(page, shown.figures.collectors.as_slice(), counted)?;
    page.markup("</ul>\n")
}

fn write_need(
    page: &mut Hypertext,
    need: Need,
    shown: &Shown<'_>,
    counted: &Counted,
) -> Result<(), AllocError> {
    match need {
        Need::Journal => page.markup(
            "The journal is broken: nothing more is kept until another start (<a href=\"/livez\">live</a>)",
        ),
        Need::Device => page.markup(
            "The device of the journal does not come back (<a href=\"/-/ready\">ready</a>)",
        ),
        Need::Uncovered => write_uncovered(page, shown.figures.jobs.as_slice(), counted),
        Need::NoTargets => page.markup(
            "No target is live: <a href=\"#sources\">no source lists one</a>",
        ),
        Need::Configuration => page.markup(
            "The configuration that was read last is faulty: <a href=\"/scrape_configs\">the one before it</a> is followed",
        ),
        Need::Sources => write_failing(page, counted),
        Need::Behind => write_behind(page, shown.figures.allocation, counted),
        Need::HandingOver => write_handing_over(page, shown, counted),
        Need::Connections => page.markup(
            "All connections are held: others are answered 503 (<a href=\"/metrics\">metrics</a>)",
        ),
    }
}

fn write_uncovered(
    page: &mut Hypertext,
    jobs: &[JobFigures],
    counted: &Counted,
) -> Result<(), AllocError> {
    page.number(counted.uncovered)?;
    page.markup(" of ")?;
    counted_words(page, counted.live, "target has", "targets have")?;
    page.markup(" no collector:")?;
    let uncovered = jobs.iter().filter(|job| job.uncovered() > 0);
    for job in uncovered.take(MOST_NAMES) {
        page.markup(" ")?;
        begin_uncovered_link(page, job.name.as_str())?;
        page.text(job.name.as_str())?;
        page.markup(" ")?;
        page.number(u128::from(job.uncovered()))?;
        page.markup("</a>")?;
    }
    Ok(())
}

fn write_failing(page: &mut Hypertext, counted: &Counted) -> Result<(), AllocError> {
    page.number(counted.failing as u128)?;
    page.markup(" of ")?;
    counted_words(
        page,
        counted.sources as u128,
        "source fails",
        "sources fail",
    )?;
    page.markup(": <a href=\"#sources\">the last lists stay</a>")
}

fn write_behind(
    page: &mut Hypertext,
    allocation: u32,
    counted: &Counted,
) -> Result<(), AllocError> {
    page.number(counted.behind as u128)?;
    page.markup(" of ")?;
    let collectors = counted.collectors as u128;
    counted_words(page, collectors, "collector has", "collectors have")?;
    page.markup(" <a href=\"#collectors\">not taken allocation ")?;
    page.number(u128::from(allocation))?;
    page.markup("</a>")
}

fn write_handing_over(
    page: &mut Hypertext,
    shown: &Shown<'_>,
    counted: &Counted,
) -> Result<(), AllocError> {
    counted_words(page, counted.handing_over, "target waits", "targets wait")?;
    page.markup(" for who had them: <a href=\"#collectors\">")?;
    counted_words(
        page,
        counted.waited_for as u128,
        "collector has not asked since",
        "collectors have not asked since",
    )?;
    page.markup("</a>")?;
    if shown.figures.waited_for_left > 0 {
        page.markup(", and ")?;
        page.number(u128::from(shown.figures.waited_for_left))?;
        page.markup(" of them for collectors that left")?;
    }
    Ok(())
}

fn write_draining(
    page: &mut Hypertext,
    collectors: &[CollectorFigures],
    counted: &Counted,
) -> Result<(), AllocError> {
    if counted.draining == 0 {
        return Ok(());
    }
    page.markup("<li>")?;
    let count = counted.draining as u128;
    counted_words(
        page,
        count,
        "collector is draining:",
        "collectors are draining:",
    )?;
    let draining = collectors.iter().filter(|collector| collector.draining);
    for collector in draining.take(MOST_NAMES) {
        page.markup(" ")?;
        page.text(collector.name.as_str())?;
    }
    page.markup("</li>\n")
}
