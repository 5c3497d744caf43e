//! The collectors.
use crate::cells::{
    begin_bad_cell, begin_cell, begin_cell_of, counted_words, end_cell, length_of_time, number_cell,
};
use crate::figures::{CollectorFigures, JobFigures, ShareFigures};
use crate::links::{collector_link, list_link};
use crate::notes::LoadNote;
use crate::page::Shown;
use hypertext::Hypertext;
use std::alloc::AllocError;

const HEAD: &str =
    "<table id=\"collectors\"><caption>Collectors</caption><thead><tr><th scope=\"col\">Collector</th><th scope=\"col\">Id</th><th scope=\"col\">State</th><th scope=\"col\">Holds</th><th scope=\"col\">Of at most</th>";

const EVEN: &str = "<th scope=\"col\">Even load</th><th scope=\"col\">Cap</th>";

const LAST: &str =
    "<th scope=\"col\">Took</th><th scope=\"col\">Asked</th><th scope=\"col\">Waited for</th><th scope=\"col\">By job</th></tr></thead><tbody>\n";

pub(crate) fn write_collectors(page: &mut Hypertext, shown: &Shown<'_>) -> Result<(), AllocError> {
    page.markup(HEAD)?;
    if !shown.loads.is_empty() {
        page.markup(EVEN)?;
    }
    page.markup(LAST)?;
    for collector in &shown.figures.collectors {
        write_collector(page, shown, collector)?;
    }
    page.markup("</tbody></table>\n")
}

fn write_collector(
    page: &mut Hypertext,
    shown: &Shown<'_>,
    collector: &CollectorFigures,
) -> Result<(), AllocError> {
    page.markup("<tr><th scope=\"row\">")?;
    collector_link(page, collector.id, collector.name.as_str())?;
    page.markup("</th>")?;
    number_cell(page, "Id", u64::from(collector.id))?;
    write_standing(page, collector)?;
    write_room(page, collector)?;
    write_load(page, shown.loads, collector.id)?;
    write_taken(page, collector, shown.figures.allocation)?;
    write_asked(page, shown, collector.id)?;
    write_waited_for(page, collector)?;
    write_shares(page, shown.figures.jobs.as_slice(), collector)?;
    page.markup("</tr>\n")
}

/// Whether it is emptied, and what it holds.
fn write_standing(page: &mut Hypertext, collector: &CollectorFigures) -> Result<(), AllocError> {
    begin_cell_of(page, "State", collector.draining)?;
    page.markup(if collector.draining {
        "draining"
    } else {
        "live"
    })?;
    end_cell(page)?;
    number_cell(page, "Holds", collector.held)
}

/// How many it may hold, with a bar of what it holds of them.
fn write_room(page: &mut Hypertext, collector: &CollectorFigures) -> Result<(), AllocError> {
    begin_cell(page, "Of at most")?;
    match collector.room {
        Some(room) => write_bar(page, collector.held, room)?,
        None => page.markup("no limit")?,
    }
    end_cell(page)
}

fn write_bar(page: &mut Hypertext, held: u64, room: u64) -> Result<(), AllocError> {
    page.markup("<meter min=\"0\" max=\"")?;
    page.number(u128::from(room))?;
    page.markup("\" value=\"")?;
    page.number(u128::from(held))?;
    page.markup("\"></meter> ")?;
    page.number(u128::from(room))
}

/// How many targets a collector is to hold, and how many it may, where loads are made even.
fn write_load(page: &mut Hypertext, loads: &[LoadNote], id: u32) -> Result<(), AllocError> {
    if loads.is_empty() {
        return Ok(());
    }
    match loads.iter().find(|load| load.collector == id) {
        Some(load) => {
            write_even(page, load.even)?;
            number_cell(page, "Cap", load.cap)
        }
        None => page.markup("<td></td><td></td>"),
    }
}

fn write_even(page: &mut Hypertext, even: Option<u64>) -> Result<(), AllocError> {
    match even {
        Some(even) => number_cell(page, "Even load", even),
        None => page.markup("<td></td>"),
    }
}

/// The allocation of its list.
fn write_taken(
    page: &mut Hypertext,
    collector: &CollectorFigures,
    allocation: u32,
) -> Result<(), AllocError> {
    begin_cell_of(page, "Took", collector.is_behind(allocation))?;
    if collector.taken == 0 {
        page.markup("nothing")?;
    } else {
        page.number(u128::from(collector.taken))?;
    }
    end_cell(page)
}

/// How long ago it asked for a list.
fn write_asked(page: &mut Hypertext, shown: &Shown<'_>, id: u32) -> Result<(), AllocError> {
    let asked = shown.asked.iter().find(|(other, _)| *other == id);
    let ago = match asked {
        Some((_, at)) => shown.standing.seconds_since(*at),
        None => None,
    };
    match ago {
        Some(seconds) => {
            begin_cell(page, "Asked")?;
            length_of_time(page, seconds)?;
            page.markup(" ago")?;
        }
        None => {
            begin_bad_cell(page, "Asked")?;
            page.markup("not yet")?;
        }
    }
    end_cell(page)
}

fn write_waited_for(page: &mut Hypertext, collector: &CollectorFigures) -> Result<(), AllocError> {
    begin_cell_of(page, "Waited for", collector.is_waited_for())?;
    page.number(u128::from(collector.waited_for))?;
    end_cell(page)
}

/// What a collector holds, job by job, and how many it may: of jobs of which it holds some, or for which it has a limit of its own.
fn write_shares(
    page: &mut Hypertext,
    jobs: &[JobFigures],
    collector: &CollectorFigures,
) -> Result<(), AllocError> {
    let shares = collector.shares.as_slice();
    let told = shares.iter().filter(|share| is_told(share)).count();
    begin_cell(page, "By job")?;
    page.markup("<details><summary>")?;
    counted_words(page, told as u128, "job", "jobs")?;
    page.markup("</summary>")?;
    for (job, share) in jobs.iter().zip(shares.iter()) {
        if is_told(share) {
            list_link(page, job.name.as_str(), collector.name.as_str())?;
            write_share(page, share)?;
        }
    }
    page.markup("</details>")?;
    end_cell(page)
}

fn is_told(share: &ShareFigures) -> bool {
    share.held > 0 || share.has_own_limit
}

fn write_share(page: &mut Hypertext, share: &ShareFigures) -> Result<(), AllocError> {
    page.markup(" ")?;
    page.number(u128::from(share.held))?;
    if share.limit > 0 {
        page.markup(" of ")?;
        page.number(u128::from(share.limit))?;
    }
    if share.has_own_limit {
        page.markup(", own limit")?;
    }
    page.markup("<br>")
}
