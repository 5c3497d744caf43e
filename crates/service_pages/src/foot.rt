//! What stands at the foot of the page: version, time, configuration and journal.
use crate::cells::{counted_words, length_of_time};
use crate::figures::Figures;
use crate::standing::Standing;
use hypertext::Hypertext;
use std::alloc::AllocError;

pub(crate) fn write_foot(
    page: &mut Hypertext,
    figures: &Figures,
    standing: &Standing,
) -> Result<(), AllocError> {
    page.markup("<footer><p>allocd ")?;
    page.text(standing.version)?;
    write_time(
        page,
        ", up for ",
        standing.seconds_since(standing.started),
        "",
    )?;
    write_configuration(page, standing)?;
    write_journal(page, figures, standing)?;
    write_connections(page, standing)?;
    write_work(page, figures, standing)?;
    page.markup("</p></footer>\n")
}

/// So many seconds between words, where that is known.
fn write_time(
    page: &mut Hypertext,
    before: &'static str,
    seconds: Option<u64>,
    behind: &'static str,
) -> Result<(), AllocError> {
    match seconds {
        Some(seconds) => {
            page.markup(before)?;
            length_of_time(page, seconds)?;
            page.markup(behind)
        }
        None => Ok(()),
    }
}

fn write_configuration(page: &mut Hypertext, standing: &Standing) -> Result<(), AllocError> {
    if standing.is_followed {
        page.markup("; the configuration is followed")?;
    } else {
        page.markup("; an earlier configuration is followed")?;
    }
    let seconds = standing.seconds_since(standing.followed_since);
    write_time(page, ", read ", seconds, " ago")
}

fn write_journal(
    page: &mut Hypertext,
    figures: &Figures,
    standing: &Standing,
) -> Result<(), AllocError> {
    if standing.is_broken {
        return page.markup("; the journal is broken");
    }
    if !standing.has_journal {
        return page.markup("; no journal is written");
    }
    page.markup("; the journal is written, ")?;
    page.number(figures.entries as u128)?;
    page.markup(" entries since it began")
}

fn write_connections(page: &mut Hypertext, standing: &Standing) -> Result<(), AllocError> {
    if standing.most_connections == 0 {
        return Ok(());
    }
    page.markup("; ")?;
    page.number(u128::from(standing.connections))?;
    page.markup(" of ")?;
    page.number(u128::from(standing.most_connections))?;
    page.markup(" connections, ")?;
    page.number(u128::from(standing.turned_away))?;
    page.markup(" turned away")
}

/// What was done since the start.
fn write_work(
    page: &mut Hypertext,
    figures: &Figures,
    standing: &Standing,
) -> Result<(), AllocError> {
    page.markup("; ")?;
    let refreshes = u128::from(standing.refreshes);
    counted_words(
        page,
        refreshes,
        "refresh of a source, ",
        "refreshes of sources, ",
    )?;
    page.number(u128::from(standing.failed_refreshes))?;
    page.markup(" in vain; ")?;
    let searches = u128::from(standing.reallocations);
    counted_words(page, searches, "reallocation; ", "reallocations; ")?;
    page.number(figures.samples)?;
    page.markup(" samples booked")
}
