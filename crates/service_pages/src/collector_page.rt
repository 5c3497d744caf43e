//! The page of a collector.
use crate::cells::{
    begin_bad_cell, begin_cell, begin_cell_of, end_cell, length_of_time, number_cell,
};
use crate::frame::{begin_title, end_page, end_title, finished, write_links};
use crate::links::list_link;
use crate::moment::{Moment, write_moment};
use crate::standing::Standing;
use crate::targets::{Beside, Rows, write_targets};
use hypertext::Hypertext;
use lists::Text;
use std::alloc::{AllocError, Global};

const STATE: &str =
    "<table id=\"state\"><caption>State</caption><thead><tr><th scope=\"col\">Id</th><th scope=\"col\">State</th><th scope=\"col\">Holds</th><th scope=\"col\">Took</th><th scope=\"col\">Asked</th></tr></thead><tbody>\n<tr>";

const JOBS: &str =
    "<table id=\"jobs\"><caption>By job</caption><thead><tr><th scope=\"col\">Job</th><th scope=\"col\">Holds</th></tr></thead><tbody>\n";

const LIMITS: &str =
    "<table id=\"limits\"><caption>Limits of its own</caption><thead><tr><th scope=\"col\">Job</th><th scope=\"col\">At most</th></tr></thead><tbody>\n";

const CHANGES: &str =
    "<h2>To change it</h2>\n<p><code>$ALLOCD</code> is where this page is, such as <code>http://localhost:8080</code>. With tokens, add <code>-H \"authorization: Bearer $TOKEN\"</code>.</p>\n<pre>";

/// What the page of a collector shows.
#[derive(Clone, Copy)]
pub struct ShownCollector<'a> {
    pub id: u32,
    pub name: &'a str,
    pub draining: bool,
    /// The rules of whom it reaches, as JSON.
    pub reach: &'a str,
    /// Its own limits, by the names of jobs.
    pub limits: &'a [(Text, u32)],
    /// How many live targets of a job it holds, by the names of the jobs of which it holds one.
    pub held: &'a [(Text, u32)],
    /// The number of the allocation of its oldest list, if it has one.
    pub taken: Option<u32>,
    /// When it asked for a list last, in seconds since 1970, if it did.
    pub last_take: Option<u64>,
    pub targets: Rows<'a>,
    pub moment: Moment,
    pub standing: &'a Standing,
}

/// The page of a collector, in HTML.
pub fn collector_document(alloc: Global, shown: &ShownCollector<'_>) -> Result<Text, AllocError> {
    let mut page = Hypertext::new(alloc);
    write_page(&mut page, shown)?;
    finished(page)
}

fn write_page(page: &mut Hypertext, shown: &ShownCollector<'_>) -> Result<(), AllocError> {
    begin_title(page)?;
    page.markup(": collector ")?;
    page.text(shown.name)?;
    end_title(page)?;
    page.markup("<h1>Collector ")?;
    page.text(shown.name)?;
    page.markup("</h1>\n")?;
    write_links(page)?;
    write_moment(page, shown.moment)?;
    write_state(page, shown)?;
    write_reach(page, shown.reach)?;
    write_limits(page, shown.limits)?;
    write_jobs(page, shown)?;
    write_targets(page, shown.targets, Beside::Job)?;
    write_changes(page, shown.id)?;
    end_page(page)
}

fn write_state(page: &mut Hypertext, shown: &ShownCollector<'_>) -> Result<(), AllocError> {
    page.markup(STATE)?;
    number_cell(page, "Id", u64::from(shown.id))?;
    begin_cell_of(page, "State", shown.draining)?;
    page.markup(if shown.draining { "draining" } else { "live" })?;
    end_cell(page)?;
    number_cell(page, "Holds", shown.targets.all)?;
    write_taken(page, shown.taken, shown.moment.allocation)?;
    write_asked(page, shown)?;
    page.markup("</tr>\n</tbody></table>\n")
}

/// The allocation of its oldest list.
fn write_taken(
    page: &mut Hypertext,
    taken: Option<u32>,
    allocation: u32,
) -> Result<(), AllocError> {
    match taken {
        Some(number) => {
            begin_cell_of(page, "Took", number < allocation)?;
            page.number(u128::from(number))?;
        }
        None => {
            begin_cell_of(page, "Took", allocation > 0)?;
            page.markup("nothing")?;
        }
    }
    end_cell(page)
}

/// How long ago it asked for a list.
fn write_asked(page: &mut Hypertext, shown: &ShownCollector<'_>) -> Result<(), AllocError> {
    let ago = match shown.last_take {
        Some(at) => shown.standing.seconds_since(at),
        None => None,
    };
    match ago {
        Some(seconds) => {
            begin_cell(page, "Asked")?;
            length_of_time(page, seconds)?;
            page.markup(" ago")?;
        }
        None => {
            begin_bad_cell(page, "Asked")?;
            page.markup("not yet")?;
        }
    }
    end_cell(page)
}

fn write_reach(page: &mut Hypertext, reach: &str) -> Result<(), AllocError> {
    page.markup("<p>Reaches, by the first rule that holds: <code>")?;
    page.text(reach)?;
    page.markup("</code></p>\n")
}

fn write_limits(page: &mut Hypertext, limits: &[(Text, u32)]) -> Result<(), AllocError> {
    if limits.is_empty() {
        return page.markup("<p>It has no limits of its own.</p>\n");
    }
    page.markup(LIMITS)?;
    for limit in limits {
        page.markup("<tr><th scope=\"row\">")?;
        page.text(limit.0.as_str())?;
        page.markup("</th>")?;
        number_cell(page, "At most", u64::from(limit.1))?;
        page.markup("</tr>\n")?;
    }
    page.markup("</tbody></table>\n")
}

/// What it holds of each job, with a link to its list, which is only looked at.
fn write_jobs(page: &mut Hypertext, shown: &ShownCollector<'_>) -> Result<(), AllocError> {
    page.markup(JOBS)?;
    for share in shown.held {
        page.markup("<tr><th scope=\"row\">")?;
        list_link(page, share.0.as_str(), shown.name)?;
        page.markup("</th>")?;
        number_cell(page, "Holds", u64::from(share.1))?;
        page.markup("</tr>\n")?;
    }
    page.markup("</tbody></table>\n")
}

/// What changes it, as lines for a shell.
fn write_changes(page: &mut Hypertext, id: u32) -> Result<(), AllocError> {
    page.markup(CHANGES)?;
    write_change(page, "-X POST", id, "/drain", "it is to be emptied")?;
    write_change(page, "-X POST", id, "/release", "its lists count as let go")?;
    let limits = "-X PUT --json '{\"limits\":{\"JOB\":100}}'";
    write_change(
        page,
        limits,
        id,
        "/limits",
        "it takes at most so many of a job",
    )?;
    write_change(page, "-X DELETE", id, "", "it leaves")?;
    page.markup("</pre>\n")
}

fn write_change(
    page: &mut Hypertext,
    words: &'static str,
    id: u32,
    place: &'static str,
    meaning: &'static str,
) -> Result<(), AllocError> {
    page.markup("curl ")?;
    page.markup(words)?;
    page.markup(" $ALLOCD/collectors/")?;
    page.number(u128::from(id))?;
    page.markup(place)?;
    page.markup("  # ")?;
    page.markup(meaning)?;
    page.markup("\n")
}
