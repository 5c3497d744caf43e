//! Targets, one a row.
ghost use Rattle.std.specs.Prelude.{◌≡◌, ◌-◌, length};

use crate::cells::{begin_bad_cell, begin_cell, end_cell, number_cell, text_cell};
use crate::links::{collector_link, job_link};
use hypertext::Hypertext;
use lists::Text;
use std::alloc::AllocError;

/// How many targets a page has at most.
pub const MOST_ROWS: usize = 1_000;

/// What is told of a live target.
#[derive(Drop)]
pub struct TargetRow {
    pub number: u32,
    pub address: Text,
    pub job: Text,
    /// Its labels, without those whose names begin with two underscores.
    pub labels: Vec<(Text, Text)>,
    pub coverage: Coverage,
    /// From which allocation on its collector has held it without a break.
    pub since: Option<u32>,
    /// The last round of which a report of it is booked, if one is.
    pub last_round: Option<u32>,
}

/// Who has a target.
#[derive(Drop)]
pub enum Coverage {
    /// The collector of this number and name holds it.
    Holds(u32, Text),
    /// The same, and the collector's list leaves it out, since another list has it.
    Awaits(u32, Text),
    /// Nobody: each collector that reaches it is full, or a reallocation is due.
    Full,
    /// Nobody: no collector reaches it that is not draining.
    Unreached,
}

/// Some of a number of targets.
#[derive(Clone, Copy)]
pub struct Rows<'a> {
    /// The first of them.
    pub first: &'a [TargetRow],
    /// How many there are.
    pub all: u64,
}

/// What a table of targets tells of each beside its address and labels.
#[derive(Clone, Copy, PartialEq, Eq)]
pub(crate) enum Beside {
    Coverage,
    Job,
    /// Its number, its job and who has it.
    All,
}

const BEGIN: &str =
    "<table id=\"targets\"><caption>Targets</caption><thead><tr><th scope=\"col\">Target</th><th scope=\"col\">";

const END: &str =
    "</th><th scope=\"col\">Since allocation</th><th scope=\"col\">Last report in round</th><th scope=\"col\">Labels</th></tr></thead><tbody>\n";

impl Rows<'_> {
    /// How many targets have no row.
    pub(crate) fn left_out(&self) -> u64
        ensures { result ≡ self.now.all - length self.now.first.now }
    {
        self.all.saturating_sub(self.first.len() as u64)
    }
}

pub(crate) fn write_targets(
    page: &mut Hypertext,
    rows: Rows<'_>,
    beside: Beside,
) -> Result<(), AllocError> {
    page.markup(BEGIN)?;
    page.markup(match beside {
        Beside::Coverage => "Collector",
        Beside::Job => "Job",
        Beside::All => "Number</th><th scope=\"col\">Job</th><th scope=\"col\">Collector",
    })?;
    page.markup(END)?;
    for row in rows.first {
        write_row(page, row, beside)?;
    }
    page.markup("</tbody></table>\n")?;
    write_left_out(page, rows, beside)
}

fn write_row(page: &mut Hypertext, row: &TargetRow, beside: Beside) -> Result<(), AllocError> {
    page.markup("<tr><th scope=\"row\">")?;
    page.text(row.address.as_str())?;
    page.markup("</th>")?;
    match beside {
        Beside::Coverage => write_coverage(page, &row.coverage)?,
        Beside::Job => write_job(page, row)?,
        Beside::All => write_all(page, row)?,
    }
    write_number(page, "Since allocation", row.since)?;
    write_number(page, "Last report in round", row.last_round)?;
    write_labels(page, row.labels.as_slice())?;
    page.markup("</tr>\n")
}

/// Its job, and whether the list of its collector has it.
fn write_job(page: &mut Hypertext, row: &TargetRow) -> Result<(), AllocError> {
    match row.coverage {
        Coverage::Awaits(_, _) => {
            begin_bad_cell(page, "Job")?;
            page.text(row.job.as_str())?;
            page.markup(", once another list lets it go")?;
            end_cell(page)
        }
        _ => text_cell(page, "Job", row.job.as_str()),
    }
}

/// Its number, its job, and who holds it or why nobody does.
fn write_all(page: &mut Hypertext, row: &TargetRow) -> Result<(), AllocError> {
    number_cell(page, "Number", u64::from(row.number))?;
    page.markup("<td class=\"long\" data-h=\"Job\">")?;
    job_link(page, row.job.as_str())?;
    end_cell(page)?;
    write_coverage(page, &row.coverage)
}

/// Who holds it, or why nobody does.
fn write_coverage(page: &mut Hypertext, coverage: &Coverage) -> Result<(), AllocError> {
    match coverage {
        Coverage::Holds(id, name) => {
            begin_cell(page, "Collector")?;
            collector_link(page, *id, name.as_str())?;
        }
        Coverage::Awaits(id, name) => {
            begin_bad_cell(page, "Collector")?;
            collector_link(page, *id, name.as_str())?;
            page.markup(", once another list lets it go")?;
        }
        Coverage::Full => {
            begin_bad_cell(page, "Collector")?;
            page.markup("none: who reaches it is full")?;
        }
        Coverage::Unreached => {
            begin_bad_cell(page, "Collector")?;
            page.markup("none reaches it")?;
        }
    }
    end_cell(page)
}

fn write_number(
    page: &mut Hypertext,
    heading: &'static str,
    number: Option<u32>,
) -> Result<(), AllocError> {
    match number {
        Some(number) => {
            begin_cell(page, heading)?;
            page.number(u128::from(number))?;
            end_cell(page)
        }
        None => page.markup("<td></td>"),
    }
}

fn write_labels(page: &mut Hypertext, labels: &[(Text, Text)]) -> Result<(), AllocError> {
    page.markup("<td class=\"long\" data-h=\"Labels\">")?;
    for label in labels {
        page.text(label.0.as_str())?;
        page.markup("=&quot;")?;
        page.text(label.1.as_str())?;
        page.markup("&quot; ")?;
    }
    end_cell(page)
}

/// How many have no row, and how one of them is found.
fn write_left_out(page: &mut Hypertext, rows: Rows<'_>, beside: Beside) -> Result<(), AllocError> {
    let left_out = rows.left_out();
    if left_out == 0 {
        return Ok(());
    }
    page.markup("<p>And ")?;
    page.number(u128::from(left_out))?;
    page.markup(match beside {
        Beside::Coverage | Beside::Job =>
            " more. <code>/targets?search=TEXT</code> finds those that have the text in their address or in the value of a label.</p>\n",
        Beside::All => " more. A longer text finds fewer.</p>\n",
    })
}
