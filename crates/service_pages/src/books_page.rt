//! The page of what was booked in a round.
ghost use Rattle.std.specs.Prelude.{◌≡◌, ◌-◌, length};

use crate::cells::{begin_cell, begin_cell_of, end_cell, number_cell};
use crate::frame::{begin_title, end_page, end_title, finished, write_links};
use crate::links::{collector_link, job_link};
use crate::targets::MOST_ROWS;
use hypertext::Hypertext;
use lists::Text;
use std::alloc::{AllocError, Global};

const FORM: &str =
    "<form action=\"/books\"><label>Round <input name=\"round\" type=\"number\" min=\"1\" max=\"4294967295\" required value=\"";

const BEGIN: &str =
    "<table id=\"books\"><caption>Reports</caption><thead><tr><th scope=\"col\">Job</th><th scope=\"col\">Collector</th><th scope=\"col\">Answered</th><th scope=\"col\">Not answered</th><th scope=\"col\">Missing</th><th scope=\"col\">Samples</th></tr></thead><tbody>\n";

const MEANING: &str =
    "<p>A target is missing that the last list of its collector has now, and of which nothing was reported. That is known of the open round and of the last one that is over.</p>\n";

/// What the page of a round shows.
#[derive(Clone, Copy)]
pub struct ShownBooks<'a> {
    /// The round that is told of. None where no round is over that the books have.
    pub round: Option<u32>,
    /// The round that is open.
    pub open: u32,
    pub lines: &'a [BookLine<'a>],
}

/// What was reported of a job in a round, by all collectors or by one.
#[derive(Clone, Copy)]
pub struct BookLine<'a> {
    pub job: &'a str,
    pub reporter: Reporter<'a>,
    /// How many scrapes were answered.
    pub up: u64,
    /// How many were not.
    pub down: u64,
    /// Of how many targets nothing was reported, where that is known.
    pub missing: Option<u64>,
    pub samples: u64,
}

/// Who reported.
#[derive(Clone, Copy)]
pub enum Reporter<'a> {
    All,
    /// The live collector of this number and name.
    Live(u32, &'a str),
    /// The collector of this number, which has left.
    Left(u32),
}

/// The page of a round, in HTML.
pub fn books_document(alloc: Global, shown: &ShownBooks<'_>) -> Result<Text, AllocError> {
    let mut page = Hypertext::new(alloc);
    write_page(&mut page, shown)?;
    finished(page)
}

fn write_page(page: &mut Hypertext, shown: &ShownBooks<'_>) -> Result<(), AllocError> {
    begin_title(page)?;
    page.markup(": books")?;
    write_round(page, shown.round)?;
    end_title(page)?;
    page.markup("<h1>Books")?;
    write_round(page, shown.round)?;
    page.markup("</h1>\n")?;
    write_links(page)?;
    write_open(page, shown.open)?;
    write_form(page, shown)?;
    write_told(page, shown)?;
    end_page(page)
}

fn write_round(page: &mut Hypertext, round: Option<u32>) -> Result<(), AllocError> {
    match round {
        Some(round) => {
            page.markup(" of round ")?;
            page.number(u128::from(round))
        }
        None => Ok(()),
    }
}

fn write_open(page: &mut Hypertext, open: u32) -> Result<(), AllocError> {
    page.markup("<p>Round ")?;
    page.number(u128::from(open))?;
    page.markup(" is open.</p>\n")
}

/// A form that asks for another round, with the one that is shown in it.
fn write_form(page: &mut Hypertext, shown: &ShownBooks<'_>) -> Result<(), AllocError> {
    page.markup(FORM)?;
    page.number(u128::from(shown.round.unwrap_or(shown.open)))?;
    page.markup("\"></label> <button>Show</button></form>\n")
}

fn write_told(page: &mut Hypertext, shown: &ShownBooks<'_>) -> Result<(), AllocError> {
    match shown.round {
        Some(_) => write_lines(page, shown.lines),
        None => page.markup("<p>No round is over of which the books have a report.</p>\n"),
    }
}

fn write_lines(page: &mut Hypertext, lines: &[BookLine<'_>]) -> Result<(), AllocError> {
    page.markup(BEGIN)?;
    for line in lines.iter().take(MOST_ROWS) {
        write_line(page, line)?;
    }
    page.markup("</tbody></table>\n")?;
    write_left_out(page, left_out(lines))?;
    page.markup(MEANING)
}

/// How many lines have no row.
fn left_out(lines: &[BookLine<'_>]) -> usize
    ensures { result ≡ length lines.now - MOST_ROWS }
{
    lines.len().saturating_sub(MOST_ROWS)
}

fn write_left_out(page: &mut Hypertext, left_out: usize) -> Result<(), AllocError> {
    if left_out == 0 {
        return Ok(());
    }
    page.markup("<p>And ")?;
    page.number(left_out as u128)?;
    page.markup(" more. The JSON of this page has all of them.</p>\n")
}

fn write_line(page: &mut Hypertext, line: &BookLine<'_>) -> Result<(), AllocError> {
    page.markup("<tr><th scope=\"row\">")?;
    job_link(page, line.job)?;
    page.markup("</th>")?;
    write_reporter(page, line.reporter)?;
    number_cell(page, "Answered", line.up)?;
    begin_cell_of(page, "Not answered", line.down > 0)?;
    page.number(u128::from(line.down))?;
    end_cell(page)?;
    write_missing(page, line.missing)?;
    number_cell(page, "Samples", line.samples)?;
    page.markup("</tr>\n")
}

fn write_reporter(page: &mut Hypertext, reporter: Reporter<'_>) -> Result<(), AllocError> {
    begin_cell(page, "Collector")?;
    match reporter {
        Reporter::All => page.markup("all")?,
        Reporter::Live(id, name) => collector_link(page, id, name)?,
        Reporter::Left(id) => write_left(page, id)?,
    }
    end_cell(page)
}

fn write_left(page: &mut Hypertext, id: u32) -> Result<(), AllocError> {
    page.number(u128::from(id))?;
    page.markup(", which left")
}

fn write_missing(page: &mut Hypertext, missing: Option<u64>) -> Result<(), AllocError> {
    match missing {
        Some(missing) => {
            begin_cell_of(page, "Missing", missing > 0)?;
            page.number(u128::from(missing))?;
            end_cell(page)
        }
        None => page.markup("<td></td>"),
    }
}
