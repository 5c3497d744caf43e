//! Cells of tables. Each has the heading of its column, for screens that are too narrow for a table.
use hypertext::Hypertext;
use std::alloc::AllocError;

/// Begins a cell.
pub(crate) fn begin_cell(page: &mut Hypertext, heading: &'static str) -> Result<(), AllocError> {
    page.markup("<td data-h=\"")?;
    page.markup(heading)?;
    page.markup("\">")
}

/// Begins a cell of something that needs attention.
pub(crate) fn begin_bad_cell(
    page: &mut Hypertext,
    heading: &'static str,
) -> Result<(), AllocError> {
    page.markup("<td class=\"bad\" data-h=\"")?;
    page.markup(heading)?;
    page.markup("\">")
}

/// Begins a cell of something that may need attention.
pub(crate) fn begin_cell_of(
    page: &mut Hypertext,
    heading: &'static str,
    is_bad: bool,
) -> Result<(), AllocError> {
    if is_bad {
        begin_bad_cell(page, heading)
    } else {
        begin_cell(page, heading)
    }
}

pub(crate) fn end_cell(page: &mut Hypertext) -> Result<(), AllocError> {
    page.markup("</td>")
}

pub(crate) fn text_cell(
    page: &mut Hypertext,
    heading: &'static str,
    text: &str,
) -> Result<(), AllocError> {
    begin_cell(page, heading)?;
    page.text(text)?;
    end_cell(page)
}

pub(crate) fn number_cell(
    page: &mut Hypertext,
    heading: &'static str,
    number: u64,
) -> Result<(), AllocError> {
    begin_cell(page, heading)?;
    page.number(u128::from(number))?;
    end_cell(page)
}

/// So many of something, with its word for one and for any other number.
pub(crate) fn counted_words(
    page: &mut Hypertext,
    count: u128,
    one: &'static str,
    others: &'static str,
) -> Result<(), AllocError> {
    page.number(count)?;
    page.markup(" ")?;
    page.markup(if count == 1 { one } else { others })
}

/// How long something lasted, in the largest unit of which it has two or more.
pub(crate) fn length_of_time(page: &mut Hypertext, seconds: u64) -> Result<(), AllocError> {
    let (count, unit) = if seconds < 120 {
        (seconds, " s")
    } else if seconds < 7_200 {
        (seconds / 60, " min")
    } else if seconds < 172_800 {
        (seconds / 3_600, " h")
    } else {
        (seconds / 86_400, " days")
    };
    page.number(u128::from(count))?;
    page.markup(unit)
}
