//! The last allocations.
use crate::cells::{begin_cell_of, counted_words, end_cell, number_cell, text_cell};
use crate::notes::{AllocationNote, MoveNote};
use hypertext::Hypertext;
use lists::Text;
use std::alloc::AllocError;

const HEAD: &str =
    "<table id=\"allocations\"><caption>Last allocations</caption><thead><tr><th scope=\"col\">Number</th><th scope=\"col\">Published</th><th scope=\"col\">Covered</th><th scope=\"col\">Moved</th><th scope=\"col\">At draining</th><th scope=\"col\">Milliseconds</th><th scope=\"col\">Moved from, to</th></tr></thead><tbody>\n";

pub(crate) fn write_allocations(
    page: &mut Hypertext,
    allocations: &[AllocationNote],
) -> Result<(), AllocError> {
    page.markup(HEAD)?;
    for allocation in allocations {
        write_allocation(page, allocation)?;
    }
    page.markup("</tbody></table>\n")
}

fn write_allocation(page: &mut Hypertext, allocation: &AllocationNote) -> Result<(), AllocError> {
    page.markup("<tr><th scope=\"row\">")?;
    page.number(u128::from(allocation.number))?;
    page.markup("</th>")?;
    text_cell(page, "Published", allocation.at.as_str())?;
    number_cell(page, "Covered", allocation.covered)?;
    number_cell(page, "Moved", allocation.moved)?;
    begin_cell_of(page, "At draining", allocation.left > 0)?;
    page.number(u128::from(allocation.left))?;
    end_cell(page)?;
    number_cell(page, "Milliseconds", allocation.milliseconds)?;
    write_moves(page, allocation)?;
    page.markup("</tr>\n")
}

/// What moved from whom to whom, which unfolds.
fn write_moves(page: &mut Hypertext, allocation: &AllocationNote) -> Result<(), AllocError> {
    if allocation.moved == 0 {
        return page.markup("<td></td>");
    }
    page.markup("<td class=\"long\" data-h=\"Moved from, to\"><details><summary>")?;
    let moved = u128::from(allocation.moved);
    counted_words(page, moved, "target", "targets")?;
    page.markup("</summary>")?;
    for row in allocation.moves.as_slice() {
        write_move(page, row)?;
    }
    write_more(page, allocation.more_moves)?;
    page.markup("</details>")?;
    end_cell(page)
}

fn write_move(page: &mut Hypertext, row: &MoveNote) -> Result<(), AllocError> {
    page.number(u128::from(row.count))?;
    page.markup(" of ")?;
    page.text(row.job.as_str())?;
    page.markup(" from ")?;
    page.text(row.from.as_str())?;
    write_goal(page, &row.to)?;
    page.markup("<br>")
}

fn write_goal(page: &mut Hypertext, to: &Option<Text>) -> Result<(), AllocError> {
    match to {
        Some(name) => {
            page.markup(" to ")?;
            page.text(name.as_str())
        }
        None => page.markup(" to nobody"),
    }
}

/// How many moved targets are told in no line.
fn write_more(page: &mut Hypertext, more: u64) -> Result<(), AllocError> {
    if more == 0 {
        return Ok(());
    }
    page.markup("and ")?;
    page.number(u128::from(more))?;
    page.markup(" more")
}
