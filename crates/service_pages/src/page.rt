//! The page for people.
use crate::allocations::write_allocations;
use crate::attention::write_attention;
use crate::collectors::write_collectors;
use crate::counted::Counted;
use crate::figures::Figures;
use crate::foot::write_foot;
use crate::frame::{begin_title, end_page, end_title, finished, write_links};
use crate::jobs::write_jobs;
use crate::needs::count_needs;
use crate::notes::{AllocationNote, LoadNote, SourceNote};
use crate::search_form::write_search;
use crate::sources::write_sources;
use crate::standing::Standing;
use hypertext::Hypertext;
use lists::Text;
use std::alloc::{AllocError, Global};

/// What the page shows.
#[derive(Clone, Copy)]
pub struct Shown<'a> {
    pub figures: &'a Figures,
    pub sources: &'a [SourceNote],
    /// The last ones, the latest first.
    pub allocations: &'a [AllocationNote],
    pub loads: &'a [LoadNote],
    /// When collectors asked for a list last, in seconds since 1970. 0 where they did not.
    pub asked: &'a [(u32, u64)],
    pub standing: &'a Standing,
}

/// The page for people, in HTML.
pub fn status_page(alloc: Global, shown: &Shown<'_>) -> Result<Text, AllocError> {
    let mut page = Hypertext::new(alloc);
    write_page(&mut page, shown)?;
    finished(page)
}

fn write_page(page: &mut Hypertext, shown: &Shown<'_>) -> Result<(), AllocError> {
    let counted = Counted::of(shown.figures, shown.sources, shown.standing);
    begin_title(page)?;
    write_title(page, count_needs(&counted))?;
    end_title(page)?;
    write_top(page, shown)?;
    write_attention(page, shown, &counted)?;
    write_jobs(page, shown.figures.jobs.as_slice())?;
    write_collectors(page, shown)?;
    write_sources(page, shown.sources, shown.standing)?;
    write_allocations(page, shown.allocations)?;
    write_foot(page, shown.figures, shown.standing)?;
    end_page(page)
}

fn write_title(page: &mut Hypertext, needs: usize) -> Result<(), AllocError> {
    if needs == 0 {
        return Ok(());
    }
    page.markup(": ")?;
    page.number(needs as u128)?;
    page.markup(if needs == 1 {
        " thing needs attention"
    } else {
        " things need attention"
    })
}

/// The name, the links, the search, and which allocation is the current one.
fn write_top(page: &mut Hypertext, shown: &Shown<'_>) -> Result<(), AllocError> {
    page.markup("<h1>allocd <small>")?;
    page.text(shown.standing.version)?;
    page.markup("</small></h1>\n")?;
    write_links(page)?;
    write_search(page, "")?;
    page.markup("<p>Allocation ")?;
    page.number(u128::from(shown.figures.allocation))?;
    write_published(page, shown.allocations)?;
    page.markup(", round ")?;
    page.number(u128::from(shown.figures.round))?;
    page.markup(".</p>\n")
}

/// Since when the current allocation is, where one was published since the start.
fn write_published(page: &mut Hypertext, allocations: &[AllocationNote]) -> Result<(), AllocError> {
    match allocations.first() {
        Some(last) => {
            page.markup(" since ")?;
            page.text(last.at.as_str())
        }
        None => Ok(()),
    }
}
