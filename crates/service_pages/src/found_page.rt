//! The page of targets that were searched for.
use crate::cells::counted_words;
use crate::frame::{begin_title, end_page, end_title, finished, write_links};
use crate::moment::{Moment, write_moment};
use crate::search_form::write_search;
use crate::targets::{Beside, Rows, write_targets};
use hypertext::Hypertext;
use lists::Text;
use std::alloc::{AllocError, Global};

/// What the page of a search shows.
#[derive(Clone, Copy)]
pub struct ShownFound<'a> {
    /// The text that was searched for.
    pub text: &'a str,
    /// The live targets that have it.
    pub targets: Rows<'a>,
    pub moment: Moment,
}

/// The page of a search, in HTML.
pub fn found_document(alloc: Global, shown: &ShownFound<'_>) -> Result<Text, AllocError> {
    let mut page = Hypertext::new(alloc);
    write_page(&mut page, shown)?;
    finished(page)
}

fn write_page(page: &mut Hypertext, shown: &ShownFound<'_>) -> Result<(), AllocError> {
    begin_title(page)?;
    page.markup(": targets with ")?;
    page.text(shown.text)?;
    end_title(page)?;
    page.markup("<h1>Targets with ")?;
    page.text(shown.text)?;
    page.markup("</h1>\n")?;
    write_links(page)?;
    write_search(page, shown.text)?;
    write_moment(page, shown.moment)?;
    write_all(page, shown.targets.all)?;
    write_targets(page, shown.targets, Beside::All)?;
    end_page(page)
}

/// How many there are in all.
fn write_all(page: &mut Hypertext, all: u64) -> Result<(), AllocError> {
    page.markup("<p>")?;
    counted_words(
        page,
        u128::from(all),
        "live target has",
        "live targets have",
    )?;
    page.markup(" the text in the address or in the value of a label.</p>\n")
}
