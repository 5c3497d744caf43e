//! Of which moment a page is.
use hypertext::Hypertext;
use std::alloc::AllocError;

/// Of which moment a page is.
#[derive(Clone, Copy)]
pub struct Moment {
    /// The number of the current allocation, 0 before the first.
    pub allocation: u32,
    pub round: u32,
}

pub(crate) fn write_moment(page: &mut Hypertext, moment: Moment) -> Result<(), AllocError> {
    page.markup("<p>Allocation ")?;
    page.number(u128::from(moment.allocation))?;
    page.markup(", round ")?;
    page.number(u128::from(moment.round))?;
    page.markup(".</p>\n")
}
