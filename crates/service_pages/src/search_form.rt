//! The form that searches for targets.
use hypertext::Hypertext;
use std::alloc::AllocError;

const BEGIN: &str =
    "<form action=\"/targets\" role=\"search\"><label>Who scrapes <input type=\"search\" name=\"search\" size=\"28\" required placeholder=\"address or value of a label\" value=\"";

const END: &str = "\"></label> <button>Search</button></form>\n";

/// The form, with the text that was searched for.
pub(crate) fn write_search(page: &mut Hypertext, text: &str) -> Result<(), AllocError> {
    page.markup(BEGIN)?;
    page.text(text)?;
    page.markup(END)
}
