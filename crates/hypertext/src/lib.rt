//! Documents in HTML, in which no text from outside is markup.
#![tactic(auto)]

mod escaping;
mod hypertext;
mod laws;
mod segments;

pub use hypertext::Hypertext;
pub use laws::texts_are_no_markup;
