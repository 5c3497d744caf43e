//! What a request is answered with while an instance stands by.
use lists::Text;
use sd_routes::Said;

/// What a request is answered with.
#[derive(Drop)]
pub(crate) enum Reply {
    /// As by who leads.
    Said(Said),
    /// A line of plain text.
    Line(Text),
    /// A line of plain text, with the status 503.
    Unavailable(Text),
    /// The same is to be asked there.
    Elsewhere(Text),
}
