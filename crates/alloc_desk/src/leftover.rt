//! What is left of a closed desk.
use journal_entries::Entry;

/// What is left of a closed desk whose allocator goes on: its journal. To let go of it takes the longer the longer it is, so whoever opens the next
/// desk may have another thread do that.
#[derive(Drop)]
pub struct Leftover {
    pub(crate) journal: Vec<Entry>,
}
