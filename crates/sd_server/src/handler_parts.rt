//! What a handler has beside its desk.
use crate::list_texts::ListTexts;
use admission::Admission;
use kept_journal::{JournalName, Kept};
use service_state::{ConfigPages, ServiceState};
use std::sync::Arc;

/// What a handler has beside its desk.
#[derive(Drop)]
pub struct HandlerParts<N: JournalName> {
    pub pages: Arc<ConfigPages>,
    pub state: Arc<ServiceState>,
    /// How much of the journal is kept, where it is to be kept before an answer is given.
    pub kept: Option<Arc<Kept<N>>>,
    /// What changes with each renewal and each new journal.
    pub epoch: u64,
    /// The texts of the lists that were taken.
    pub texts: Arc<ListTexts<N>>,
    /// Who may ask for what.
    pub doors: Arc<Admission>,
}
