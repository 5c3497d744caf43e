//! What is posted to the allocator.
use crate::asking::count;
use crate::edge::Edge;
use agent_core::Report;
use agent_exchanges::{MOST_REPORTS, read_posted, reports_path, reports_text};
use agent_turns::Posted;
use lists::Text;
use scrape_client::Method;
use std::alloc::{AllocError, AllocGlobal};
use std::net::Net;
use std::random::RandomSource;
use std::sync::Wait;
use std::time::Clock;

impl<R> Edge<'_, R>
where
    R: Wait + Clock + Net + RandomSource + AllocGlobal + Eprint + Copy,
{
    /// Posts reports, so many at once as a list may have.
    pub(crate) fn post_all(&self, reports: &[Report]) -> Posted {
        for some in reports.chunks(MOST_REPORTS) {
            match self.post_some(some) {
                Posted::Answered => {}
                Posted::Over => {
                    count(&self.store.counts.refusals, 1);
                    return Posted::Over;
                }
                Posted::Unknown => return Posted::Unknown,
            }
        }
        Posted::Answered
    }

    /// Posts a list of reports.
    fn post_some(&self, reports: &[Report]) -> Posted {
        match self.texts_of(reports) {
            Ok(Some((path, body))) => {
                count(&self.store.counts.reports, reports.len() as u64);
                self.post_text(path.as_str(), body.as_str())
            }
            Ok(None) => Posted::Answered,
            Err(AllocError) => Posted::Unknown,
        }
    }

    /// Where reports are posted, and the body.
    fn texts_of(&self, reports: &[Report]) -> Result<Option<(Text, Text)>, AllocError> {
        match reports.first() {
            Some(first) => {
                let path = reports_path(self.alloc, self.places.allocator.base.as_str())?;
                let body = reports_text(self.alloc, first.head, reports)?;
                Ok(Some((path, body)))
            }
            None => Ok(None),
        }
    }

    fn post_text(&self, path: &str, body: &str) -> Posted {
        let key = &self.places.keys.allocator;
        match self.ask_allocator(key, Method::Post, path, body.as_bytes()) {
            Some(answer) => {
                let posted = read_posted(self.alloc, answer.status, answer.body.as_slice());
                drop(answer);
                posted.unwrap_or(Posted::Unknown)
            }
            None => Posted::Unknown,
        }
    }
}
