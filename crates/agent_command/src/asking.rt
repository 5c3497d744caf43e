//! What an agent asks over HTTP.
use crate::edge::Edge;
use crate::places::Server;
use crate::told::{
    tell_allocator_away, tell_allocator_heard, tell_prometheus_away, tell_prometheus_heard,
};
use http_get::Cause;
use lists::Text;
use scrape_client::{Answer, Ask, Method, ask_within};
use std::alloc::AllocGlobal;
use std::net::Net;
use std::random::RandomSource;
use std::sync::Wait;
use std::sync::atomic::{AtomicU64, Ordering};
use std::time::{Clock, Duration};

/// The most bytes of an answer.
const LONGEST_ANSWER: usize = 67_108_864;

/// How long an answer may take, in milliseconds.
const LONGEST_WAIT: u64 = 10_000;

/// What a body is.
const JSON: (&str, &str) = ("content-type", "application/json");

impl<R> Edge<'_, R>
where
    R: Wait + Clock + Net + RandomSource + AllocGlobal + Eprint + Copy,
{
    /// What the allocator answers to a request, where it does.
    pub(crate) fn ask_allocator(
        &self,
        key: &Option<Text>,
        method: Method,
        path: &str,
        body: &[u8],
    ) -> Option<Answer> {
        match self.ask(&self.places.allocator, key, method, path, body) {
            Ok(answer) => {
                tell_allocator_heard(&self.rt, &self.is_allocator_away);
                Some(answer)
            }
            Err(cause) => {
                count(&self.store.counts.allocator_failures, 1);
                tell_allocator_away(&self.rt, &self.is_allocator_away, cause);
                None
            }
        }
    }

    /// What Prometheus answers with success, where it does.
    pub(crate) fn ask_prometheus(&self, path: &str) -> Option<Answer> {
        let key = &self.places.keys.prometheus;
        match self.ask(&self.places.prometheus, key, Method::Get, path, b"") {
            Ok(answer) if answer.status == 200 => {
                tell_prometheus_heard(&self.rt, &self.is_prometheus_away);
                Some(answer)
            }
            Ok(answer) => {
                drop(answer);
                self.miss_prometheus(Cause::Broken);
                None
            }
            Err(cause) => {
                self.miss_prometheus(cause);
                None
            }
        }
    }

    fn miss_prometheus(&self, cause: Cause) {
        count(&self.store.counts.prometheus_failures, 1);
        tell_prometheus_away(&self.rt, &self.is_prometheus_away, cause);
    }

    fn ask(
        &self,
        server: &Server,
        key: &Option<Text>,
        method: Method,
        path: &str,
        body: &[u8],
    ) -> Result<Answer, Cause> {
        match key {
            Some(key) => {
                let headers = [JSON, ("authorization", key.as_str())];
                self.ask_with(server, method, path, headers.as_slice(), body)
            }
            None => self.ask_with(server, method, path, [JSON].as_slice(), body),
        }
    }

    fn ask_with(
        &self,
        server: &Server,
        method: Method,
        path: &str,
        headers: &[(&str, &str)],
        body: &[u8],
    ) -> Result<Answer, Cause> {
        let ask = Ask {
            method,
            address: server.address.as_str(),
            path,
            headers,
            body,
            longest: LONGEST_ANSWER,
            limit: Duration::from_millis(LONGEST_WAIT),
        };
        ask_within(&self.rt, self.lookups, &ask)
    }
}

/// Counts so many further.
pub(crate) fn count(counter: &AtomicU64, more: u64) {
    counter.fetch_add(more, Ordering::SeqCst);
}
