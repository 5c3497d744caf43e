//! The device over HTTP.
ghost use Rattle.std.specs.Prelude.{◌≡◌, ◌≤◌, IfOk, length};
ghost use Rattle.scrape_client.specs.declared.fetching.TheConstants.{LONGEST_BODY};

use crate::blocking::fetch_within;
use http_get::{FetchFault, Get, Reply, Scrape, failures_after};
use std::alloc::AllocGlobal;
use std::net::Net;
use std::random::RandomSource;
use std::sync::Wait;
use std::time::{Clock, Duration};

/// A device over HTTP/1.1, with a new connection for each fetch. An address that is none, a connection or an exchange that fails
/// or is not done in time, and a body that is encoded are `Device`. No redirect is followed.
#[derive(Drop)]
pub struct HyperScrape<R> {
    rt: R,
    limit: Duration,
    failures: u64,
}

impl<R> HyperScrape<R> {
    /// A device that gives each fetch so much time, from the connecting to the end of the body.
    pub fn new(rt: R, limit: Duration) -> HyperScrape<R>
        ensures { result.failures ≡ 0 }
    {
        HyperScrape {
            rt,
            limit,
            failures: 0,
        }
    }
}

impl<R: Wait + Clock + Net + RandomSource + AllocGlobal> Scrape for HyperScrape<R> {
    ghost use Rattle.std.specs.Prelude.{◌≡◌, ◌≤◌, IfOk, length};
    ghost use Rattle.http_get.specs.Scripts.{counted};
    ghost use Rattle.scrape_client.specs.declared.fetching.TheConstants.{LONGEST_BODY};

    ghost may_fetch = { λ s _ result t. (t.failures ≡ counted result s.failures) × IfOk result (λ reply. length reply.body ≤ LONGEST_BODY) };

    ghost failed = { λ s. s.failures };

    fn fetch(&mut self, get: &Get) -> Result<Reply, FetchFault> {
        let fetched = fetch(&self.rt, get, self.limit);
        self.failures = failures_after(&fetched, self.failures);
        fetched
    }

    fn failures(&self) -> u64 {
        self.failures
    }
}

fn fetch<R>(rt: &R, get: &Get, limit: Duration) -> Result<Reply, FetchFault>
where
    R: Wait + Clock + Net + RandomSource + AllocGlobal,
    ensures { IfOk result (λ reply. length reply.body ≤ LONGEST_BODY) }
{
    match fetch_within(rt, get, limit) {
        Ok(reply) => Ok(reply),
        Err(cause) => Err(cause.fault()),
    }
}
