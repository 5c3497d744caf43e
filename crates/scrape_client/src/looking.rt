//! Fetches that wait for the address of a name.
use crate::lookups::{Found, Lookups};
use http_get::{Cause, Get, name_of};
use std::alloc::{AllocError, Global};
use std::net::SocketAddr;
use std::sync::Wait;
use std::time::{Clock, Instant};

/// A fetch whose name is looked up.
#[derive(Drop)]
struct Waiting {
    mark: usize,
    ticket: u64,
    get: Get,
    deadline: Instant,
}

/// A fetch whose name was looked up.
#[derive(Drop)]
pub(crate) struct Looked {
    pub(crate) mark: usize,
    pub(crate) get: Get,
    pub(crate) deadline: Instant,
    pub(crate) came: Result<SocketAddr, Cause>,
}

/// The fetches that wait for the address of a name.
#[derive(Drop)]
pub(crate) struct Looking<'a> {
    alloc: Global,
    lookups: &'a Lookups,
    waiting: Vec<Waiting>,
}

impl<'a> Looking<'a> {
    /// None yet. What was asked before is forgotten.
    pub(crate) fn begin(rt: &impl Wait, alloc: Global, lookups: &'a Lookups) -> Looking<'a> {
        lookups.forget(rt);
        Looking {
            alloc,
            lookups,
            waiting: Vec::new(alloc),
        }
    }

    /// Has the name of a fetch looked up until its deadline.
    pub(crate) fn ask(
        &mut self,
        rt: &impl Wait,
        mark: usize,
        get: Get,
        deadline: Instant,
    ) -> Result<(), Cause> {
        match self.ticket_of(rt, &get) {
            Ok(ticket) => self.push(Waiting {
                mark,
                ticket,
                get,
                deadline,
            }),
            Err(cause) => Err(cause),
        }
    }

    fn ticket_of(&self, rt: &impl Wait, get: &Get) -> Result<u64, Cause> {
        match name_of(get.address.as_str()) {
            Some((name, port)) => match self.lookups.ask(rt, self.alloc, name, port) {
                Ok(ticket) => Ok(ticket),
                Err(AllocError) => Err(Cause::Memory),
            },
            None => Err(Cause::NoAddress),
        }
    }

    fn push(&mut self, waiting: Waiting) -> Result<(), Cause> {
        match self.waiting.push(waiting) {
            Ok(()) => Ok(()),
            Err(_) => Err(Cause::Memory),
        }
    }

    /// A fetch whose name was looked up, or was not in time.
    pub(crate) fn next<R: Wait + Clock>(&mut self, rt: &R) -> Option<Looked> {
        if self.waiting.is_empty() {
            return None;
        }
        match self.lookups.found(rt) {
            Some(found) => self.found(found),
            None => self.late(rt),
        }
    }

    /// The fetch of a ticket, if it still waits.
    fn found(&mut self, found: Found) -> Option<Looked> {
        let place = self.place_of(found.ticket)?;
        let came = match found.address {
            Some(address) => Ok(address),
            None => Err(Cause::NoName),
        };
        self.take(place, came)
    }

    /// A fetch whose deadline is over.
    fn late<R: Wait + Clock>(&mut self, rt: &R) -> Option<Looked> {
        let now = Instant::now(rt).ok()?;
        let (place, ticket) = self.late_at(now)?;
        self.lookups.give_up(rt, ticket);
        self.take(place, Err(Cause::TimedOut))
    }

    fn take(&mut self, place: usize, came: Result<SocketAddr, Cause>) -> Option<Looked> {
        if place >= self.waiting.len() {
            return None;
        }
        let Waiting {
            mark,
            get,
            deadline,
            ..
        } = self.waiting.swap_remove(place);
        Some(Looked {
            mark,
            get,
            deadline,
            came,
        })
    }

    fn place_of(&self, ticket: u64) -> Option<usize> {
        for (place, waiting) in self.waiting.iter().enumerate() {
            if waiting.ticket == ticket {
                return Some(place);
            }
        }
        None
    }

    fn late_at(&self, now: Instant) -> Option<(usize, u64)> {
        for (place, waiting) in self.waiting.iter().enumerate() {
            if waiting.deadline <= now {
                return Some((place, waiting.ticket));
            }
        }
        None
    }
}
