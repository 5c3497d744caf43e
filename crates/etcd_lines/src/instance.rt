//! An instance, from standing by to its end.
use crate::leading::lead;
use crate::standing_by::stand_by;
use crate::words::Words;
use etcd_answers::Granted;
use etcd_client::{EtcdClient, Watch, grant, keep_lease, revoke};
use etcd_journal::open;
use etcd_requests::term_text;
use lists::Text;
use scrape_client::Lookups;
use std::alloc::{AllocError, AllocGlobal, Global};
use std::io::Input;
use std::net::{Net, TcpListener, TcpStream};
use std::random::RandomSource;
use std::sync::{Arc, Wait};
use std::thread::Threads;
use std::time::Clock;
use std::{io, thread};

/// What an instance has beside what it knows.
#[derive(Clone, Copy)]
pub(crate) struct Outer<'a, R> {
    pub(crate) rt: R,
    pub(crate) lookups: &'a Arc<Lookups>,
    pub(crate) words: &'a Words,
}

/// How an instance ends.
#[derive(Drop)]
pub(crate) enum Ending {
    /// There are no more lines, and its lease is given up.
    Quit,
    Deposed,
}

impl<R: AllocGlobal + Copy> Outer<'_, R> {
    /// What asks etcd as long as an instance may lead.
    pub(crate) fn client(&self, watch: &Arc<Watch>) -> Result<EtcdClient<R>, AllocError> {
        let alloc = self.rt.alloc();
        let endpoints = self.words.endpoints(alloc)?;
        let lookups = Arc::try_clone(self.lookups)?;
        let watch = Arc::try_clone(watch)?;
        Ok(EtcdClient::new(self.rt, lookups, endpoints, None, watch))
    }
}

/// Stands by until nobody leads, leads, and keeps lines until there are no more or it is deposed.
pub(crate) fn run<R>(outer: &Outer<'_, R>) -> io::Result<Ending>
where
    R: Wait
        + Threads
        + Clock
        + Net<Listener = TcpListener, Stream = TcpStream>
        + RandomSource
        + Input
        + Print
        + AllocGlobal
        + Send
        + Copy
        + Drop
        + 'static,
{
    for _ in 0..u64::MAX {
        stand_by(outer)?;
        if let Some(ending) = claim(outer)? {
            return Ok(ending);
        }
    }
    Ok(Ending::Deposed)
}

/// Leads under a lease of its own. None where another was faster.
fn claim<R>(outer: &Outer<'_, R>) -> io::Result<Option<Ending>>
where
    R: Wait
        + Threads
        + Clock
        + Net<Listener = TcpListener, Stream = TcpStream>
        + RandomSource
        + Input
        + Print
        + AllocGlobal
        + Send
        + Copy
        + Drop
        + 'static,
{
    let watch = Arc::new(outer.rt.alloc(), Watch::new())?;
    let mut client = outer.client(&watch)?;
    match grant(outer.rt.alloc(), &mut client, outer.words.seconds)? {
        Some(granted) => under(outer, &watch, &mut client, granted),
        None => Ok(None),
    }
}

fn under<R>(
    outer: &Outer<'_, R>,
    watch: &Arc<Watch>,
    client: &mut EtcdClient<R>,
    granted: Granted,
) -> io::Result<Option<Ending>>
where
    R: Wait
        + Threads
        + Clock
        + Net<Listener = TcpListener, Stream = TcpStream>
        + RandomSource
        + Input
        + Print
        + AllocGlobal
        + Send
        + Copy
        + Drop
        + 'static,
{
    let own = outer.rt;
    let theirs = Arc::try_clone(watch)?;
    let mut asks = outer.client(watch)?;
    let keeper = thread::spawn(&outer.rt, move || {
        keep_lease(&own, &mut asks, granted.lease, granted.seconds, &theirs)
    })?;
    let ending = open_and_lead(outer, watch, granted);
    watch.end();
    let _ = keeper.join(&outer.rt);
    revoke(outer.rt.alloc(), client, granted.lease)?;
    ending
}

fn open_and_lead<R>(
    outer: &Outer<'_, R>,
    watch: &Arc<Watch>,
    granted: Granted,
) -> io::Result<Option<Ending>>
where
    R: Wait
        + Threads
        + Clock
        + Net<Listener = TcpListener, Stream = TcpStream>
        + RandomSource
        + Input
        + Print
        + AllocGlobal
        + Send
        + Copy
        + Drop
        + 'static,
{
    let alloc = outer.rt.alloc();
    let term = new_term(&outer.rt, alloc, outer.words.advertise.as_str())?;
    let client = outer.client(watch)?;
    let prefix = outer.words.prefix.as_str();
    match open(alloc, prefix, term.as_str(), granted.lease, 1, client)? {
        Some(opened) => Ok(Some(lead(outer, opened)?)),
        None => Ok(None),
    }
}

/// The text of a term that nobody else has.
fn new_term<R: RandomSource>(rt: &R, alloc: Global, advertise: &str) -> io::Result<Text> {
    let mut bytes = [0; 16];
    rt.fill_bytes(&mut bytes)?;
    let number = u128::from_le_bytes(bytes);
    let instance = format!(in alloc; "{number:032x}")?;
    Ok(term_text(alloc, advertise, instance.as_str())?)
}
