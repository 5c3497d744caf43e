//! Names that are looked up on threads of their own, since a look-up has no limit of time.
use std::alloc::{AllocError, AllocGlobal, Global};
use std::collections::VecDeque;
use std::net::{Net, SocketAddr, TcpListener, TcpStream, ToSocketAddrs};
use std::sync::{Arc, Condvar, Mutex, Wait};
use std::thread;
use std::thread::Threads;

/// How many names are looked up at once.
pub const LOOKERS: usize = 4;

/// A name that is to be looked up.
#[derive(Drop)]
struct Wanted {
    ticket: u64,
    name: String,
    port: u16,
}

/// What a look-up came to.
#[derive(Clone, Copy, Drop)]
pub(crate) struct Found {
    /// What was given for the name.
    pub(crate) ticket: u64,
    /// The address, where the name has one.
    pub(crate) address: Option<SocketAddr>,
}

/// Names that are looked up while nobody waits for them.
#[derive(Drop)]
pub struct Lookups {
    board: Mutex<Board>,
    told: Condvar,
}

/// What is to be looked up, in order, and what was found.
#[derive(Drop)]
struct Board {
    wanted: VecDeque<Wanted>,
    found: VecDeque<Found>,
    /// The last ticket that was given.
    last: u64,
}

/// Starts the threads that look names up. They end with the process, so that one that hangs holds nobody up.
pub fn start_lookups<R>(rt: &R) -> Result<Arc<Lookups>, AllocError>
where
    R: Wait
        + Threads
        + Net<Listener = TcpListener, Stream = TcpStream>
        + AllocGlobal
        + Send
        + Copy
        + Drop
        + 'static,
{
    let lookups = Arc::new(rt.alloc(), Lookups::none(rt.alloc()))?;
    for _ in 0..LOOKERS {
        start_one(rt, &lookups)?;
    }
    Ok(lookups)
}

fn start_one<R>(rt: &R, lookups: &Arc<Lookups>) -> Result<(), AllocError>
where
    R: Wait
        + Threads
        + Net<Listener = TcpListener, Stream = TcpStream>
        + AllocGlobal
        + Send
        + Copy
        + Drop
        + 'static,
{
    let own = *rt;
    let theirs = Arc::try_clone(lookups)?;
    let _looker = thread::spawn(rt, move || look_up_all(&own, &theirs))?;
    Ok(())
}

/// Looks up one name after the other.
fn look_up_all<R: Wait + Net>(rt: &R, lookups: &Lookups) {
    for _ in rt.forever() {
        if let Some(wanted) = lookups.next(rt) {
            let address = address_of(rt, wanted.name.as_str(), wanted.port);
            let ticket = wanted.ticket;
            lookups.tell(rt, Found { ticket, address });
        }
    }
    unreachable!()
}

/// An address of a name, where it has one: the first of IPv4, or else the first.
fn address_of<R: Net>(rt: &R, name: &str, port: u16) -> Option<SocketAddr> {
    let mut first = None;
    match (name, port).to_socket_addrs(rt) {
        Ok(addresses) => {
            for address in addresses {
                first = better(first, address);
            }
        }
        Err(_) => {}
    }
    first
}

fn better(first: Option<SocketAddr>, other: SocketAddr) -> Option<SocketAddr> {
    match first {
        Some(address) if address.is_ipv4() || !other.is_ipv4() => first,
        _ => Some(other),
    }
}

impl Lookups {
    fn none(alloc: Global) -> Lookups {
        Lookups {
            board: Mutex::new(Board {
                wanted: VecDeque::new(alloc),
                found: VecDeque::new(alloc),
                last: 0,
            }),
            told: Condvar::new(),
        }
    }

    /// Has a name looked up, and gives the ticket with which its address is told.
    pub(crate) fn ask(
        &self,
        rt: &impl Wait,
        alloc: Global,
        name: &str,
        port: u16,
    ) -> Result<u64, AllocError> {
        let name = String::from_str(alloc, name)?;
        let ticket = self.board.lock(rt).add(name, port)?;
        self.told.notify_one();
        Ok(ticket)
    }

    /// What was found next, if anything was.
    pub(crate) fn found(&self, rt: &impl Wait) -> Option<Found> {
        self.board.lock(rt).found.pop_front()
    }

    /// Nobody wants the name of a ticket any more.
    pub(crate) fn give_up(&self, rt: &impl Wait, ticket: u64) {
        self.board.lock(rt).give_up(ticket);
    }

    /// Nobody wants what was asked.
    pub(crate) fn forget(&self, rt: &impl Wait) {
        let mut board = self.board.lock(rt);
        board.wanted.clear();
        board.found.clear();
    }

    /// Waits for a name that is to be looked up.
    fn next(&self, rt: &impl Wait) -> Option<Wanted> {
        let mut board = self.told.wait_while(rt, self.board.lock(rt), |board| {
            board.wanted.is_empty()
        });
        board.wanted.pop_front()
    }

    /// Tells what a look-up came to. Where there is no memory for it, nobody hears of it.
    fn tell(&self, rt: &impl Wait, found: Found) {
        let _ = self.board.lock(rt).found.push_back(found);
    }
}

impl Board {
    fn add(&mut self, name: String, port: u16) -> Result<u64, AllocError> {
        let ticket = self.last.wrapping_add(1);
        self.last = ticket;
        self.wanted.push_back(Wanted { ticket, name, port })?;
        Ok(ticket)
    }

    fn give_up(&mut self, ticket: u64) {
        self.wanted.retain(|wanted| wanted.ticket != ticket);
    }
}
