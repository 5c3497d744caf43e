//! The two threads of an agent.
use crate::edge::Edge;
use crate::places::Places;
use agent_core::{Agent, Memory};
use agent_lists::{ListStore, serve_lists};
use agent_turns::turn;
use event_loops::{Gate, LoopRuntime, Runtime, Times};
use log::{error, info};
use logfmt::Logfmt;
use scrape_client::Lookups;
use std::alloc::{AllocError, AllocGlobal};
use std::fs::File;
use std::net::{Net, SocketAddr, TcpListener, TcpStream};
use std::random::RandomSource;
use std::rt::Files;
use std::sync::atomic::{AtomicBool, Ordering};
use std::sync::{Arc, Wait};
use std::time::{Clock, Duration};
use std::{io, thread};

/// How many connections its Prometheus may have at once.
const CONNECTIONS: u32 = 256;

/// A turn is made so often in a round.
const TURNS: u64 = 5;

/// And so long behind the one before at least and at most, in milliseconds.
const LEAST_PAUSE: u64 = 1_000;

const MOST_PAUSE: u64 = 15_000;

/// Makes turns and serves the lists, until nobody can listen any more.
pub(crate) fn run<R>(
    rt: &R,
    lookups: &Lookups,
    listener: &TcpListener,
    places: &Places,
    memory: Memory,
) -> io::Result<()>
where
    R: Runtime + Files<File = File> + Eprint,
{
    let (gate, store) = match shared_of(rt) {
        Ok(found) => found,
        Err(error) => {
            drop(memory);
            return Err(error.into());
        }
    };
    let is_over = AtomicBool::new(false);
    let mut agent = Agent::new(rt.alloc(), memory, places.settings.lease);
    log_address(rt, listener);
    let (served, ()) = thread::join(
        rt,
        || serve_then_stop(rt, &gate, listener, &store, &is_over),
        || make_turns(rt, lookups, &store, places, &mut agent, &is_over),
    );
    drop((agent, store, gate));
    served
}

/// Serves the lists as long as that goes, and has the turns end.
fn serve_then_stop<R>(
    rt: &R,
    gate: &Gate,
    listener: &TcpListener,
    store: &Arc<ListStore>,
    is_over: &AtomicBool,
) -> io::Result<()>
where
    R: LoopRuntime,
{
    let served = serve_lists(rt, gate, listener, store);
    is_over.store(true, Ordering::SeqCst);
    served
}

/// What the two threads share.
fn shared_of<R: AllocGlobal>(rt: &R) -> Result<(Gate, Arc<ListStore>), AllocError> {
    let store = store_of(rt)?;
    let gate = Gate::new(rt.alloc(), CONNECTIONS, Times::DEFAULT)?;
    Ok((gate, store))
}

fn store_of<R: AllocGlobal>(rt: &R) -> Result<Arc<ListStore>, AllocError> {
    Ok(Arc::new(rt.alloc(), ListStore::new(rt.alloc()))?)
}

/// Makes one turn after the other.
fn make_turns<R>(
    rt: &R,
    lookups: &Lookups,
    store: &ListStore,
    places: &Places,
    agent: &mut Agent,
    is_over: &AtomicBool,
)
where
    R: Wait
        + Clock
        + Net<Listener = TcpListener, Stream = TcpStream>
        + Files<File = File>
        + RandomSource
        + AllocGlobal
        + Eprint
        + Copy
        + Drop,
{
    let mut edge = Edge::new(rt, lookups, store, places);
    for _ in rt.forever() {
        if is_over.load(Ordering::SeqCst) {
            return;
        }
        if turn(rt.alloc(), agent, &mut edge).is_err() {
            log_memory(rt);
        }
        thread::sleep(
            rt,
            Duration::from_millis(pause_of(edge.round.load(Ordering::SeqCst))),
        );
    }
    unreachable!()
}

/// How long is waited between two turns, where a round is so long.
fn pause_of(round: u64) -> u64 {
    (round / TURNS).max(LEAST_PAUSE).min(MOST_PAUSE)
}

fn log_address<R: Clock + Eprint + Copy>(rt: &R, listener: &TcpListener) {
    if let Ok(here) = listener.local_addr() {
        log_here(rt, here);
    }
}

fn log_here<R: Clock + Eprint + Copy>(rt: &R, here: SocketAddr) {
    info!(Logfmt(*rt); address:% = here; "listening");
}

fn log_memory<R: Clock + Eprint + Copy>(rt: &R) {
    error!(Logfmt(*rt); "no memory was left for a turn");
}
