//! A session from its document to its end.
ghost use Rattle.std.specs.Prelude.{◌<◌, ◌≤◌};
ghost use Rattle.alloc_desk.specs.declared.limits.TheConstants.{MOST_PASSES};

use crate::ended::{Ended, Fault, Halt, unread};
use crate::here::with_here;
use crate::lines::stop_line;
use crate::one_desk::{OTHER_SEATS, run_over_desk};
use crate::opening::core_of;
use crate::page_server::serve_pages;
use alloc_desk::Log;
use allocation_core::Core;
use event_loops::Runtime;
use fleet::MOST_COLLECTORS;
use lists::List;
use session::{Session, read_session};
use std::alloc::Global;
use std::marker::Brand;
use std::net::{Ipv4Addr, SocketAddr, TcpListener, TcpStream};
use std::sync::atomic::{AtomicBool, Ordering};
use std::sync::ledger::Blank;
use std::{mem, thread};

/// Runs the session of a document, and writes its lines. Where it has no end, the lines so far are written.
pub fn session<R>(
    rt: &R,
    alloc: Global,
    document: &[u8],
    text: &mut Vec<u8>,
) -> Result<Ended, Fault>
where
    R: Runtime,
{
    let listener = TcpListener::bind(rt, SocketAddr::from((Ipv4Addr::LOCALHOST, 0)))?;
    let here = listener.local_addr()?;
    let address = format!(in alloc; "{here}")?;
    let document = with_here(alloc, document, address.as_str())?;
    let read = read_session(alloc, document.as_slice());
    drop((address, document));
    match read {
        Ok(mut session) => {
            let halted = serve_session(rt, alloc, &mut session, &listener, here, text);
            drop(session);
            ended(alloc, halted, text)
        }
        Err(error) => unread(error),
    }
}

/// Writes the line of what stopped a session.
fn ended(alloc: Global, halted: Result<(), Halt>, text: &mut Vec<u8>) -> Result<Ended, Fault> {
    match halted {
        Ok(()) => Ok(Ended::Done),
        Err(Halt::Stopped(stop)) => {
            let line = stop_line(alloc, &stop);
            drop(stop);
            let line = line?;
            text.extend_from_slice(line.as_bytes())?;
            Ok(Ended::Refused)
        }
        Err(Halt::Device) => Err(Fault::Device),
    }
}

/// Runs a session beside the server of its pages.
fn serve_session<R>(
    rt: &R,
    alloc: Global,
    session: &mut Session,
    listener: &TcpListener,
    here: SocketAddr,
    text: &mut Vec<u8>,
) -> Result<(), Halt>
where
    R: Runtime,
{
    let mut pages = mem::replace(&mut session.pages, List::new(alloc)).into_vec();
    let stop = AtomicBool::new(false);
    let ((), halted) = thread::join(
        rt,
        || serve_pages(alloc, listener, &mut pages, &stop),
        || run_then_stop(rt, alloc, session, here, &stop, text),
    );
    drop(pages);
    halted
}

/// Runs a session, and has the server of its pages end.
fn run_then_stop<R>(
    rt: &R,
    alloc: Global,
    session: &Session,
    here: SocketAddr,
    stop: &AtomicBool,
    text: &mut Vec<u8>,
) -> Result<(), Halt>
where
    R: Runtime,
{
    let halted = run(rt, alloc, session, text);
    stop.store(true, Ordering::SeqCst);
    let _last = TcpStream::connect(rt, here);
    halted
}

fn run<R>(rt: &R, alloc: Global, session: &Session, text: &mut Vec<u8>) -> Result<(), Halt>
where
    R: Runtime,
{
    let core = core_of(alloc, session.config.jobs.as_slice())?;
    run_over(rt, alloc, session, core, seats_of(session), text)
}

/// How many passes a session's desk has. With more collectors than there can be, the session ends before their rounds.
fn seats_of(session: &Session) -> u32
    ensures { (0 < result) × (result ≤ MOST_PASSES) }
{
    OTHER_SEATS + session.joins.len().min(MOST_COLLECTORS) as u32
}

/// Runs a session over an allocator.
fn run_over<R>(
    rt: &R,
    alloc: Global,
    session: &Session,
    core: Core,
    seats: u32,
    text: &mut Vec<u8>,
) -> Result<(), Halt>
where
    R: Runtime,
    requires { (0 < seats) × (seats ≤ MOST_PASSES) }
{
    let parts = u64::from(seats);
    run_over_desk::<R, Brand, Brand, Brand>(
        rt,
        alloc,
        session,
        core,
        seats,
        Blank::new(parts),
        Blank::new(parts),
        Log::new(),
        text,
    )
}
