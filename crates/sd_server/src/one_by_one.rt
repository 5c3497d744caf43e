//! The server of tests and of a session: one connection after the other on the calling thread, each for one request.
use crate::handler::Handler;
use crate::service::{AllocatorService, shared_routes};
use hyper::server::conn::http1;
use kept_journal::JournalName;
use sd_routes::Routes;
use std::alloc::AllocGlobal;
use std::hash::RandomState;
use std::io;
use std::net::SocketAddr;
use std::random::RandomSource;
use std::sync::atomic::{AtomicBool, Ordering};
use std::sync::ledger::Ledger;
use std::sync::{Arc, Wait};
use std::time::{Clock, Duration};
use tokio::net::{TcpListener, TcpStream};
use tokio::runtime::LocalRuntime;

/// How long one connection may take.
const LONGEST_SECONDS: u64 = 5;

/// Serves one connection after the other, each for one request, until the flag is set and one more connection came.
pub fn serve_one_by_one<R, L: Ledger, B: Ledger, N: JournalName>(
    rt: &R,
    runtime: &mut LocalRuntime,
    mut listener: TcpListener,
    handler: &Handler<R, L, B, N>,
    stop: &AtomicBool,
) -> io::Result<()>
where
    R: Wait + Clock + RandomSource + AllocGlobal + Copy + Drop,
{
    let mut http = http1::Builder::new(rt.alloc(), RandomState::new(rt)?);
    http.keep_alive(false);
    let routes = shared_routes(rt.alloc())?;
    serve_each(rt, runtime, &mut listener, &http, handler, &routes, stop)
}

fn serve_each<R, L: Ledger, B: Ledger, N: JournalName>(
    rt: &R,
    runtime: &mut LocalRuntime,
    listener: &mut TcpListener,
    http: &http1::Builder,
    handler: &Handler<R, L, B, N>,
    routes: &Arc<Routes>,
    stop: &AtomicBool,
) -> io::Result<()>
where
    R: Wait + Clock + RandomSource + AllocGlobal + Copy + Drop,
{
    for _ in rt.forever() {
        let (socket, from) = runtime.block_on(rt, listener.accept())??;
        if stop.load(Ordering::SeqCst) {
            return Ok(());
        }
        serve_one(rt, runtime, http, socket, from, handler, routes)?;
    }
    unreachable!()
}

fn serve_one<R, L: Ledger, B: Ledger, N: JournalName>(
    rt: &R,
    runtime: &mut LocalRuntime,
    http: &http1::Builder,
    socket: TcpStream,
    from: SocketAddr,
    handler: &Handler<R, L, B, N>,
    routes: &Arc<Routes>,
) -> io::Result<()>
where
    R: Wait + Clock + RandomSource + AllocGlobal + Copy + Drop,
{
    let service = AllocatorService::of(handler, routes, Some(from))?;
    let conn = http.serve_connection(socket, service);
    let longest = Duration::from_secs(LONGEST_SECONDS);
    let timed = runtime.handle().time().timeout(rt, longest, conn)?;
    // A connection that took too long or failed is dropped, and the next is served.
    let _ = runtime.block_on(rt, timed)?;
    Ok(())
}
