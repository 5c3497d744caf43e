//! A fetch that is waited for.
ghost use Rattle.std.specs.Prelude.{◌≤◌, IfOk, length};
ghost use Rattle.scrape_client.specs.declared.fetching.TheConstants.{LONGEST_BODY};

use crate::ask::{Answer, Ask};
use crate::beginning::{came_to, deadline_of, timed_at};
use crate::faults::io_cause;
use crate::fetching::{ask_of, fetched};
use http_get::{Cause, Get, Reply, address_of};
use std::alloc::AllocGlobal;
use std::net::{Net, SocketAddr};
use std::random::RandomSource;
use std::sync::Wait;
use std::time::{Clock, Duration, Instant};
use tokio::runtime::LocalRuntime;

/// One request over a new connection, with so much time.
pub(crate) fn fetch_within<R>(rt: &R, get: &Get, limit: Duration) -> Result<Reply, Cause>
where
    R: Wait + Clock + Net + RandomSource + AllocGlobal,
    ensures { IfOk result (λ reply. length reply.body ≤ LONGEST_BODY) }
{
    let came = match address_of(get.address.as_str()) {
        Some(address) => answer_by(rt, SocketAddr::V4(address), &ask_of(get, limit)),
        None => Err(Cause::NoAddress),
    };
    fetched(rt.alloc(), came)
}

fn answer_by<R>(rt: &R, address: SocketAddr, ask: &Ask<'_>) -> Result<Answer, Cause>
where
    R: Wait + Clock + Net + RandomSource + AllocGlobal,
{
    let deadline = deadline_of(rt, ask.limit)?;
    answer_until(rt, deadline, address, ask)
}

/// The answer of the host at an address, which is waited for until a deadline.
pub(crate) fn answer_until<R>(
    rt: &R,
    deadline: Instant,
    address: SocketAddr,
    ask: &Ask<'_>,
) -> Result<Answer, Cause>
where
    R: Wait + Clock + Net + RandomSource + AllocGlobal,
{
    let mut runtime = match LocalRuntime::new(rt) {
        Ok(runtime) => runtime,
        Err(e) => return Err(io_cause(&e)),
    };
    let came = match timed_at(rt, runtime.handle(), deadline, address, ask) {
        Ok(timed) => match runtime.block_on(rt, timed) {
            Ok(ended) => came_to(ended),
            Err(e) => Err(io_cause(&e)),
        },
        Err(cause) => Err(cause),
    };
    drop(runtime);
    came
}
