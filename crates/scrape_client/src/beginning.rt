//! How an exchange begins, and what it came to.
ghost use Rattle.std.specs.Prelude.{IfOk};

use crate::ask::{Answer, Ask};
use crate::exchange::Exchange;
use crate::faults::io_cause;
use crate::while_memory::WhileMemory;
use futures::Future;
use http_get::Cause;
use std::alloc::{AllocError, AllocGlobal};
use std::net::{Net, SocketAddr};
use std::random::RandomSource;
use std::time::{Clock, Duration, Instant};
use tokio::runtime::Handle;
use tokio::time::Timeout;
use tokio::time::error::Elapsed;

/// An exchange that is given up at its deadline, and where memory ends.
pub(crate) type Timed = WhileMemory<Timeout<Exchange>>;

/// An exchange with the host at an address, which is given up at a deadline.
pub(crate) fn timed_at<R>(
    rt: &R,
    handle: &Handle,
    deadline: Instant,
    address: SocketAddr,
    ask: &Ask<'_>,
) -> Result<Timed, Cause>
where
    R: Clock + Net + RandomSource + AllocGlobal,
    ensures { IfOk result ⟦<WhileMemory<Timeout<Exchange>> as Future>⟧.can_poll }
{
    let exchange = Exchange::begin(rt, handle.reactor(), address, ask)?;
    match handle.time().timeout_at(deadline, exchange) {
        Ok(timed) => Ok(WhileMemory::new(rt.alloc(), timed)),
        Err(_) => Err(Cause::Memory),
    }
}

/// What an exchange came to that may have been given up.
pub(crate) fn came_to(
    ended: Result<Result<Result<Answer, Cause>, Elapsed>, AllocError>,
) -> Result<Answer, Cause> {
    match ended {
        Ok(Ok(result)) => result,
        Ok(Err(_elapsed)) => Err(Cause::TimedOut),
        Err(AllocError) => Err(Cause::Memory),
    }
}

/// When a fetch that begins now is given up.
pub(crate) fn deadline_of(rt: &impl Clock, limit: Duration) -> Result<Instant, Cause> {
    match Instant::now(rt) {
        Ok(now) => now.checked_add(limit).ok_or(Cause::Broken),
        Err(e) => Err(io_cause(&e)),
    }
}
